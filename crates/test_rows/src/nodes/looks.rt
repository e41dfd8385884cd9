//! What is shown of a master and of a backup to whoever runs them.

use crate::lines::Page;
use crate::nodes::cases::unknown;
use rc_backup::Backup;
use rc_master::Master;
use rc_types::KeyRange;

/// What a master owns, the parts that it was given, how many entries wait, and how few members an open segment has.
pub fn write_master(master: &Master, page: &mut Page) {
    for (term, KeyRange { table, lo, hi }) in master.grants() {
        write!(page, "\n    owns table {table} from {lo} to {hi}");
        write!(page, " under term {term}");
    }
    for number in 0..master.count_parts() {
        write_part(master, number, page);
    }
    write!(page, "\n    {} entries wait, ", master.count_replay());
    match master.fewest_members() {
        Some(count) => write!(page, "an open segment has {count} members left"),
        None => page.put("no segment is open"),
    }
}

/// How far a part has come.
fn write_part(master: &Master, number: usize, page: &mut Page) {
    let Some(part) = master.part(number) else {
        return unknown(page);
    };
    write!(page, "\n    part under term {}", part.part.term);
    write!(page, ": {} rows missing", part.missing);
    write!(page, ", {} entries, {} durable", part.entries, part.durable);
    page.yes(", end told ", part.answered);
}

/// What a backup holds of each master.
pub fn write_backup(backup: &Backup, page: &mut Page) {
    if backup.kept().is_empty() {
        page.put("\n    holds nothing");
    }
    for (master, held) in backup.kept() {
        write!(page, "\n    of {master}: {} replicas", held.len());
        write!(page, ", {} open", held.count_open());
        write!(page, ", {} entries", held.count_entries());
        write!(page, ", {} bytes", held.value_bytes());
        page.yes(", fenced ", held.is_fenced());
    }
}
