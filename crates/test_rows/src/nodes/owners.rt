//! What a master owns: parts of crashed masters' logs, and the replay of their entries.

use crate::lines::{Desk, Page};
use crate::nodes::cases::unknown;
use rc_ownership::Ownership;
use rc_types::{Entry, Fault, KeyRange, Part, ServerId};
use std::alloc::{AllocError, Global};

/// Who holds the rows of a long part.
const HOLDER: ServerId = ServerId {
    index: 1,
    generation: 1,
};

/// A part of all keys of table 7 under term 2.
const WHOLE: Part = Part {
    range: KeyRange {
        table: 7,
        lo: 0,
        hi: u64::MAX,
    },
    previous: 1,
    term: 2,
};

/// One command for the owner.
pub fn take(owner: &mut Ownership, command: &str, desk: &mut Desk) -> Result<(), Fault> {
    let Desk { numbers, page, .. } = desk;
    match command {
        "part" => begin_part(owner, desk)?,
        "data" => put_data(owner, desk)?,
        "replay" => replay(owner, desk)?,
        "durable" => durable(owner, numbers.size(), page),
        "complete" => match owner.complete() {
            Some(term) => write!(page, "\n    term {term}"),
            None => page.put("\n    none"),
        },
        "awaiting" => {
            let terms = owner.awaiting_grant(desk.alloc)?;
            page.list("\n    terms:", terms.as_slice());
        }
        "grant" => {
            owner.grant(numbers.range(), numbers.long())?;
            page.put("\n    ok");
        }
        "knows" => page.yes("\n    ", owner.knows_term(numbers.long())),
        "begin" => {
            owner.begin();
            page.put("\n    ok");
        }
        "restore" => {
            owner.restore();
            write!(page, "\n    {} noted", owner.count_noted());
        }
        "part-in-reverse" => in_reverse(owner, desk)?,
        _ => unknown(page),
    }
    Ok(())
}

/// A part is begun, which waits for these rows: of each the segment and the holder.
fn begin_part(owner: &mut Ownership, desk: &mut Desk) -> Result<(), Fault> {
    let Desk { numbers, page, .. } = desk;
    let part = numbers.part();
    let mut rows = Vec::new(desk.alloc);
    for _ in 0..numbers.left() / 3 {
        rows.push((numbers.short(), numbers.id()))?;
    }
    let begun = owner.begin_part(desk.alloc, part, rows.as_slice())?;
    page.yes("\n    begun ", begun);
    Ok(())
}

/// The entries of a row come.
fn put_data(owner: &mut Ownership, desk: &mut Desk) -> Result<(), Fault> {
    let Desk { numbers, page, .. } = desk;
    let from = numbers.id();
    let seg = numbers.short();
    let term = numbers.long();
    let entries = numbers.entries(desk.alloc)?;
    let noted = owner.put_data(desk.alloc, term, seg, from, entries.as_slice())?;
    page.yes("\n    noted ", noted);
    Ok(())
}

/// The next entry that waits, which is then noted as appended; for that memory is asked twice.
fn next(alloc: Global, owner: &mut Ownership) -> Result<Option<Entry>, Fault> {
    let Some(entry) = owner.next_replay(alloc)? else {
        return Ok(None);
    };
    if owner.note(alloc, &entry).is_err() {
        owner.note(alloc, &entry)?;
    }
    Ok(Some(entry))
}

/// An entry in brackets, with the bytes of its value.
fn write_entry(entry: &Entry, page: &mut Page) {
    write!(page, " (term {} table {}", entry.term, entry.table);
    write!(page, " key {} version {}", entry.key, entry.version);
    match &entry.value {
        None => page.put(" value none"),
        Some(bytes) => page.list(" value", bytes.as_slice()),
    }
    page.put(")");
}

fn replay(owner: &mut Ownership, desk: &mut Desk) -> Result<(), Fault> {
    match next(desk.alloc, owner)? {
        Some(entry) => {
            desk.page.put("\n   ");
            write_entry(&entry, &mut desk.page);
        }
        None => desk.page.put("\n    none waits"),
    }
    Ok(())
}

/// So many of the noted entries are durable.
fn durable(owner: &mut Ownership, count: usize, page: &mut Page) {
    if count > owner.count_noted() {
        return unknown(page);
    }
    owner.set_durable(count);
    page.put("\n    ok");
}

/// A part of so many rows of so many entries, whose keys rise from 1 on, comes from the last row to the first. It tells
/// after how many rows nothing waited, and which keys came then, and in what order.
fn in_reverse(owner: &mut Ownership, desk: &mut Desk) -> Result<(), Fault> {
    let rows = desk.numbers.short();
    let width = desk.numbers.long();
    begin_many(desk.alloc, owner, rows)?;
    let mut waited = 0u64;
    for seg in (1..=rows).rev() {
        let entries = row(desk.alloc, seg, width)?;
        owner.put_data(desk.alloc, WHOLE.term, seg, HOLDER, entries.as_slice())?;
        waited = waited.saturating_add(u64::from(!owner.has_replay()));
    }
    write!(desk.page, "\n    nothing after {waited} rows");
    write_order(owner, desk)
}

/// The long part, of which these segments are rows.
fn begin_many(alloc: Global, owner: &mut Ownership, last: u16) -> Result<(), Fault> {
    let mut rows = Vec::new(alloc);
    for seg in 1..=last {
        rows.push((seg, HOLDER))?;
    }
    owner.begin_part(alloc, WHOLE, rows.as_slice())?;
    Ok(())
}

/// The entries of a row of the long part.
fn row(alloc: Global, seg: u16, width: u32) -> Result<Vec<Entry>, AllocError> {
    let before = u64::from(seg.saturating_sub(1)).saturating_mul(u64::from(width));
    let mut entries = Vec::new(alloc);
    for offset in 0..width {
        let key = before.saturating_add(u64::from(offset)).saturating_add(1);
        entries.push(Entry {
            term: 1,
            table: 7,
            key,
            version: 1,
            value: None,
        })?;
    }
    Ok(entries)
}

/// How many entries wait, and whether their keys are the numbers from 1 on.
fn write_order(owner: &mut Ownership, desk: &mut Desk) -> Result<(), Fault> {
    let mut ordered = true;
    for _ in 0..=u16::MAX {
        let Some(entry) = next(desk.alloc, owner)? else {
            break;
        };
        ordered = ordered && entry.key == owner.count_noted() as u64 && entry.term == WHOLE.term;
    }
    write!(desk.page, ", then {} entries", owner.count_noted());
    desk.page
        .yes(", keys from 1 upwards under term 2 ", ordered);
    Ok(())
}
