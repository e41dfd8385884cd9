//! `rc_replica`, `rc_backup` and `rc_digestpick`.

use crate::calls::values::{OTHER, OWNER, digest, entries, gather, place};
use crate::calls::write_kinds;
use crate::lines::{Page, closed_or_open};
use rc_backup::Backup;
use rc_digestpick::pick;
use rc_replica::Replica;
use rc_types::{Fault, Pair, Row, Seq, ServerId};
use std::alloc::Global;

/// The second server of host 1.
const AGAIN: ServerId = ServerId {
    index: 1,
    generation: 2,
};

/// The calls of a replica: it is placed, an entry is appended, and it is closed.
pub fn of_a_replica(alloc: Global, page: &mut Page) -> Result<(), Fault> {
    let mut replica = Replica::new(0, false, digest(alloc)?, Vec::new(alloc));
    write!(page, "\n    new: epoch {}", Replica::epoch(&replica));
    page.list(" digest", Replica::digest(&replica));
    let entries = entries(alloc)?;
    Replica::place(&mut replica, alloc, 2, entries.as_slice(), false)?;
    write!(page, "\n    place: epoch {}", Replica::epoch(&replica));
    write!(page, " len {}", Replica::len(&replica));
    Replica::append(&mut replica, alloc, 1, entries.as_slice())?;
    write!(page, "\n    append: len {}", Replica::len(&replica));
    page.yes("\n    close: ", Replica::close(&mut replica, 2));
    page.yes(", is_closed ", Replica::is_closed(&replica));
    page.put("\n    entries: keys");
    for entry in Replica::entries(&replica) {
        write!(page, " {}", entry.key);
    }
    Ok(())
}

/// The calls of a backup: it stores, is asked for what it has, and is started again with its open replica.
pub fn of_a_backup(alloc: Global, page: &mut Page) -> Result<(), Fault> {
    let mut backup = Backup::new(alloc, OTHER);
    write!(page, "\n    new: of {}", backup.id());
    let stored = Backup::step(&mut backup, &place(alloc)?)?;
    write_kinds("step with a Place", stored.as_slice(), page);
    let told = Backup::step(&mut backup, &gather())?;
    write_kinds("step with a Gather", told.as_slice(), page);
    page.yes("\n    is_fenced 0.1: ", Backup::is_fenced(&backup, OWNER));
    page.put("\n    open_names:");
    for (master, seg) in Backup::open_names(&backup)?.iter() {
        write!(page, " {master} seg {seg}");
    }
    let again = Backup::restart(backup, AGAIN, &[(OWNER, 1)]);
    write!(page, "\n    restart: of {}", again.id());
    page.yes(", is_fenced 0.1 ", Backup::is_fenced(&again, OWNER));
    write!(page, ", {} open", Backup::open_names(&again)?.len());
    Ok(())
}

/// The choice of a log, of which one backup has an open segment with two entries.
pub fn of_a_choice(alloc: Global, page: &mut Page) -> Result<(), Fault> {
    let row = Row {
        seg: 1,
        epoch: 0,
        closed: false,
        len: 2,
        digest: digest(alloc)?,
    };
    let rows = Seq::from_vec(vec![in alloc; row]?);
    let replies = vec![in alloc; (OTHER, rows)]?;
    let least = Pair { seg: 1, epoch: 0 };
    page.put("\n    pick:");
    if let Some(plan) = page.value(pick(alloc, least, replies.as_slice()))? {
        write!(page, " head {}", plan.head);
        for row in plan.rows.as_slice() {
            write!(
                page,
                ", segment {} of {} length {}",
                row.seg, row.holder, row.len
            );
        }
    }
    page.put("\n    pick of nothing:");
    page.value(pick(alloc, least, &[]))?;
    Ok(())
}
