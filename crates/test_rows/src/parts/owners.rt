//! What a master owns: versions of key 5 of table 7, reads of them, and the way back.

use crate::lines::{Desk, Page};
use crate::parts::entries::entry;
use rc_ownership::Ownership;
use rc_types::Fault;

/// The table of all entries.
const TABLE: u32 = 7;

/// The key of all entries.
const KEY: u64 = 5;

/// One command for the owner.
pub fn take(owner: &mut Ownership, command: &str, desk: &mut Desk) -> Result<(), Fault> {
    let Desk { numbers, page, .. } = desk;
    match command {
        "note" => note(owner, desk)?,
        "durable" => durable(owner, numbers.size(), page),
        "highs" => highs(owner, numbers.long(), page),
        "next" => next(owner, numbers.long(), page),
        "read" => read(owner, desk)?,
        "begin" => {
            owner.begin();
            page.put(" ok");
        }
        "restore" => {
            owner.restore();
            write!(page, " {} noted", owner.count_noted());
        }
        _ => page.put(" no such command"),
    }
    Ok(())
}

/// Notes an entry under a term.
fn note(owner: &mut Ownership, desk: &mut Desk) -> Result<(), Fault> {
    let Desk { numbers, page, .. } = desk;
    let term = numbers.long();
    let version = numbers.next();
    let entry = entry(desk.alloc, term, KEY, version, numbers.byte())?;
    owner.note(desk.alloc, &entry)?;
    write!(page, " {} noted", owner.count_noted());
    Ok(())
}

/// The first entries are durable.
fn durable(owner: &mut Ownership, count: usize, page: &mut Page) {
    if count > owner.count_noted() {
        return page.put(" not asked: so many are not noted");
    }
    owner.set_durable(count);
    page.put(" ok");
}

/// The record highs: of each the place and the version.
fn highs(owner: &Ownership, term: u32, page: &mut Page) {
    let highs = owner.highs(term, TABLE, KEY);
    if highs.is_empty() {
        return page.put(" none");
    }
    for (place, version) in highs {
        write!(page, " {version} at {place}");
    }
}

/// The version that the next write gets.
fn next(owner: &Ownership, term: u32, page: &mut Page) {
    if !owner.has_next_version(term, TABLE, KEY) {
        return page.put(" none");
    }
    write!(page, " {}", owner.next_version(term, TABLE, KEY));
}

/// The greatest durable version, and its value.
fn read(owner: &Ownership, desk: &mut Desk) -> Result<(), Fault> {
    let Desk { numbers, page, .. } = desk;
    let (version, value) = owner.read(desk.alloc, numbers.long(), TABLE, KEY)?;
    write!(page, " version {version}");
    match value {
        Some(bytes) => page.list(" value", bytes.as_slice()),
        None => page.put(" value none"),
    }
    Ok(())
}
