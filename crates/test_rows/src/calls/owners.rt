//! `rc_ownership`.

use crate::calls::values::{KEY, OTHER, RANGE, TABLE, entries, entry};
use crate::lines::Page;
use rc_ownership::Ownership;
use rc_types::{Fault, KeyRange, Part};
use std::alloc::Global;

/// The calls of what a master owns: a range is granted, and a write of it is noted and read.
pub fn of_an_owner(alloc: Global, page: &mut Page) -> Result<(), Fault> {
    let mut owner = Ownership::new(alloc);
    write!(page, "\n    new: {} noted", owner.count_noted());
    Ownership::grant(&mut owner, RANGE, 1)?;
    page.list(
        "\n    grant, term_of:",
        Ownership::term_of(&owner, TABLE, KEY).as_slice(),
    );
    Ownership::note(&mut owner, alloc, &entry(alloc)?)?;
    for (place, version) in Ownership::highs(&owner, 1, TABLE, KEY) {
        write!(page, "\n    note, highs: version {version} at {place}");
    }
    write_read("read before it is durable", alloc, &owner, page)?;
    make_durable(&mut owner, 1);
    write_read("set_durable, read", alloc, &owner, page)?;
    if owner.has_next_version(1, TABLE, KEY) {
        let next = Ownership::next_version(&owner, 1, TABLE, KEY);
        write!(page, "\n    next_version: {next}");
    }
    recover(alloc, &mut owner, page)?;
    outdate(alloc, &mut owner, page)
}

/// The first entries are durable.
fn make_durable(owner: &mut Ownership, count: usize) {
    if count <= owner.count_noted() {
        Ownership::set_durable(owner, count);
    }
}

/// A part is recovered, with the one entry that it has.
fn recover(alloc: Global, owner: &mut Ownership, page: &mut Page) -> Result<(), Fault> {
    let part = Part {
        range: KeyRange { table: 8, ..RANGE },
        previous: 1,
        term: 2,
    };
    let begun = Ownership::begin_part(owner, alloc, part, &[(1, OTHER)])?;
    page.yes("\n    begin_part: ", begun);
    let given = entries(alloc)?;
    let put = Ownership::put_data(owner, alloc, 2, 1, OTHER, given.as_slice())?;
    page.yes("\n    put_data: ", put);
    page.yes("\n    has_replay: ", Ownership::has_replay(owner));
    page.list("\n    complete:", Ownership::complete(owner).as_slice());
    if let Some(entry) = Ownership::next_replay(owner, alloc)? {
        write!(
            page,
            "\n    next_replay: term {}, version {}",
            entry.term, entry.version
        );
        Ownership::note(owner, alloc, &entry)?;
    }
    make_durable(owner, 2);
    page.list("\n    complete:", Ownership::complete(owner).as_slice());
    Ok(())
}

/// The entry of version 1 is dead once one of version 2 is durable.
fn outdate(alloc: Global, owner: &mut Ownership, page: &mut Page) -> Result<(), Fault> {
    let old = entries(alloc)?;
    page.yes("\n    is_dead: ", Ownership::is_dead(owner, old.as_slice()));
    let mut newer = entry(alloc)?;
    newer.version = 2;
    Ownership::note(owner, alloc, &newer)?;
    page.yes(
        "\n    note, is_dead: ",
        Ownership::is_dead(owner, old.as_slice()),
    );
    make_durable(owner, 3);
    page.yes(
        "\n    set_durable, is_dead: ",
        Ownership::is_dead(owner, old.as_slice()),
    );
    Ok(())
}

/// What is read of the key.
fn write_read(call: &str, alloc: Global, owner: &Ownership, page: &mut Page) -> Result<(), Fault> {
    let (version, value) = Ownership::read(owner, alloc, 1, TABLE, KEY)?;
    write!(page, "\n    {call}: version {version}");
    if let Some(bytes) = value {
        page.list(" value", bytes.as_slice());
    }
    Ok(())
}
