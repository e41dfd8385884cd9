//! A replica through Places, Appends and Closes.

use crate::lines::{Desk, Numbers, Page, closed_or_open};
use crate::parts::entries::{entries, write_keys};
use rc_replica::Replica;
use rc_types::{Fault, Shared};
use std::alloc::{AllocError, Global};

/// An empty replica under an epoch, whose segment was opened with these segments as its digest.
pub fn new(alloc: Global, numbers: &mut Numbers) -> Result<Replica, AllocError> {
    let epoch = numbers.short();
    let digest = Shared::from_vec(alloc, numbers.segments(alloc, numbers.left())?)?;
    Ok(Replica::new(epoch, false, digest, Vec::new(alloc)))
}

/// One command for the replica. It writes how the replica is afterwards.
pub fn take(replica: &mut Replica, command: &str, desk: &mut Desk) -> Result<(), Fault> {
    let Desk { numbers, page, .. } = desk;
    match command {
        "append" => append(desk.alloc, replica, numbers)?,
        "place" => place(desk.alloc, replica, numbers)?,
        "close" => {
            page.yes(" ", replica.close(numbers.size()));
            page.put(",");
        }
        "look" => look(replica, page),
        _ => page.put(" no such command"),
    }
    let closed = closed_or_open(replica.is_closed());
    write!(page, " epoch {} {closed}", replica.epoch());
    write_keys(page, replica.entries());
    Ok(())
}

fn append(alloc: Global, replica: &mut Replica, numbers: &mut Numbers) -> Result<(), AllocError> {
    let offset = numbers.size();
    let added = entries(alloc, numbers)?;
    replica.append(alloc, offset, added.as_slice())
}

fn place(alloc: Global, replica: &mut Replica, numbers: &mut Numbers) -> Result<(), AllocError> {
    let epoch = numbers.short();
    let closed = numbers.mark();
    let whole = entries(alloc, numbers)?;
    replica.place(alloc, epoch, whole.as_slice(), closed)
}

/// How many entries it has, whether it is empty, and its digest.
fn look(replica: &Replica, page: &mut Page) {
    write!(page, " length {}", replica.len());
    page.yes(" empty ", replica.is_empty());
    page.list(" digest", replica.digest());
    page.put(",");
}
