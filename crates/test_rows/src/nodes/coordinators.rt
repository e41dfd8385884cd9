//! The coordinator through messages, ticks, and what it is told to do.

use crate::lines::Desk;
use crate::nodes::cases::unknown;
use crate::nodes::{bodies, told};
use rc_coordinator::Coordinator;
use rc_types::{Addr, Fault, Message, NodeWork, Order};
use std::alloc::{AllocError, Global};

/// A coordinator whose tablets lie in ordinary memory.
pub type Book = Coordinator<Global>;

/// One command for the coordinator.
pub fn take(book: &mut Book, command: &str, desk: &mut Desk) -> Result<(), Fault> {
    match command {
        "look" => {
            write!(desk.page, "\n    {book:?}");
            Ok(())
        }
        "splits" => split_upwards(book, desk),
        _ => tell(book, command, desk),
    }
}

/// The coordinator is given something.
fn tell(book: &mut Book, command: &str, desk: &mut Desk) -> Result<(), Fault> {
    match work_of(command, desk)? {
        Some(work) if desk.numbers.are_taken() && book.has_room() => {
            let mut sent = Vec::new(desk.alloc);
            book.step_into(&work, &mut sent)?;
            bodies::write_all(sent.as_slice(), &mut desk.page);
        }
        _ => unknown(&mut desk.page),
    }
    Ok(())
}

/// What a command gives the coordinator.
fn work_of(command: &str, desk: &mut Desk) -> Result<Option<NodeWork>, AllocError> {
    if command == "tick" {
        return Ok(Some(NodeWork::Tick));
    }
    match told::order(command, &mut desk.numbers) {
        Some(order) => Ok(Some(NodeWork::Order(order))),
        None => message_of(command, desk),
    }
}

/// What a server tells the coordinator.
fn message_of(command: &str, desk: &mut Desk) -> Result<Option<NodeWork>, AllocError> {
    let to = Addr::Coordinator;
    let told = told::to_coordinator(command, desk)?;
    Ok(told.map(|(from, body)| NodeWork::Deliver(Message { from, to, body })))
}

/// Splits a table at each of these keys, and tells how many messages were sent, and the last of them. Keys at which a
/// tablet begins already are passed over.
fn split_upwards(book: &mut Book, desk: &mut Desk) -> Result<(), Fault> {
    let table = desk.numbers.long();
    let first = desk.numbers.next();
    let last = desk.numbers.next();
    let mut sent: Vec<Message> = Vec::new(desk.alloc);
    for at in first..=last.min(u64::from(u16::MAX)) {
        if book.has_room() {
            book.step_into(&NodeWork::Order(Order::Split { table, at }), &mut sent)?;
        }
    }
    let count = sent.len();
    write!(desk.page, "\n    {count} messages, of which the last is");
    let last = sent.as_slice().get(count.saturating_sub(1)..);
    bodies::write_all(last.unwrap_or(&[]), &mut desk.page);
    Ok(())
}
