//! The calls of a wire, each made once more where memory is refused: then the seat is as it was, and the second
//! answers as if nothing had been refused.

use rc_types::{Addr, Body, Fault, Message, NodeName, Order, Seq, ServerId, Shared};
use rc_wire::{Naming, Seat, Wire, Work};
use rc_world::World;
use std::alloc::{AllocError, Global};
use std::process::Abort;
use std::sync::Wait;
use std::test::Fail;

/// The first server of host 0, which comes to own the table.
pub(crate) const OWNER: ServerId = ServerId {
    index: 0,
    generation: 1,
};

/// What a node is given, of which there can be a second one where the first was dropped.
#[derive(Clone, Copy)]
pub(crate) enum Given {
    /// The message that is held.
    Fetched,
    /// A start that keeps nothing.
    Start,
    /// A table 7 for this server.
    Create(ServerId),
    /// A write of `a` at key 5 of table 7, asked of this server.
    Write(ServerId),
}

/// The work that it is.
fn work_of(alloc: Global, given: Given) -> Result<Work, Fault> {
    Ok(match given {
        Given::Fetched => Work::Fetched,
        Given::Start => Work::Start {
            kept: Seq::new(alloc),
        },
        Given::Create(owner) => Work::Order(Order::Create { table: 7, owner }),
        Given::Write(to) => Work::Ask {
            to,
            body: write(alloc)?,
        },
    })
}

/// What is asked.
pub(crate) fn write(alloc: Global) -> Result<Body, AllocError> {
    let value = Shared::from_vec(alloc, vec![in alloc; b'a']?)?;
    Ok(Body::Write {
        table: 7,
        key: 5,
        value: Some(value),
    })
}

/// Whether it is what was asked of this server.
pub(crate) fn is_write(message: &Message, asked: ServerId) -> bool {
    match (&message.to, &message.body) {
        (
            Addr::Server(to),
            Body::Write {
                table: 7,
                key: 5,
                ..
            },
        ) => *to == asked,
        _ => false,
    }
}

/// The seat takes a step on a work that is made for it.
fn prepare_once<N: Naming>(alloc: Global, seat: &mut Seat<N>, given: Given) -> Result<(), Fault> {
    seat.prepare(work_of(alloc, given)?)
}

/// The seat takes a step, which is then pending.
pub(crate) fn prepare<N: Naming, R: Abort + AllocGlobal + Print>(
    rt: &R,
    seat: &mut Seat<N>,
    given: Given,
) -> Result<(), Fail> {
    if prepare_once(rt.alloc(), seat, given).is_err() {
        println!(rt; "refused")?;
        assert!(rt; !seat.is_pending());
        prepare_once(rt.alloc(), seat, given)?;
    }
    Ok(())
}

/// How many messages the pending step sends.
fn offered<N: Naming>(seat: &Seat<N>) -> Option<usize> {
    seat.pending().map(|messages| messages.len())
}

/// The pending step is committed.
pub(crate) fn commit<N: Naming, R: Abort + Print + Wait>(
    rt: &R,
    wire: &Wire<N>,
    seat: &mut Seat<N>,
) -> Result<usize, Fail> {
    let before = offered(seat);
    assert!(rt; seat.is_pending());
    match wire.commit(rt, seat) {
        Ok(number) => Ok(number),
        Err(fault) => {
            println!(rt; "refused")?;
            assert!(rt; matches!(fault, Fault::OutOfMemory));
            assert!(rt; seat.is_pending());
            assert_eq!(rt; offered(seat), before);
            Ok(wire.commit(rt, seat)?)
        }
    }
}

/// The number of the message that is held.
fn held<N: Naming>(seat: &Seat<N>) -> Option<usize> {
    seat.fetched().map(|(number, _)| number)
}

/// Whether the message that is held is one to the seat's node.
pub(crate) fn is_held_for<N: Naming>(seat: &Seat<N>) -> bool {
    match seat.fetched() {
        Some((_, message)) => NodeName::at(message.to) == seat.name(),
        None => false,
    }
}

/// Whether the seat finds the message of this number.
pub(crate) fn fetch<N: Naming, R: Abort + Print + Wait>(
    rt: &R,
    wire: &Wire<N>,
    seat: &mut Seat<N>,
    number: usize,
) -> Result<bool, Fail> {
    let before = held(seat);
    match wire.fetch(rt, seat, number) {
        Ok(found) => Ok(found),
        Err(_) => {
            println!(rt; "refused")?;
            assert_eq!(rt; held(seat), before);
            Ok(wire.fetch(rt, seat, number)?)
        }
    }
}

/// The world of the wire.
pub(crate) fn close<N: Naming, R: Abort + AllocGlobal + Print>(
    rt: &R,
    wire: Wire<N>,
    seats: Vec<Seat<N>>,
) -> Result<World<Global>, Fail> {
    let all = seats.len();
    match wire.close(rt.alloc(), seats) {
        Ok(world) => Ok(world),
        Err((wire, seats, _)) => {
            println!(rt; "refused")?;
            assert_eq!(rt; seats.len(), all);
            match wire.close(rt.alloc(), seats) {
                Ok(world) => Ok(world),
                Err((_, _, fault)) => Err(fault)?,
            }
        }
    }
}
