//! Events, and what the coordinator is told: the kind in one byte, and its fields.

ghost use Rattle.std.specs.Prelude.{◌∷◌, ◌≤◌};
ghost use Rattle.rc_codec.specs.Reading.{Gives};
ghost use Rattle.rc_codec.specs.Events.{ask_at, start_at, create_at, split_at, order_at, event_at};

use crate::coded::{Put, Take, put_kind};
use crate::faults::DecodeFault;
use rc_types::{Addr, Body, Event, Order, Seq, ServerId};
use std::alloc::{AllocError, Global};

impl Put for Event {
    ghost use Rattle.rc_codec.specs.Events.{event_code};

    ghost code = { event_code };

    fn put(&self, out: &mut Vec<u8>) -> Result<(), AllocError> {
        match *self {
            Event::Ask { to, ref body } => put_kind(0, (to, body), out),
            Event::Deliver(number) => put_kind(1, number, out),
            Event::Tick(addr) => put_kind(2, addr, out),
            Event::Stop(id) => put_kind(3, id, out),
            Event::Start { host, ref kept } => put_kind(4, (host, kept), out),
            Event::Order(order) => order.put(out),
        }
    }
}

impl Take for Event {
    ghost read = { event_at };

    #[tactic(auto, unfolding(crate::specs::Events::event_at))]
    fn take(alloc: Global, bytes: &[u8]) -> Result<(Event, &[u8]), DecodeFault> {
        match bytes {
            [kind, rest @ ..] => take_kind(alloc, *kind, rest),
            [] => Err(DecodeFault::Malformed),
        }
    }
}

/// What stands behind a kind.
#[tactic(auto, unfolding(crate::specs::Events::event_at))]
fn take_kind(alloc: Global, kind: u8, bytes: &[u8]) -> Result<(Event, &[u8]), DecodeFault>
    ensures { Gives (λ x. (x.0, x.1.now)) result (event_at (kind ∷ bytes.now)) }
{
    match kind {
        0 => take_ask(alloc, bytes),
        1 => match usize::take(alloc, bytes) {
            Ok((number, rest)) => Ok((Event::Deliver(number), rest)),
            Err(fault) => Err(fault),
        },
        2 => match Addr::take(alloc, bytes) {
            Ok((addr, rest)) => Ok((Event::Tick(addr), rest)),
            Err(fault) => Err(fault),
        },
        3 => match ServerId::take(alloc, bytes) {
            Ok((id, rest)) => Ok((Event::Stop(id), rest)),
            Err(fault) => Err(fault),
        },
        4 => take_start(alloc, bytes),
        _ => take_told(alloc, kind, bytes),
    }
}

/// An order, which has a kind of 5 or more.
#[tactic(auto, using(crate::proofs::Choices::event_ordered, crate::proofs::Choices::event_fails))]
fn take_told(alloc: Global, kind: u8, bytes: &[u8]) -> Result<(Event, &[u8]), DecodeFault>
    requires { 5 ≤ kind }
    ensures { Gives (λ x. (x.0, x.1.now)) result (event_at (kind ∷ bytes.now)) }
{
    let (order, rest) = take_order(alloc, kind, bytes)?;
    Ok((Event::Order(order), rest))
}

fn take_ask(alloc: Global, bytes: &[u8]) -> Result<(Event, &[u8]), DecodeFault>
    ensures { Gives (λ x. (x.0, x.1.now)) result (ask_at bytes.now) }
{
    let ((to, body), rest) = <(ServerId, Body)>::take(alloc, bytes)?;
    Ok((Event::Ask { to, body }, rest))
}

fn take_start(alloc: Global, bytes: &[u8]) -> Result<(Event, &[u8]), DecodeFault>
    ensures { Gives (λ x. (x.0, x.1.now)) result (start_at bytes.now) }
{
    let ((host, kept), rest) = <(u8, Seq<(ServerId, u16)>)>::take(alloc, bytes)?;
    Ok((Event::Start { host, kept }, rest))
}

impl Put for Order {
    ghost use Rattle.rc_codec.specs.Events.{order_code};

    ghost code = { order_code };

    fn put(&self, out: &mut Vec<u8>) -> Result<(), AllocError> {
        match *self {
            Order::Suspect(id) => put_kind(5, id, out),
            Order::Decide(id) => put_kind(6, id, out),
            Order::Create { table, owner } => put_kind(7, (table, owner), out),
            Order::Split { table, at } => put_kind(8, (table, at), out),
        }
    }
}

/// What the coordinator is told by the bytes behind this kind.
///
/// # Errors
///
/// `Malformed` where the kind is no order's, or its fields do not stand there. No order takes memory.
#[tactic(auto, using(crate::proofs::Choices::past_orders))]
pub fn take_order(alloc: Global, kind: u8, bytes: &[u8]) -> Result<(Order, &[u8]), DecodeFault>
    requires { 5 ≤ kind }
    ensures { Gives (λ x. (x.0, x.1.now)) result (order_at kind bytes.now) }
{
    match kind {
        5 => match ServerId::take(alloc, bytes) {
            Ok((id, rest)) => Ok((Order::Suspect(id), rest)),
            Err(fault) => Err(fault),
        },
        6 => match ServerId::take(alloc, bytes) {
            Ok((id, rest)) => Ok((Order::Decide(id), rest)),
            Err(fault) => Err(fault),
        },
        7 => take_create(alloc, bytes),
        8 => take_split(alloc, bytes),
        _ => Err(DecodeFault::Malformed),
    }
}

fn take_create(alloc: Global, bytes: &[u8]) -> Result<(Order, &[u8]), DecodeFault>
    ensures { Gives (λ x. (x.0, x.1.now)) result (create_at bytes.now) }
{
    let ((table, owner), rest) = <(u32, ServerId)>::take(alloc, bytes)?;
    Ok((Order::Create { table, owner }, rest))
}

fn take_split(alloc: Global, bytes: &[u8]) -> Result<(Order, &[u8]), DecodeFault>
    ensures { Gives (λ x. (x.0, x.1.now)) result (split_at bytes.now) }
{
    let ((table, at), rest) = <(u32, u64)>::take(alloc, bytes)?;
    Ok((Order::Split { table, at }, rest))
}
