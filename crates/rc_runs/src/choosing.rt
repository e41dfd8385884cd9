//! Which event three words choose.

ghost use Rattle.std.specs.Prelude.{◌≡◌, ◌<◌, ◌+◌, ◌%◌, IfOk};
ghost use Rattle.rc_world.specs.Happened.{replayed};
ghost use Rattle.rc_runs.specs.Draw.{choice_of, delivery_of, write_of, start_of, decision_of, event_of, chosen};
ghost use Rattle.rc_runs.specs.Draw.{newest_server};

use crate::words::Words;
use rc_types::{Addr, Body, Event, Order, Seq, ServerId, Shared};
use rc_world::World;
use std::alloc::{AllocError, Global};

/// How many hosts are started: those of the indexes below.
pub(crate) const HOSTS: u8 = 5;

/// Of how many keys one is written.
const KEYS: u32 = 4;

/// Which kind of event it is.
#[derive(Clone, Copy)]
pub(crate) enum Choice {
    Deliver,
    Write,
    Tick,
    TickCoordinator,
    Stop,
    Start,
    Suspect,
    Decide,
}

impl Choice {
    /// What a word chooses, of a hundred chances.
    fn of(word: u32) -> Choice
        ensures { result ≡ choice_of (word % 100) }
    {
        match word % 100 {
            0..=69 => Choice::Deliver,
            70..=79 => Choice::Write,
            80..=89 => Choice::Tick,
            90..=92 => Choice::TickCoordinator,
            93 => Choice::Stop,
            94..=95 => Choice::Start,
            96 => Choice::Suspect,
            _ => Choice::Decide,
        }
    }
}

/// The event that the words choose in this world, as a step of this number, if there is one.
pub(crate) fn event_of(
    alloc: Global,
    world: &World<Global>,
    number: usize,
    words: Words,
) -> Result<Option<Event>, AllocError>
    ensures { IfOk result (λ event. event ≡ event_of (replayed world.now) number words) }
{
    let host = (words.target % HOSTS as u32) as u8;
    let generation = world.newest(host);
    let id = ServerId {
        index: host,
        generation,
    };
    chosen(alloc, world, number, id, Choice::of(words.kind), words)
}

/// The event of this kind that the words choose.
fn chosen(
    alloc: Global,
    world: &World<Global>,
    number: usize,
    id: ServerId,
    choice: Choice,
    words: Words,
) -> Result<Option<Event>, AllocError>
    ensures { IfOk result (λ event. event ≡ chosen (replayed world.now) number id choice words) }
{
    Ok(match choice {
        Choice::Deliver => delivery_of(world.sent().len(), words.target),
        Choice::Write => Some(write_of(alloc, id, words.detail, number)?),
        Choice::Tick => Some(Event::Tick(Addr::Server(id))),
        Choice::TickCoordinator => Some(Event::Tick(Addr::Coordinator)),
        Choice::Stop => Some(Event::Stop(id)),
        Choice::Start => Some(start_of(alloc, world, id.index, words.detail)?),
        Choice::Suspect => Some(Event::Order(Order::Suspect(id))),
        Choice::Decide => decision_of(id, words.detail),
    })
}

/// A delivery of one of so many messages.
fn delivery_of(sent: usize, word: u32) -> Option<Event>
    ensures { result ≡ delivery_of sent word }
{
    if sent == 0 {
        return None;
    }
    let number = word as usize % sent;
    Some(Event::Deliver(number))
}

/// A write of one of the keys; its value is the step's number, in decimal digits.
fn write_of(alloc: Global, to: ServerId, word: u32, number: usize) -> Result<Event, AllocError>
    ensures { IfOk result (λ event. event ≡ write_of to word number) }
{
    let text = format!(in alloc; "{number}")?;
    let body = Body::Write {
        table: 1,
        key: u64::from(word % KEYS),
        value: Some(Shared::from_vec(alloc, text.into_bytes())?),
    };
    Ok(Event::Ask { to, body })
}

/// A start of the host, with all of its open replicas or with none.
fn start_of(alloc: Global, world: &World<Global>, host: u8, word: u32) -> Result<Event, AllocError>
    ensures { IfOk result (λ event. event ≡ start_of ((replayed world.now).hosts host) host word) }
{
    let kept = if word % 4 == 0 {
        Vec::new(alloc)
    } else {
        world.open_replicas(host)?
    };
    Ok(Event::Start {
        host,
        kept: Seq::from_vec(kept),
    })
}

/// A decision on one of the host's servers, up to its newest one.
fn decision_of(newest: ServerId, word: u32) -> Option<Event>
    ensures { result ≡ decision_of newest word }
{
    if newest.generation == 0 {
        return None;
    }
    Some(Event::Order(Order::Decide(ServerId {
        index: newest.index,
        generation: 1 + word % newest.generation,
    })))
}
