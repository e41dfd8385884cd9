//! Whether tablets are served: a trial in a world apart.

ghost use Rattle.rc_world.specs.HostView.{IsWithinLimits};

use crate::checking::is_shown;
use crate::course::Course;
use crate::deeds::Served;
use crate::views::settle;
use rc_types::{Addr, Body, Event, Fault, Message, Setup, Shared, Tablet, TryClone};
use std::alloc::{AllocError, Global};

/// How often tablets are written of which none acknowledges it: a master that rolls its head refuses each write.
const MOST_WRITES: usize = 3;

/// A trial: what was done in it, and what it has shown.
#[derive(Drop)]
pub(crate) struct Trial {
    /// Its events, after those of the world.
    pub(crate) events: Vec<Event>,
    /// The tablets that are served.
    pub(crate) served: Vec<Served>,
}

impl Trial {
    /// One in which nothing was done.
    pub(crate) fn none(alloc: Global) -> Trial {
        Trial {
            events: Vec::new(alloc),
            served: Vec::new(alloc),
        }
    }
}

/// After these events, the first keys of these tablets are written and read.
pub(crate) fn try_tablets(
    alloc: Global,
    setup: &Setup,
    events: &[Event],
    tablets: &[Tablet],
) -> Result<Trial, Fault>
    requires { IsWithinLimits setup.now }
{
    let mut course = Course::of(alloc, setup, events)?;
    let from = course.world.sent().len();
    let value = format!(in alloc; "{from}")?.into_bytes();
    let mut shown: Vec<Served> = Vec::new(alloc);
    let mut idle = 0;
    for _ in 0..usize::MAX {
        let open = open_tablets(alloc, tablets, shown.as_slice())?;
        if open.is_empty() || idle >= MOST_WRITES {
            break;
        }
        ask_all(alloc, &mut course, open.as_slice(), value.as_slice())?;
        let now = served_since(alloc, &course, from, tablets, value.as_slice())?;
        idle = if now.len() > shown.len() { 0 } else { idle + 1 };
        shown = now;
    }
    let events = copies(alloc, course.world.events(), events.len())?;
    Ok(Trial {
        events,
        served: shown,
    })
}

/// The first keys of these tablets are written with this value, all settles, and then they are read.
fn ask_all(
    alloc: Global,
    course: &mut Course,
    tablets: &[Tablet],
    value: &[u8],
) -> Result<(), Fault> {
    for tablet in tablets {
        write(alloc, course, tablet, value)?;
    }
    settle(alloc, course)?;
    for tablet in tablets {
        read(alloc, course, tablet)?;
    }
    course.deliver(alloc)
}

/// Those of these tablets that the messages from this one on show to be served with this value.
fn served_since(
    alloc: Global,
    course: &Course,
    from: usize,
    tablets: &[Tablet],
    value: &[u8],
) -> Result<Vec<Served>, Fault> {
    match course.world.sent().get(from..) {
        Some(later) => Ok(served(alloc, later, tablets, value)?),
        None => Err(Fault::BadEvent),
    }
}

/// Those of these tablets that have not crashed and are none of those that are served.
fn open_tablets(
    alloc: Global,
    tablets: &[Tablet],
    served: &[Served],
) -> Result<Vec<Tablet>, AllocError> {
    tablets
        .iter()
        .copied()
        .filter(|tablet| !tablet.crashed && !is_among(served, tablet))
        .collect(alloc)
}

/// Whether the tablet is one of those that are served.
pub(crate) fn is_among(served: &[Served], tablet: &Tablet) -> bool {
    served.iter().any(|one| one.tablet.range.table == tablet.range.table
        && one.tablet.range.lo == tablet.range.lo)
}

/// Copies of these events, without so many of the first.
pub(crate) fn copies(alloc: Global, events: &[Event], first: usize) -> Result<Vec<Event>, Fault> {
    let mut copies = Vec::new(alloc);
    for event in events.iter().skip(first) {
        copies.push(event.try_clone(alloc)?)?;
    }
    Ok(copies)
}

/// The owner of a tablet is asked to write its first key.
fn write(alloc: Global, course: &mut Course, tablet: &Tablet, value: &[u8]) -> Result<(), Fault> {
    let body = Body::Write {
        table: tablet.range.table,
        key: tablet.range.lo,
        value: Some(Shared::from_vec(alloc, value.to_vec(alloc)?)?),
    };
    let to = tablet.owner;
    course.take(alloc, &Event::Ask { to, body })
}

/// The owner of a tablet is asked to read its first key.
fn read(alloc: Global, course: &mut Course, tablet: &Tablet) -> Result<(), Fault> {
    let body = Body::Read {
        table: tablet.range.table,
        key: tablet.range.lo,
    };
    let to = tablet.owner;
    course.take(alloc, &Event::Ask { to, body })
}

/// Those of these tablets whose owner has acknowledged a write of the first key in these messages, and shown it with
/// this value.
fn served(
    alloc: Global,
    messages: &[Message],
    tablets: &[Tablet],
    value: &[u8],
) -> Result<Vec<Served>, AllocError> {
    let mut list = Vec::new(alloc);
    for tablet in tablets {
        let shown = messages
            .iter()
            .find_map(|message| shown_in(message, tablet, value));
        if let Some(version) = shown {
            let served = Served {
                tablet: *tablet,
                version,
            };
            if is_shown(messages, &served) {
                list.push(served)?;
            }
        }
    }
    Ok(list)
}

/// The version that this message shows of the tablet's first key with this value, if it comes from its owner.
fn shown_in(message: &Message, tablet: &Tablet, wanted: &[u8]) -> Option<u64> {
    match &message.body {
        Body::ReadOk {
            table,
            key,
            version,
            value: Some(value),
        } if message.from == Addr::Server(tablet.owner)
            && *table == tablet.range.table
            && *key == tablet.range.lo
            && value.as_slice() == wanted => { Some(*version) }
        _ => None,
    }
}
