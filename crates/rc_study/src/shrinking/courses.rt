//! What is left of a scenario, and which event sent which message.

use crate::shrinking::saving::Left;
use std::alloc::{AllocError, Global};

/// An event that is left.
#[derive(Clone, Copy)]
pub(crate) struct Item {
    pub(crate) left: Left,
    /// If it is a delivery: which event sent the message.
    pub(crate) origin: Origin,
}

/// Where a message comes from.
#[derive(Clone, Copy)]
pub(crate) struct Origin {
    /// Which of the events that are left sent it.
    pub(crate) item: usize,
    /// How many messages that event sent before it.
    pub(crate) before: usize,
}

/// Of no message.
pub(crate) const NOWHERE: Origin = Origin {
    item: usize::MAX,
    before: 0,
};

/// The messages that an event sent: the first one's number, and how many they are.
#[derive(Clone, Copy)]
struct Span {
    first: usize,
    count: usize,
}

/// How a course becomes a shorter one: what is left, who sent which message, and where those of each event went.
#[derive(Drop)]
pub(crate) struct Move {
    pub(crate) next: Vec<Item>,
    /// Whether the event that was kept last was not possible.
    pub(crate) is_stopped: bool,
    origins: Vec<Origin>,
    spans: Vec<Span>,
}

impl Move {
    /// Nothing has moved yet.
    pub(crate) fn new(alloc: Global) -> Move {
        Move {
            next: Vec::new(alloc),
            is_stopped: false,
            origins: Vec::new(alloc),
            spans: Vec::new(alloc),
        }
    }

    /// The number that a message now has, if it was sent.
    pub(crate) fn message(&self, origin: Origin) -> Option<usize> {
        let span = self.spans.get(origin.item)?;
        let number = span.first.saturating_add(origin.before);
        (origin.before < span.count).then_some(number)
    }

    /// The next event of the course is left out.
    pub(crate) fn leave_out(&mut self) -> Result<(), AllocError> {
        self.spans.push(Span { first: 0, count: 0 })?;
        Ok(())
    }

    /// The next event of the course is left. If it is a delivery, it is of this message.
    pub(crate) fn keep(&mut self, place: usize, message: usize) -> Result<(), AllocError> {
        let origin = self.origins.get(message).copied().unwrap_or(NOWHERE);
        let left = Left { place, message };
        self.next.push(Item { left, origin })?;
        Ok(())
    }

    /// The event that was kept last has happened, and by now so many messages were sent.
    pub(crate) fn sent(&mut self, count: usize) -> Result<(), AllocError> {
        let first = self.origins.len();
        let item = self.next.len().saturating_sub(1);
        let count = count.saturating_sub(first);
        for before in 0..count {
            self.origins.push(Origin { item, before })?;
        }
        self.spans.push(Span { first, count })?;
        Ok(())
    }
}
