//! The messages that wait to be delivered.

use std::alloc::{AllocError, Global};

/// Of how many of the first messages one is taken.
const NEAR: usize = 4;

/// The numbers of the messages that wait, in about the order in which they were sent, and those that are held back.
#[derive(Drop)]
pub(crate) struct Mail {
    waiting: Vec<usize>,
    first: usize,
    held: Vec<usize>,
}

impl Mail {
    /// With nothing in it.
    pub(crate) fn new(alloc: Global) -> Mail {
        Mail {
            waiting: Vec::new(alloc),
            first: 0,
            held: Vec::new(alloc),
        }
    }

    /// How many wait.
    pub(crate) fn len(&self) -> usize {
        self.waiting.len().saturating_sub(self.first)
    }

    /// This one waits too.
    pub(crate) fn add(&mut self, number: usize) -> Result<(), AllocError> {
        self.waiting.push(number)?;
        Ok(())
    }

    /// One of the first that wait. It waits no longer.
    pub(crate) fn take(&mut self, word: u32) -> Option<usize> {
        let near = self.len().min(NEAR);
        if near == 0 {
            return None;
        }
        let at = self.first.saturating_add(word as usize % near);
        if at < self.waiting.len() && self.first < self.waiting.len() {
            self.waiting.swap(self.first, at);
        }
        let number = *self.waiting.get(self.first)?;
        self.first = self.first.saturating_add(1);
        Some(number)
    }

    /// This one is held back.
    pub(crate) fn hold(&mut self, number: usize) -> Result<(), AllocError> {
        self.held.push(number)?;
        Ok(())
    }

    /// One that was held back. It is so no longer.
    pub(crate) fn release(&mut self, word: u32) -> Option<usize> {
        if self.held.is_empty() {
            return None;
        }
        let at = word as usize % self.held.len();
        Some(self.held.swap_remove(at))
    }
}
