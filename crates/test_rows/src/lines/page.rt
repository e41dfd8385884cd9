//! The page that an answer is written on.

use rc_story::message_json;
use rc_types::{Fault, Message, ServerId};
use std::alloc::{AllocError, Global};
use std::fmt::Display;

/// So many bytes of an answer need no memory while they are written.
const EXPECTED: usize = 131_072;

/// An answer. Once it was refused memory, nothing more is written, and it says so at the end.
#[derive(Drop)]
pub struct Page {
    alloc: Global,
    text: String,
    refused: bool,
}

impl Page {
    /// An empty page.
    ///
    /// # Errors
    ///
    /// Memory was refused.
    pub fn new(alloc: Global) -> Result<Page, AllocError> {
        let text = String::with_capacity(alloc, EXPECTED)?;
        Ok(Page {
            alloc,
            text,
            refused: false,
        })
    }

    /// Takes away what was written.
    pub fn clear(&mut self) {
        self.text.clear();
        self.refused = false;
    }

    /// What was written, if memory was not refused.
    pub(crate) fn text(&self) -> Option<&str> {
        if self.refused {
            return None;
        }
        Some(self.text.as_str())
    }

    /// Writes these words.
    pub fn put(&mut self, words: &str) {
        if !self.refused {
            self.refused = self.text.push_str(words).is_err();
        }
    }

    /// Writes a text: `write!(page, " seg {seg}")` calls it.
    pub fn write_fmt<T: Display + Drop>(&mut self, text: T) {
        if !self.refused {
            self.refused = write!(self.text, "{text}").is_err();
        }
    }

    /// Writes a message as JSON. Where memory is refused for it, that is made once more, since the step that sent the
    /// message has happened.
    pub fn message(&mut self, message: &Message) {
        let first = message_json(self.alloc, message);
        let made = match first {
            Ok(text) => Ok(text),
            Err(_) => message_json(self.alloc, message),
        };
        match made {
            Ok(text) => self.put(text.as_str()),
            Err(_) => self.refused = true,
        }
    }

    /// Writes these words, and `yes` or `no`.
    pub fn yes(&mut self, words: &str, yes: bool) {
        self.put(words);
        self.put(if yes { "yes" } else { "no" });
    }

    /// Writes these words and what follows them, each behind a space.
    pub fn list<T: Display>(&mut self, words: &str, list: &[T]) {
        self.put(words);
        for one in list {
            write!(self, " {one}");
        }
    }

    /// Writes servers, or that there is none.
    pub fn ids(&mut self, ids: &[ServerId]) {
        self.list(if ids.is_empty() { " nobody" } else { "" }, ids);
    }

    /// The value of a call, if it has one. Of a refusal it writes the code.
    ///
    /// # Errors
    ///
    /// That memory was refused.
    pub fn value<T: Drop>(&mut self, answer: Result<T, Fault>) -> Result<Option<T>, Fault> {
        match answer {
            Ok(value) => Ok(Some(value)),
            Err(Fault::OutOfMemory) => Err(Fault::OutOfMemory),
            Err(fault) => {
                write!(self, " {}", fault.code());
                Ok(None)
            }
        }
    }

    /// Writes `ok`, or the code of the refusal.
    ///
    /// # Errors
    ///
    /// That memory was refused.
    pub fn done(&mut self, answer: Result<(), Fault>) -> Result<(), Fault> {
        if self.value(answer)?.is_some() {
            self.put(" ok");
        }
        Ok(())
    }
}

/// The word for a replica that is closed, or still open.
pub fn closed_or_open(closed: bool) -> &'static str {
    if closed { "closed" } else { "open" }
}

/// The word for a server that is up, or has crashed.
pub fn up_or_crashed(up: bool) -> &'static str {
    if up { "up" } else { "crashed" }
}
