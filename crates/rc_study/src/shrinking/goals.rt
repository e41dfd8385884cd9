//! The line that is kept, and how soon a run tells whether its report has it.

use rc_audit::audit;
use rc_traces::{add_stopped, report_of};
use rc_types::{Body, Code, Fault, Message};
use std::alloc::Global;
use std::slice;

/// What the line is to begin with.
#[derive(Clone, Copy)]
pub(crate) struct Goal<'a> {
    text: &'a str,
    /// So many writes at least are acknowledged where a line begins so.
    acknowledged: usize,
}

impl<'a> Goal<'a> {
    /// A line that begins with this text.
    pub(crate) fn of(text: &'a str) -> Goal<'a> {
        let count = text.strip_prefix("acknowledged ").unwrap_or("");
        Goal {
            text,
            acknowledged: count.parse::<usize>().unwrap_or(0),
        }
    }

    /// Whether so many events can lead to such a line, writes and deliveries counted alone. A write is acknowledged at
    /// most once for each time that its message is delivered, and a pass over the messages delivers each once.
    pub(crate) fn is_in_reach(self, writes_and_deliveries: usize) -> bool {
        self.acknowledged <= writes_and_deliveries
    }

    /// Whether one of these messages has such a line.
    pub(crate) fn is_told(self, alloc: Global, messages: &[Message]) -> Result<bool, Fault> {
        for message in messages {
            if self.may_be_told(&message.body) {
                let text = report_of(alloc, slice::from_ref(message), None)?;
                let line = text.as_str().lines().next();
                if line.is_some_and(|line| line.starts_with(self.text)) {
                    return Ok(true);
                }
            }
        }
        Ok(false)
    }

    /// Whether the report of these messages, of a run that perhaps stopped at this event, has such a line. None of the
    /// messages themselves has one.
    pub(crate) fn is_reported(
        self,
        alloc: Global,
        sent: &[Message],
        stopped: Option<usize>,
    ) -> Result<bool, Fault> {
        let of_messages = ["ack ", "own ", "plan ", "read ", "split "];
        if of_messages.iter().any(|word| self.text.starts_with(*word)) {
            return Ok(false);
        }
        let found = if self.may_begin("audit ") {
            audit(alloc, sent)?
        } else {
            None
        };
        let mut text = report_of(alloc, sent, found)?;
        if let Some(place) = stopped {
            add_stopped(alloc, &mut text, Code::BadEvent, place)?;
        }
        let mut lines = text.as_str().lines();
        Ok(lines.any(|line| line.starts_with(self.text)))
    }

    /// Whether the line of a message with this body can begin so.
    fn may_be_told(self, body: &Body) -> bool {
        match body {
            Body::WriteOk { .. } => self.may_begin("ack "),
            Body::Own { .. } => self.may_begin("own "),
            Body::Plan { .. } => self.may_begin("plan "),
            Body::ReadOk { .. } => self.may_begin("read "),
            Body::Refused { .. } => self.may_begin("refused "),
            Body::SplitOk { .. } => self.may_begin("split "),
            _ => false,
        }
    }

    /// Whether a line that begins with this word can begin so.
    fn may_begin(self, word: &str) -> bool {
        word.starts_with(self.text) || self.text.starts_with(word)
    }
}
