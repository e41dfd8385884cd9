//! What the messages of a run weigh, so that it is told before the machine ends a run for it.

use crate::counted::Counted;
use crate::outlets::write_all;
use rc_runs::Onlooker;
use rc_types::{Body, Entry, Message, Part, PlanRow, Row, ServerId};
use std::io::Write;
use std::mem::size_of;

/// From so many bytes of messages on it is told that they take much memory.
const MUCH: u64 = 1_000_000_000;

/// So many messages are weighed at a time.
const FEW: usize = 256;

/// Weighs the messages of a run as they come, and tells `errors` once that they take much memory.
pub(crate) struct Scales<'a, E> {
    errors: &'a mut Counted<E>,
    /// How many were weighed.
    weighed: usize,
    /// Where so many were sent, the next are weighed.
    due: usize,
    /// What the lists of those that were weighed take, in bytes.
    lists: u64,
    /// The version of the server list that was weighed last: all messages that tell it share its rows.
    version: u32,
}

impl<'a, E> Drop for Scales<'a, E> {
    fn drop(self) {
        let Scales {
            errors: _,
            weighed: _,
            due: _,
            lists: _,
            version: _,
        } = self;
    }
}

impl<'a, E: Write> Scales<'a, E> {
    /// Nothing was weighed yet.
    pub(crate) fn new(errors: &'a mut Counted<E>) -> Scales<'a, E> {
        Scales {
            errors,
            weighed: 0,
            due: FEW,
            lists: 0,
            version: 0,
        }
    }
}

impl<'a, E: Write> Onlooker for Scales<'a, E> {
    /// Weighs the messages that have come since.
    fn look(&mut self, sent: &[Message]) -> usize {
        if sent.len() < self.due {
            return self.due;
        }
        for message in sent.get(self.weighed..).unwrap_or(&[]) {
            let lists = lists_of(&message.body, &mut self.version);
            self.lists = self.lists.saturating_add(lists as u64);
        }
        self.weighed = sent.len();
        self.due = sent.len().saturating_add(FEW);
        let messages = sent.len().saturating_mul(size_of::<Message>()) as u64;
        if MUCH <= self.lists.saturating_add(messages) {
            self.due = usize::MAX;
            let _ = write_all(
                self.errors,
                b"hint: the messages of this run take more than 1 GB of memory\n",
            );
        }
        self.due
    }
}

/// How many bytes the lists in a message take. Of what several messages share only a server list is counted, where its
/// version is not the one before.
fn lists_of(body: &Body, version: &mut u32) -> usize {
    match body {
        Body::List {
            version: told,
            rows,
        } if *told != *version => {
            *version = *told;
            rows.len().saturating_mul(size_of::<(ServerId, bool)>())
        }
        Body::Place { entries, .. } | Body::Append { entries, .. } | Body::Data { entries, .. } => {
            entries.len().saturating_mul(size_of::<Entry>())
        }
        Body::Replicas { rows, .. } => rows.len().saturating_mul(size_of::<Row>()),
        Body::Plan { rows, parts, .. } => {
            let rows = rows.len().saturating_mul(size_of::<PlanRow>());
            rows.saturating_add(parts.len().saturating_mul(size_of::<Part>()))
        }
        _ => 0,
    }
}
