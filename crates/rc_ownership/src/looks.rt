//! What is shown of the parts of a recovery to whoever runs a master.

ghost use Rattle.std.specs.Prelude.{◌≡◌, length, drop, slice_get, option_map, sum_by};
ghost use Rattle.rc_types.specs.Counts.{within_64_bits};
ghost use Rattle.rc_ownership.specs.Looks.{progress_of};
ghost use Rattle.rc_ownership.specs.Notes.{replayed_in};

use crate::notes::Notes;
use crate::part::FetchedPart;
use crate::parts::Parts;
use crate::replay::{JoinedRow, Replay};
use rc_types::Part;
use std::collections::VecDeque;

/// How far a part of a crashed master's log has come.
#[derive(Clone, Copy)]
pub struct PartProgress {
    /// The part: its range, the term that it is recovered under, and the term before it.
    pub part: Part,
    /// How many rows it still waits for: each is a segment's entries, from the backup that holds them.
    pub missing: usize,
    /// How many entries have come.
    pub entries: usize,
    /// How many of its own entries are durable in the master's own log: of those that the replay handed out. The part
    /// is complete once no row is missing, and as many are durable as have come.
    pub durable: usize,
    /// Whether its end was told to the coordinator, which then grants its range.
    pub answered: bool,
}

impl FetchedPart {
    /// How far it has come.
    fn progress(&self, notes: &Notes) -> PartProgress
        ensures { result ≡ progress_of (replayed_in notes.now) self.now }
    {
        PartProgress {
            part: self.part,
            missing: self.missing,
            entries: self.count,
            durable: notes.count_replayed(self.part.term),
            answered: self.answered,
        }
    }
}

impl Parts {
    /// How many parts were begun.
    pub(crate) fn count(&self) -> usize
        ensures { result ≡ length self.now.parts }
    {
        self.begun.len()
    }

    /// How far the part of this number has come.
    pub(crate) fn progress(&self, number: usize, notes: &Notes) -> Option<PartProgress>
        ensures { result ≡ option_map (progress_of (replayed_in notes.now))
            (slice_get self.now.parts number) }
    {
        match self.begun.get_index(number) {
            Some((_, part)) => Some(part.progress(notes)),
            None => None,
        }
    }

    /// How many entries wait to be appended.
    pub(crate) fn count_replay(&self) -> usize
        ensures { result ≡ within_64_bits (length self.now.replay) }
    {
        self.replay.count()
    }
}

impl Replay {
    /// How many entries wait. It goes over the rows of which any wait.
    fn count(&self) -> usize
        ensures { result ≡ within_64_bits (length self.now.entries) }
    {
        match self.rows.get(self.row) {
            Some(first) => {
                let others = count_from(&self.rows, self.row + 1);
                (first.len() - self.place).saturating_add(others)
            }
            None => 0,
        }
    }
}

/// How many entries the rows from this one on have.
fn count_from(rows: &VecDeque<JoinedRow>, first: usize) -> usize
    ensures { result ≡ within_64_bits (sum_by length (drop first rows.now.items)) }
{
    let mut count = 0usize;
    for row in first..rows.len() {
        count = count.saturating_add(rows[row].len());
    }
    count
}
