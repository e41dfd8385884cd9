//! A row with the backup that told it, and which of two such rows comes first.

ghost use Rattle.std.specs.Prelude.{◌≡◌};
ghost use Rattle.rc_model.specs.Pick.{is_valid, is_open_valid, longer_first, head_first, closed_first, plan_row};

use rc_types::{Pair, PlanRow, Row, ServerId};

/// A row where it lies in the replies, with the backup that told it.
#[derive(Clone, Copy)]
pub struct Held<'a> {
    /// The backup.
    pub holder: ServerId,
    /// What it told.
    pub row: &'a Row,
}

impl Held<'_> {
    ghost use Rattle.rc_digestpick.specs.Held.{held_row};

    /// Whether the row counts: a closed one always does, an open one if it is not below `min`.
    pub fn is_valid(self, min: Pair) -> bool
        ensures { result ≡ is_valid min (held_row self.entry).row }
    {
        let row = self.row;
        let pair = Pair {
            seg: row.seg,
            epoch: row.epoch,
        };
        row.closed || pair >= min
    }

    /// Whether the row is open and counts, as the head's row must.
    pub fn is_open_valid(self, min: Pair) -> bool
        ensures { result ≡ is_open_valid min (held_row self.entry) }
    {
        !self.row.closed && self.is_valid(min)
    }

    /// Whether this row comes first by greater epoch, then greater length, then least holder.
    pub fn is_longer(self, other: Held) -> bool
        ensures { result ≡ longer_first (held_row self.entry) (held_row other.entry) }
    {
        let (row, beside) = (self.row, other.row);
        if row.epoch != beside.epoch {
            return row.epoch > beside.epoch;
        }
        if row.len != beside.len {
            return row.len > beside.len;
        }
        self.holder < other.holder
    }

    /// Whether this row comes first as a head: by greater segment, and then as `is_longer` says.
    pub fn is_higher(self, other: Held) -> bool
        ensures { result ≡ head_first (held_row self.entry) (held_row other.entry) }
    {
        if self.row.seg != other.row.seg {
            return self.row.seg > other.row.seg;
        }
        self.is_longer(other)
    }

    /// Whether this row comes first in its segment: closed before open, and then as `is_longer` says.
    pub fn is_better(self, other: Held) -> bool
        ensures { result ≡ closed_first (held_row self.entry) (held_row other.entry) }
    {
        if self.row.closed != other.row.closed {
            return self.row.closed;
        }
        self.is_longer(other)
    }

    /// The row of a plan that takes this replica whole.
    pub fn plan_row(self) -> PlanRow
        ensures { result ≡ plan_row (held_row self.entry) }
    {
        PlanRow {
            seg: self.row.seg,
            holder: self.holder,
            len: self.row.len,
        }
    }
}
