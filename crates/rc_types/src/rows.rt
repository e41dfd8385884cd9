//! Rows of answers and plans, ranges of keys, parts of a recovery, and tablets.

ghost use Rattle.std.specs.Prelude.{◌≡◌};
ghost use Rattle.rc_types.specs.Ranges.{all_keys, in_range};

use crate::ids::ServerId;
use crate::limits::LAST_KEY;
use crate::sequence::{Seq, TryClone};
use crate::shared::Shared;
use std::alloc::{AllocError, Global};

/// What a backup tells of one replica of a master that it was asked about.
#[derive(Drop)]
pub struct Row {
    /// The segment.
    pub seg: u16,
    /// The replica's epoch.
    pub epoch: u16,
    /// Whether the replica is closed.
    pub closed: bool,
    /// How many entries it has.
    pub len: usize,
    /// The digest that it was opened with: the segments that make up the log.
    pub digest: Shared<u16>,
}

impl TryClone for Row {
    fn try_clone(&self, alloc: Global) -> Result<Row, AllocError> {
        let digest = self.digest.try_clone(alloc)?;
        Ok(Row {
            seg: self.seg,
            epoch: self.epoch,
            closed: self.closed,
            len: self.len,
            digest,
        })
    }
}

/// One row of a recovery plan: of this segment, the first `len` entries of this backup's replica.
#[derive(Clone, Copy, PartialEq, Eq)]
pub struct PlanRow {
    /// The segment.
    pub seg: u16,
    /// The backup whose replica is taken.
    pub holder: ServerId,
    /// How many of its entries are taken, from the first on.
    pub len: usize,
}

impl TryClone for PlanRow {
    fn try_clone(&self, _alloc: Global) -> Result<PlanRow, AllocError> {
        Ok(*self)
    }
}

/// Which log a recovery takes: the segment of its head, and a row for each segment.
#[derive(Drop)]
pub struct Plan {
    /// The segment of the newest digest that was found open.
    pub head: u16,
    /// One row for each segment of that digest, ascending.
    pub rows: Seq<PlanRow>,
}

impl TryClone for Plan {
    fn try_clone(&self, alloc: Global) -> Result<Plan, AllocError> {
        let rows = self.rows.try_clone(alloc)?;
        Ok(Plan {
            head: self.head,
            rows,
        })
    }
}

/// A contiguous range of the keys of one table.
#[derive(Clone, Copy, PartialEq, Eq)]
pub struct KeyRange {
    /// The table.
    pub table: u32,
    /// The first key.
    pub lo: u64,
    /// The last key, not below `lo`.
    pub hi: u64,
}

impl KeyRange {
    /// All keys of a table.
    pub fn all_keys(table: u32) -> KeyRange
        ensures { result ≡ all_keys table }
    {
        KeyRange {
            table,
            lo: 0,
            hi: LAST_KEY,
        }
    }

    /// Whether this key of this table lies in the range.
    pub fn holds(&self, table: u32, key: u64) -> bool
        ensures { result ≡ in_range self.now table key }
    {
        self.table == table && self.lo <= key && key <= self.hi
    }
}

/// A recovery master's part of a crashed master's tablets: a range, the term that its entries have
/// in the crashed master's log, and the term that they get.
#[derive(Clone, Copy)]
pub struct Part {
    /// The keys.
    pub range: KeyRange,
    /// The term that the tablet had when its owner crashed.
    pub previous: u32,
    /// The term that it is recovered under.
    pub term: u32,
}

impl TryClone for Part {
    fn try_clone(&self, _alloc: Global) -> Result<Part, AllocError> {
        Ok(*self)
    }
}

/// A range of keys with its one owner.
#[derive(Clone, Copy)]
pub struct Tablet {
    /// The keys.
    pub range: KeyRange,
    /// Who owns it, or owned it when it crashed.
    pub owner: ServerId,
    /// The term of this ownership.
    pub term: u32,
    /// Whether the owner has crashed and nobody has it since.
    pub crashed: bool,
}
