//! What is known of recoveries: what was answered in their attempts, and the parts of their plans.

use crate::servers::pair;
use rc_types::{KeyRange, Pair, Part, Row, ServerId};
use std::alloc::{AllocError, Global};
use std::collections::{HashMap, HashSet};

/// How many keys are looked at, those below.
const KEYS: usize = 4;

/// A part of a plan.
#[derive(Clone, Copy)]
struct Given {
    master: ServerId,
    granted: bool,
}

/// An attempt.
#[derive(Drop)]
pub(crate) struct Attempt {
    pub(crate) master: ServerId,
    /// Whether an open row below the least pair was answered.
    pub(crate) has_stale: bool,
    /// The segments of which a closed row was answered.
    closed: HashSet<u16>,
    /// The segments of which a valid open row was answered.
    open: HashSet<u16>,
}

impl Attempt {
    /// A row was answered, where this is the least pair of the master.
    pub(crate) fn answer(&mut self, row: &Row, least: Pair) -> Result<(), AllocError> {
        if row.closed {
            self.closed.insert(row.seg)?;
        } else if pair(row.seg, row.epoch) < least {
            self.has_stale = true;
        } else {
            self.open.insert(row.seg)?;
        }
        Ok(())
    }

    /// Whether both a closed row and a valid open one of this segment were answered.
    pub(crate) fn has_both(&self, seg: u16) -> bool {
        self.closed.contains(&seg) && self.open.contains(&seg)
    }
}

/// What is known of recoveries.
#[derive(Drop)]
pub(crate) struct Recoveries {
    alloc: Global,
    attempts: HashMap<u32, Attempt>,
    parts: HashMap<u32, Given>,
    table: u32,
    terms: [u32; KEYS],
    owners: [u64; KEYS],
}

impl Recoveries {
    /// There are none.
    pub(crate) fn new(alloc: Global) -> Recoveries {
        Recoveries {
            alloc,
            attempts: HashMap::new(alloc),
            parts: HashMap::new(alloc),
            table: 0,
            terms: [0; KEYS],
            owners: [0; KEYS],
        }
    }

    /// Replicas of the master are asked for in this attempt: whether that is the first time.
    pub(crate) fn gather(&mut self, attempt: u32, master: ServerId) -> Result<bool, AllocError> {
        if self.attempts.contains_key(&attempt) {
            return Ok(false);
        }
        let begun = Attempt {
            master,
            has_stale: false,
            closed: HashSet::new(self.alloc),
            open: HashSet::new(self.alloc),
        };
        self.attempts.insert(attempt, begun)?;
        Ok(true)
    }

    /// What is known of an attempt.
    pub(crate) fn attempt(&self, attempt: u32) -> Option<&Attempt> {
        self.attempts.get(&attempt)
    }

    /// What is known of an attempt.
    pub(crate) fn attempt_mut(&mut self, attempt: u32) -> Option<&mut Attempt> {
        self.attempts.get_mut(&attempt)
    }

    /// A part was given to a recovery master: whether that is the first time.
    pub(crate) fn give(&mut self, master: ServerId, part: Part) -> Result<bool, AllocError> {
        if self.has_part(part.term) {
            return Ok(false);
        }
        let granted = false;
        self.parts.insert(part.term, Given { master, granted })?;
        Ok(true)
    }

    /// Whether this is the new term of a part.
    pub(crate) fn has_part(&self, term: u32) -> bool {
        self.parts.contains_key(&term)
    }

    /// The part of this term is granted: to whom it was given, if it is a part, and granted for the first time.
    pub(crate) fn grant(&mut self, term: u32) -> Option<ServerId> {
        let given = self.parts.get_mut(&term)?;
        if given.granted {
            return None;
        }
        given.granted = true;
        Some(given.master)
    }

    /// Keys have one owner more, if the term is a new one for them. A new table begins anew.
    pub(crate) fn own(&mut self, range: &KeyRange, term: u32) {
        if range.table > self.table {
            self.table = range.table;
            self.terms = [0; KEYS];
            self.owners = [0; KEYS];
        }
        for key in 0..KEYS {
            if range.holds(self.table, key as u64) && self.terms[key] < term {
                self.terms[key] = term;
                self.owners[key] = self.owners[key].saturating_add(1);
            }
        }
    }

    /// The most owners that one of the keys has had.
    pub(crate) fn owners(&self) -> u64 {
        self.owners.iter().copied().max().unwrap_or(0)
    }
}
