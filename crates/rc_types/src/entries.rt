//! What a log is made of.

use crate::sequence::TryClone;
use crate::shared::Shared;
use std::alloc::{AllocError, Global};

/// One entry of a master's log: one write of one key.
#[derive(Drop, PartialEq)]
pub struct Entry {
    /// The term under which it was written, or under which it was replayed.
    pub term: u32,
    /// The table.
    pub table: u32,
    /// The key, which is its own hash.
    pub key: u64,
    /// The version, from 1; under one term a key's versions rise with the place in the log.
    pub version: u64,
    /// The value's bytes, at most 1,024 where a client wrote it; `None` is a deletion.
    pub value: Option<Shared<u8>>,
}

impl TryClone for Entry {
    fn try_clone(&self, alloc: Global) -> Result<Entry, AllocError> {
        let value = self.value.try_clone(alloc)?;
        Ok(Entry {
            term: self.term,
            table: self.table,
            key: self.key,
            version: self.version,
            value,
        })
    }
}
