//! The reads that were answered.

use rc_types::{ServerId, Shared};
use std::alloc::{AllocError, Global};
use std::collections::BTreeMap;

/// A read that was answered.
#[derive(Clone, Copy)]
pub(crate) struct Read<'a> {
    /// Who answered.
    pub(crate) master: ServerId,
    /// The table.
    pub(crate) table: u32,
    /// The key in it.
    pub(crate) key: u64,
    /// The version that was shown.
    pub(crate) version: u64,
    /// The value.
    pub(crate) value: &'a Option<Shared<u8>>,
    /// The number of the Read.
    pub(crate) invocation: usize,
    /// The number of the ReadOk.
    pub(crate) response: usize,
}

/// A key that a server is asked for: the server, the table and the key.
type Asked = (ServerId, u32, u64);

/// The reads so far, and for each key at each server the last Read.
#[derive(Drop)]
pub(crate) struct Reads<'a> {
    asked: BTreeMap<Asked, usize>,
    answered: Vec<Read<'a>>,
}

impl<'a> Reads<'a> {
    /// None yet.
    pub(crate) fn new(alloc: Global) -> Reads<'a> {
        Reads {
            asked: BTreeMap::new(alloc),
            answered: Vec::new(alloc),
        }
    }

    /// Notes a Read.
    pub(crate) fn ask(
        &mut self,
        number: usize,
        master: ServerId,
        table: u32,
        key: u64,
    ) -> Result<(), AllocError> {
        self.asked.insert((master, table, key), number)?;
        Ok(())
    }

    /// Notes a ReadOk, with the last Read before it.
    pub(crate) fn answer(
        &mut self,
        number: usize,
        master: ServerId,
        table: u32,
        key: u64,
        version: u64,
        value: &'a Option<Shared<u8>>,
    ) -> Result<(), AllocError> {
        let Some(invocation) = self.asked.get(&(master, table, key)).copied() else {
            return Ok(());
        };
        self.answered.push(Read {
            master,
            table,
            key,
            version,
            value,
            invocation,
            response: number,
        })?;
        Ok(())
    }

    /// The reads that were answered.
    pub(crate) fn all(&self) -> &[Read<'a>] {
        self.answered.as_slice()
    }
}
