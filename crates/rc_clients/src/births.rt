//! The writes of a run: each is born where its entry is first sent.

use crate::operations::bytes_of;
use rc_types::{Entry, ServerId, Shared};
use std::alloc::{AllocError, Global};
use std::collections::BTreeMap;

/// A write: what was written, the request, and the acknowledgement, if there is one.
#[derive(Clone, Copy)]
pub(crate) struct Birth<'a> {
    /// The table.
    pub(crate) table: u32,
    /// The key in it.
    pub(crate) key: u64,
    /// The value.
    pub(crate) value: &'a Option<Shared<u8>>,
    /// The version; 0 where nothing was sent of it.
    pub(crate) version: u64,
    /// The number of the Write.
    pub(crate) invocation: usize,
    /// The number of the WriteOk.
    pub(crate) response: Option<usize>,
}

/// What a server is asked to write: the server, the table, the key and the value.
type Wanted<'a> = (ServerId, u32, u64, Option<&'a [u8]>);

/// What an entry has, whoever wrote or replayed it: the table, the key, the version and the value.
type Name<'a> = (u32, u64, u64, Option<&'a [u8]>);

/// A place of a log: the master, the segment and the offset.
type Spot = (ServerId, u16, usize);

/// When something was first sent for a place, and which write stands there.
#[derive(Clone, Copy)]
struct First {
    number: usize,
    birth: Option<usize>,
}

/// The Writes of one value.
#[derive(Drop)]
struct Requests<'a> {
    /// What they want to be written.
    value: &'a Option<Shared<u8>>,
    /// The numbers of those that no entry comes of so far.
    waiting: Vec<usize>,
    /// The number of the last one.
    last: usize,
}

/// The writes so far.
#[derive(Drop)]
pub(crate) struct Births<'a> {
    wanted: BTreeMap<Wanted<'a>, Requests<'a>>,
    named: BTreeMap<Name<'a>, usize>,
    firsts: BTreeMap<Spot, First>,
    begun: BTreeMap<ServerId, usize>,
    all: Vec<Birth<'a>>,
}

impl<'a> Births<'a> {
    /// None yet.
    pub(crate) fn new(alloc: Global) -> Births<'a> {
        Births {
            wanted: BTreeMap::new(alloc),
            named: BTreeMap::new(alloc),
            firsts: BTreeMap::new(alloc),
            begun: BTreeMap::new(alloc),
            all: Vec::new(alloc),
        }
    }

    /// Notes a Write.
    pub(crate) fn ask(
        &mut self,
        alloc: Global,
        number: usize,
        master: ServerId,
        table: u32,
        key: u64,
        value: &'a Option<Shared<u8>>,
    ) -> Result<(), AllocError> {
        let wanted = (master, table, key, bytes_of(value));
        if let Some(requests) = self.wanted.get_mut(&wanted) {
            requests.waiting.push(number)?;
            requests.last = number;
            return Ok(());
        }
        let mut waiting = Vec::new(alloc);
        waiting.push(number)?;
        let requests = Requests {
            value,
            waiting,
            last: number,
        };
        self.wanted.insert(wanted, requests)?;
        Ok(())
    }

    /// Notes what is sent for the places from this offset on.
    pub(crate) fn send(
        &mut self,
        number: usize,
        master: ServerId,
        seg: u16,
        offset: usize,
        entries: &'a [Entry],
    ) -> Result<(), AllocError> {
        for (place, entry) in entries.iter().enumerate() {
            let offset = offset.saturating_add(place);
            let spot = (master, seg, offset);
            if self.firsts.get(&spot).is_none() {
                let birth = self.birth_of(master, entry)?;
                self.firsts.insert(spot, First { number, birth })?;
            }
        }
        Ok(())
    }

    /// The write that an entry is: one that was born before, or a new one.
    fn birth_of(
        &mut self,
        master: ServerId,
        entry: &'a Entry,
    ) -> Result<Option<usize>, AllocError> {
        let value = bytes_of(&entry.value);
        let name = (entry.table, entry.key, entry.version, value);
        if let Some(birth) = self.named.get(&name).copied() {
            return Ok(Some(birth));
        }
        let Some(invocation) = self.request_of(master, entry) else {
            return Ok(None);
        };
        let birth = self.all.len();
        self.all.push(Birth {
            table: entry.table,
            key: entry.key,
            value: &entry.value,
            version: entry.version,
            invocation,
            response: None,
        })?;
        self.named.insert(name, birth)?;
        Ok(Some(birth))
    }

    /// The last Write of this value that no entry comes of so far; or the last of all, which was delivered twice then.
    fn request_of(&mut self, master: ServerId, entry: &'a Entry) -> Option<usize> {
        let value = bytes_of(&entry.value);
        let wanted = (master, entry.table, entry.key, value);
        let requests = self.wanted.get_mut(&wanted)?;
        Some(requests.waiting.pop().unwrap_or(requests.last))
    }

    /// Notes an acknowledgement. It tells when the write was begun, which confirms what its master answered before.
    pub(crate) fn acknowledge(
        &mut self,
        number: usize,
        master: ServerId,
        seg: u16,
        offset: usize,
    ) -> Result<(), AllocError> {
        let spot = (master, seg, offset);
        let Some(first) = self.firsts.get(&spot).copied() else {
            return Ok(());
        };
        if let Some(birth) = first.birth
            && birth < self.all.len()
            && self.all[birth].response.is_none()
        {
            self.all[birth].response = Some(number);
        }
        let begun = self.begun.get(&master).copied().unwrap_or(0);
        self.begun.insert(master, begun.max(first.number))?;
        Ok(())
    }

    /// Whether the master has acknowledged a write for whose place it had sent nothing before this message.
    pub(crate) fn confirms(&self, master: ServerId, number: usize) -> bool {
        match self.begun.get(&master) {
            Some(begun) => number < *begun,
            None => false,
        }
    }

    /// Makes writes of the requests that no entry came of.
    pub(crate) fn forget_requests(&mut self) -> Result<(), AllocError> {
        for ((_, table, key, _), requests) in &self.wanted {
            for number in &requests.waiting {
                self.all.push(Birth {
                    table: *table,
                    key: *key,
                    value: requests.value,
                    version: 0,
                    invocation: *number,
                    response: None,
                })?;
            }
        }
        Ok(())
    }

    /// All writes.
    pub(crate) fn all(&self) -> &[Birth<'a>] {
        self.all.as_slice()
    }
}
