//! The server list.

ghost use Rattle.std.specs.Prelude.{◌≡◌, ◌<◌, ◌-◌, ◌↔◌, ◌^◌, true, false, nat_eq, length, OnOk, OnErr, IfOk, IfErr};
ghost use Rattle.std.specs.List.{IsDistinct};
ghost use Rattle.std.specs.Map.{keys_of};
ghost use Rattle.rc_types.specs.declared.faults.Fault.TheVariants.{OutOfMemory, StaleGeneration};
ghost use Rattle.rc_model.specs.Ids.{same_id};

use crate::marks;
use indexmap::IndexMap;
use rc_types::{Fault, ServerId, Shared};
use std::alloc::{AllocError, Global};
use std::fmt;
use std::marker::Model;

/// Every id that was ever enlisted, in the order of enlisting, each marked up or crashed, and a
/// version that rises by one with each change.
pub struct ServerList {
    version: u32,
    rows: IndexMap<ServerId, bool>,
    /// The rows as messages tell them, once they were asked for since the last change.
    told: Option<Shared<(ServerId, bool)>>,
}

impl Drop for ServerList {
    fn drop(self) {
        let ServerList {
            version: _,
            rows: _,
            told: _,
        } = self;
    }
}

/// For a debugger it is its version, and how many ids it has.
impl fmt::Debug for ServerList {
    fn fmt<W: fmt::Write>(&self, f: &mut fmt::Formatter<W>) -> fmt::Result {
        write!(f, "list {} of {} ids", self.version, self.rows.len())
    }
}

impl Model for ServerList {
    ghost use Rattle.std.specs.Prelude.{◌≡◌, IfSome};
    ghost use Rattle.rc_model.specs.ServerList.{ServerList as Servers};

    ghost Value = { Servers };

    ghost view = { λ s. record { version = s.version; rows = s.rows.entries } };

    ghost invariant = { λ s. IfSome s.told (λ rows. rows ≡ s.rows.entries) };
}

impl ServerList {
    ghost use Rattle.rc_model.specs.ServerList.{no_servers, knows, is_up, has_crashed, up, is_newest, enlisted};
    ghost use Rattle.rc_model.specs.ServerList.{crashed, from_rows, newer_than};

    /// The list of nobody, of version 0. It takes no memory until an id is enlisted.
    pub fn new(alloc: Global) -> ServerList
        ensures { result ≡ no_servers }
    {
        ServerList {
            version: 0,
            rows: IndexMap::new(alloc),
            told: None,
        }
    }

    /// The list that a List message tells of. Of rows with one id the first counts. Only memory can
    /// be refused (F1).
    pub fn from_rows(
        alloc: Global,
        version: u32,
        rows: &[(ServerId, bool)],
    ) -> Result<ServerList, AllocError>
        ensures { IfOk result (λ list. list ≡ from_rows version rows.now) }
    {
        let mut first = IndexMap::with_capacity(alloc, rows.len())?;
        for (id, up) in rows {
            marks::insert_if_unknown(&mut first, *id, *up)?;
        }
        Ok(ServerList {
            version,
            rows: first,
            told: None,
        })
    }

    /// A copy, which equals the list. Only memory can be refused (F1).
    pub fn try_clone(&self, alloc: Global) -> Result<ServerList, AllocError>
        ensures { IfOk result (λ copy. copy ≡ self.now) }
    {
        let copy = self.rows.iter().map(|(id, up)| (*id, *up)).collect(alloc)?;
        Ok(ServerList {
            version: self.version,
            rows: copy,
            told: None,
        })
    }

    /// How often the list has changed since it was empty.
    pub fn version(&self) -> u32
        ensures { result ≡ self.now.version }
    {
        self.version
    }

    /// How many ids were ever enlisted.
    pub fn len(&self) -> usize
        ensures { result ≡ length self.now.rows }
    {
        self.rows.len()
    }

    /// Whether no id was ever enlisted.
    pub fn is_empty(&self) -> bool
        ensures { result ≡ nat_eq (length self.now.rows) 0 }
    {
        self.rows.is_empty()
    }

    /// Whether this list has changed more often than the other.
    pub fn newer_than(&self, other: &ServerList) -> bool
        ensures { result ≡ newer_than self.now other.now }
    {
        self.version > other.version
    }

    /// Whether the id was ever enlisted.
    pub fn knows(&self, id: ServerId) -> bool
        ensures { result ≡ knows self.now.rows id }
    {
        self.rows.contains_key(&id)
    }

    /// Whether the id is up: it was enlisted and has not crashed since.
    pub fn is_up(&self, id: ServerId) -> bool
        ensures { result ≡ is_up self.now id }
    {
        marks::is_marked_up(&self.rows, id)
    }

    /// Whether the id was enlisted and has crashed since.
    pub fn has_crashed(&self, id: ServerId) -> bool
        ensures { result ≡ has_crashed self.now id }
    {
        marks::is_marked_crashed(&self.rows, id)
    }

    /// Whether the id can be enlisted: its generation is above all known of its index.
    pub fn is_newest(&self, id: ServerId) -> bool
        ensures { result ≡ is_newest id self.now.rows }
    {
        marks::is_newest(&self.rows, id)
    }

    /// The ids that are up, by index and then by generation. Only memory can be refused (F1).
    pub fn up(&self, alloc: Global) -> Result<Vec<ServerId>, AllocError>
        ensures { IfOk result (λ ids. ids.items ≡ up self.now) }
    {
        let mut ids = Vec::new(alloc);
        for (id, up) in self.rows.iter().rev() {
            if *up {
                marks::insert_in_order(&mut ids, *id)?;
            }
        }
        Ok(ids)
    }

    /// All ids with their marks, in the order of enlisting, as a List message tells them. No id is
    /// there twice. Only memory can be refused (F1).
    pub fn rows(&self, alloc: Global) -> Result<Vec<(ServerId, bool)>, AllocError>
        ensures ok { IfOk result (λ rows. rows.items ≡ self.now.rows) }
        ensures distinct { IsDistinct same_id (keys_of self.now.rows) }
    {
        let rows = self.rows.iter().map(|(id, up)| (*id, *up)).collect(alloc)?;
        Ok(rows)
    }

    /// The same rows, for any number of messages. They are made once after each change of the list: who asks again
    /// gets one more owner of them. Only memory can be refused (F1).
    pub fn shared_rows(&mut self, alloc: Global) -> Result<Shared<(ServerId, bool)>, AllocError>
        ensures same { self.new ≡ self.old }
        ensures ok { IfOk result (λ rows. rows ≡ self.old.rows) }
    {
        if let Some(rows) = &self.told {
            return Ok(rows.share()?);
        }
        let rows = Shared::from_vec(alloc, self.rows(alloc)?)?;
        self.told = Some(rows.share()?);
        Ok(rows)
    }

    /// Takes a new id in as up, and marks all older generations of its index crashed. The version
    /// rises by one. F21 exactly where the generation is not above all known of its index; else
    /// only memory can be refused (F1). After either the list is as it was.
    pub fn enlist(&mut self, id: ServerId) -> Result<(), Fault>
        requires { self.old.version < 2 ^ 32 - 1 }
        ensures ok { OnOk result (self.new ≡ enlisted id self.old) }
        ensures stale { (result ≡ Err StaleGeneration) ↔ (is_newest id self.old.rows ≡ false) }
        ensures no_memory { IfErr result (λ fault. is_newest id self.old.rows ≡ true → fault ≡ OutOfMemory) }
        ensures err { OnErr result (self.new ≡ self.old) }
    {
        if !self.is_newest(id) {
            return Err(Fault::StaleGeneration);
        }
        let count = self.rows.len();
        self.rows.insert(id, true)?;
        self.told = None;
        marks::mark_index_crashed(&mut self.rows, id.index, count);
        self.version += 1;
        Ok(())
    }

    /// Marks the id crashed. Where it was up, that is a change: the version rises by one, and the
    /// answer is `true`. Else nothing changes.
    pub fn crash(&mut self, id: ServerId) -> bool
        requires { self.old.version < 2 ^ 32 - 1 }
        ensures was_up { result ≡ is_up self.old id }
        ensures crashed { self.new ≡ crashed id self.old }
    {
        self.told = None;
        let was_up = marks::mark_crashed(&mut self.rows, id);
        if was_up {
            self.version += 1;
        }
        was_up
    }
}
