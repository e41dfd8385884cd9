//! Who has said that it is ready.

ghost use Rattle.std.specs.Prelude.{◌≡◌, [], OnOk, OnErr, IfOk};
ghost use Rattle.std.specs.List.{list_any, IsDistinct};
ghost use Rattle.indexmap.specs.IndexSet.{insert_key};
ghost use Rattle.rc_model.specs.Ids.{same_id};

use indexmap::IndexMap;
use rc_types::ServerId;
use std::alloc::{AllocError, Global};
use std::marker::Model;

/// The ids that have said that they are ready, in the order of saying so. Contracts see it as their list.
pub struct Ready {
    pub(crate) ids: IndexMap<ServerId, ()>,
}

impl Drop for Ready {
    fn drop(self) {
        let Ready { ids: _ } = self;
    }
}

impl Model for Ready {
    ghost use Rattle.std.specs.Prelude.{List};
    ghost use Rattle.std.specs.Map.{keys_of};
    ghost use Rattle.rc_types.specs.declared.ids.ServerId.{ServerId as Id};

    ghost Value = { List Id };

    ghost view = { λ r. keys_of r.ids.entries };
}

impl Ready {
    /// Nobody. It takes no memory.
    pub(crate) fn new(alloc: Global) -> Ready
        ensures { result ≡ [] }
    {
        Ready {
            ids: IndexMap::new(alloc),
        }
    }

    /// Whether this id is one of them.
    pub fn has(&self, id: ServerId) -> bool
        ensures { result ≡ list_any (same_id id) self.now }
    {
        self.ids.contains_key(&id)
    }

    /// Notes that this id is ready. Where memory is refused, they are as they were.
    pub(crate) fn note(&mut self, id: ServerId) -> Result<(), AllocError>
        ensures ok { OnOk result (self.new ≡ insert_key same_id self.old id) }
        ensures err { OnErr result (self.new ≡ self.old) }
    {
        self.ids.insert(id, ())?;
        Ok(())
    }

    /// All of them, in that order.
    pub fn ids(&self, alloc: Global) -> Result<Vec<ServerId>, AllocError>
        ensures ids { IfOk result (λ ids. ids.items ≡ self.now) }
        ensures distinct { IsDistinct same_id self.now }
    {
        self.ids.keys().copied().collect(alloc)
    }
}
