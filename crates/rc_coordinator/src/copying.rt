//! A copy of a coordinator.

ghost use Rattle.std.specs.Prelude.{◌≡◌, IfOk};
ghost use Rattle.rc_model.specs.Ids.{same_id};
ghost use Rattle.rc_coordinator.specs.View.{book_of};

use crate::coordinator::Coordinator;
use crate::ready::Ready;
use crate::recoveries::Recoveries;
use crate::state::State;
use indexmap::IndexMap;
use rc_types::{ServerId, copied};
use std::alloc::{AllocError, Allocator, Global};

impl<A: Allocator + Clone> Coordinator<A> {
    /// A copy. Its tablets lie in memory of this allocator.
    ///
    /// # Errors
    ///
    /// `OutOfMemory` (F1): memory was refused.
    pub fn try_clone_in(&self, tablets_alloc: A) -> Result<Coordinator<A>, AllocError>
        ensures { IfOk result (λ copy. copy ≡ self.now) }
    {
        Ok(Coordinator {
            state: self.state.try_clone_in(tablets_alloc)?,
        })
    }
}

impl<A: Allocator + Clone> State<A> {
    fn try_clone_in(&self, tablets_alloc: A) -> Result<State<A>, AllocError>
        ensures { IfOk result (λ copy. book_of copy ≡ book_of self.now) }
    {
        let alloc = self.alloc;
        Ok(State {
            alloc,
            servers: self.servers.try_clone(alloc)?,
            ready: self.ready.try_clone(alloc)?,
            tablets: self.tablets.try_clone_in(tablets_alloc)?,
            least: copied_entries(alloc, &self.least)?,
            recoveries: self.recoveries.try_clone(alloc)?,
            last_term: self.last_term,
        })
    }
}

impl Ready {
    fn try_clone(&self, alloc: Global) -> Result<Ready, AllocError>
        ensures { IfOk result (λ copy. copy ≡ self.now) }
    {
        Ok(Ready {
            ids: copied_entries(alloc, &self.ids)?,
        })
    }
}

impl Recoveries {
    fn try_clone(&self, alloc: Global) -> Result<Recoveries, AllocError>
        ensures attempts { IfOk result (λ copy. copy.attempts ≡ self.now.attempts) }
        ensures current { IfOk result (λ copy. copy.current ≡ self.now.current) }
        ensures grants { IfOk result (λ copy. copy.grants ≡ self.now.grants) }
    {
        let attempts = copied(alloc, self.attempts())?;
        let current = copied_entries(alloc, self.current())?;
        Recoveries::from_parts(alloc, attempts, current, self.grants())
    }
}

/// A map with the same entries, in the same order.
fn copied_entries<V: Copy + Drop>(
    alloc: Global,
    map: &IndexMap<ServerId, V>,
) -> Result<IndexMap<ServerId, V>, AllocError>
    ensures { IfOk result (λ copy. copy.entries ≡ map.now.entries) }
{
    let mut copy = IndexMap::with_capacity(alloc, map.len())?;
    for (id, value) in map.iter() {
        copy.insert(*id, *value)?;
    }
    Ok(copy)
}
