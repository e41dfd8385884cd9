//! The ids of a segment's members at one moment.

ghost use Rattle.std.specs.Prelude.{◌≡◌, ◌≤◌, [], length};
ghost use Rattle.std.specs.List.{list_any};
ghost use Rattle.rc_model.specs.Ids.{same_id, has_id};
ghost use Rattle.rc_model.specs.Master.{ids_of};

use crate::config::MAX_MEMBERS;
use rc_types::{Member, ServerId};
use std::marker::Model;

/// What stands behind the last id.
const NO_ID: ServerId = ServerId {
    index: 0,
    generation: 0,
};

/// The ids of a segment's members at one moment. A copy takes no memory.
pub struct MemberIds {
    /// The ids, and whatever stands behind the last one.
    slots: [ServerId; MAX_MEMBERS],
    count: usize,
}

impl Drop for MemberIds {
    fn drop(self) {
        let MemberIds { slots: _, count: _ } = self;
    }
}

impl Model for MemberIds {
    ghost use Rattle.std.specs.Prelude.{◌≤◌, List, take};
    ghost use Rattle.rc_types.specs.declared.ids.ServerId.{ServerId as Id};
    ghost use Rattle.rc_config.specs.declared.config.TheConstants.{MAX_MEMBERS};

    ghost Value = { List Id };

    ghost view = { λ s. take s.count s.slots };

    ghost invariant = { λ s. s.count ≤ MAX_MEMBERS };
}

impl MemberIds {
    /// No ids.
    pub fn none() -> MemberIds
        ensures { result ≡ [] }
    {
        MemberIds {
            slots: [NO_ID; MAX_MEMBERS],
            count: 0,
        }
    }

    /// The ids of these members, in their order.
    pub(crate) fn of(members: &[Member]) -> MemberIds
        requires { length members.now ≤ MAX_MEMBERS }
        ensures { result ≡ ids_of members.now }
    {
        let mut slots = [NO_ID; MAX_MEMBERS];
        for (place, member) in members.iter().enumerate() {
            slots[place] = member.id;
        }
        MemberIds {
            slots,
            count: members.len(),
        }
    }

    /// Whether this id is one of them.
    pub fn has(&self, id: ServerId) -> bool
        ensures { result ≡ has_id id self.now }
    {
        is_among(&self.slots[..self.count], id)
    }

    /// A copy, which takes no memory.
    pub fn copy(&self) -> MemberIds
        ensures { result ≡ self.now }
    {
        MemberIds {
            slots: self.slots,
            count: self.count,
        }
    }
}

/// Whether the id is one of these.
fn is_among(ids: &[ServerId], id: ServerId) -> bool
    ensures { result ≡ list_any (same_id id) ids.now }
{
    ids.iter().any(|other| id == *other)
}
