//! The members of one segment under an epoch.

ghost use Rattle.std.specs.Prelude.{◌≡◌, ◌⊎◌, ◌≤◌, ◌<◌, Ok, Err, IfOk, IfErr, length};
ghost use Rattle.std.specs.Option.{option_map};
ghost use Rattle.rc_types.specs.declared.faults.Fault.TheVariants.{OutOfMemory, NoBackups, EpochsExhausted};

use crate::ids::MemberIds;
use crate::{choosing, members, replacing};
use rc_serverlist::ServerList;
use rc_types::limits::{LAST_EPOCH, MAX_FACTOR};
use rc_types::{Fault, Member, ServerId};
use std::alloc::{AllocError, Global};
use std::marker::Model;

/// How many members a segment has at most: the greatest replication factor.
pub const MAX_MEMBERS: usize = MAX_FACTOR as usize;

/// What stands behind the last member.
const NOBODY: Member = Member {
    id: ServerId {
        index: 0,
        generation: 0,
    },
    lost: false,
    told: None,
};

/// The members of one segment under an epoch, each with a mark whether it is known lost and what it
/// has told under that epoch, and whether the epoch is committed. "The members of a segment" in
/// `docs/PROTOCOL.md` has the rules.
pub struct Config {
    seg: u16,
    /// The members, and whatever stands behind the last one.
    slots: [Member; MAX_MEMBERS],
    count: usize,
    epoch: u16,
    committed: bool,
}

impl Drop for Config {
    fn drop(self) {
        let Config {
            seg: _,
            slots: _,
            count: _,
            epoch: _,
            committed: _,
        } = self;
    }
}

impl Model for Config {
    ghost use Rattle.std.specs.Prelude.{◌≤◌, take};
    ghost use Rattle.rc_model.specs.Config.{Config as Members};
    ghost use Rattle.rc_config.specs.declared.config.TheConstants.{MAX_MEMBERS};

    ghost Value = { Members };

    ghost view = { λ c. record {
      seg = c.seg;
      members = take c.count c.slots;
      epoch = c.epoch;
      committed = c.committed;
    } };

    ghost invariant = { λ c. c.count ≤ MAX_MEMBERS };
}

impl Config {
    ghost use Rattle.rc_model.specs.Master.{ids_of};
    ghost use Rattle.rc_model.specs.Config.{new_config, notes, noted, committed_at, all_placed, all_closed};
    ghost use Rattle.rc_model.specs.Config.{durable_len, with_lost, any_lost, substitutes_for, changed, changes_to};
    ghost use Rattle.rc_model.specs.Config.{refills_with, lose, refill};

    /// A segment's first members, under epoch 0, which is committed from the start.
    pub fn new(seg: u16, ids: &[ServerId]) -> Config
        requires { length ids.now ≤ MAX_MEMBERS }
        ensures { result ≡ new_config seg ids.now }
    {
        let mut slots = [NOBODY; MAX_MEMBERS];
        let count = ids.len();
        for (place, id) in ids.iter().enumerate() {
            slots[place] = members::new_member(*id);
        }
        Config {
            seg,
            slots,
            count,
            epoch: 0,
            committed: true,
        }
    }

    /// The members, in the order in which they were chosen.
    pub fn members(&self) -> &[Member]
        ensures { result.now ≡ self.now.members }
    {
        &self.slots[..self.count]
    }

    /// The ids of the members, in that order.
    pub fn ids(&self) -> MemberIds
        ensures { result ≡ ids_of self.now.members }
    {
        MemberIds::of(&self.slots[..self.count])
    }

    /// The present epoch.
    pub fn epoch(&self) -> u16
        ensures { result ≡ self.now.epoch }
    {
        self.epoch
    }

    /// Whether the present epoch is committed at the coordinator.
    pub fn is_committed(&self) -> bool
        ensures { result ≡ self.now.committed }
    {
        self.committed
    }

    /// Whether a Stored of this server under this epoch is noted: it is of a member that is not known
    /// lost, under the present epoch.
    fn notes(&self, from: ServerId, epoch: u16) -> bool
        ensures { result ≡ notes from epoch self.now }
    {
        epoch == self.epoch && members::any_heard(self.members(), from)
    }

    /// Notes what a server has told under an epoch, and says whether it did: where the server is a
    /// member that is not known lost, and the epoch is the present one. Of several lengths the
    /// greatest stays, and a closed mark stays.
    pub fn stored(&mut self, from: ServerId, epoch: u16, len: usize, closed: bool) -> bool
        ensures notes { result ≡ notes from epoch self.old }
        ensures noted { self.new ≡ noted from epoch len closed self.old }
    {
        let notes = self.notes(from, epoch);
        if epoch == self.epoch {
            members::note_told(&mut self.slots[..self.count], from, len, closed);
        }
        notes
    }

    /// Notes that an epoch is committed. Another epoch than the present one changes nothing.
    pub fn committed_at(&mut self, epoch: u16)
        ensures { self.new ≡ committed_at epoch self.old }
    {
        if epoch == self.epoch {
            self.committed = true;
        }
    }

    /// Whether no member is lost and each has told something under the present epoch.
    pub fn all_placed(&self) -> bool
        ensures { result ≡ all_placed self.now }
    {
        members::all_placed(self.members())
    }

    /// Whether no member is lost and each has told that its replica is closed.
    pub fn all_closed(&self) -> bool
        ensures { result ≡ all_closed self.now }
    {
        members::all_closed(self.members())
    }

    /// How many entries all members have told under the present epoch, where that is committed and no
    /// member is lost; else 0.
    pub fn durable_len(&self) -> usize
        ensures { result ≡ durable_len self.now }
    {
        if self.committed && !self.any_lost() {
            members::least_told(self.members())
        } else {
            0
        }
    }

    /// Whether some member is known lost.
    pub fn any_lost(&self) -> bool
        ensures { result ≡ any_lost self.now.members }
    {
        self.members().iter().any(|member| member.lost)
    }

    /// The same members, lost where the list shows them crashed.
    fn with_lost(&self, servers: &ServerList) -> Config
        ensures { result ≡ with_lost servers.now self.now }
    {
        let mut slots = self.slots;
        members::mark_lost(&mut slots[..self.count], servers);
        Config {
            seg: self.seg,
            slots,
            count: self.count,
            epoch: self.epoch,
            committed: self.committed,
        }
    }

    /// A copy, which takes no memory.
    pub fn copy(&self) -> Config
        ensures { result ≡ self.now }
    {
        Config {
            seg: self.seg,
            slots: self.slots,
            count: self.count,
            epoch: self.epoch,
            committed: self.committed,
        }
    }

    /// Marks the members lost that the list shows crashed. Where a member is lost, a change of members
    /// begins: each lost one gives its place to another, the epoch rises by one and isn't committed,
    /// and nobody has told anything under it. Says whether a change has begun.
    ///
    /// # Errors
    ///
    /// F4 exactly where not all lost members can be replaced, and else F19 exactly where the last
    /// epoch is in use: members are marked lost then, and nothing else has changed. Where memory is
    /// refused (F1), nothing has changed.
    pub fn lose(
        &mut self,
        alloc: Global,
        own: ServerId,
        servers: &ServerList,
    ) -> Result<bool, Fault>
        ensures ok { IfOk result (λ began. lose own servers.now self.old ≡ (self.new, Ok began)) }
        ensures err { IfErr result (λ fault. ((fault ≡ OutOfMemory) × (self.new ≡ self.old))
            ⊎ (lose own servers.now self.old ≡ (self.new, Err fault))) }
    {
        let marked = self.with_lost(servers);
        if !marked.any_lost() {
            *self = marked;
            return Ok(false);
        }
        let found = marked.substitutes(alloc, own, servers)?;
        *self = marked;
        let Some(ids) = found else {
            return Err(Fault::NoBackups);
        };
        if self.epoch == LAST_EPOCH {
            return Err(Fault::EpochsExhausted);
        }
        self.change(ids.as_slice());
        Ok(true)
    }

    /// Marks the members lost that the list shows crashed, and replaces the lost ones. The epoch
    /// stays, and so does what the others have told. Answers the new members. Where nobody is lost it
    /// takes no memory, and looks at the members alone.
    ///
    /// # Errors
    ///
    /// F4 exactly where not all lost members can be replaced: members are marked lost then, and
    /// nothing else has changed. Where memory is refused (F1), nothing has changed.
    pub fn refill(
        &mut self,
        alloc: Global,
        own: ServerId,
        servers: &ServerList,
    ) -> Result<Vec<ServerId>, Fault>
        ensures ok { IfOk result (λ ids. refill own servers.now self.old ≡ (self.new, Ok ids.items)) }
        ensures err { IfErr result (λ fault. ((fault ≡ OutOfMemory) × (self.new ≡ self.old))
            ⊎ (refill own servers.now self.old ≡ (self.new, Err fault))) }
    {
        let marked = self.with_lost(servers);
        if !marked.any_lost() {
            *self = marked;
            return Ok(Vec::new(alloc));
        }
        let found = marked.substitutes(alloc, own, servers)?;
        *self = marked;
        let Some(ids) = found else {
            return Err(Fault::NoBackups);
        };
        replacing::replace(&mut self.slots[..self.count], ids.as_slice());
        Ok(ids)
    }

    /// The substitutes for the lost members; `None` where not all can be replaced.
    fn substitutes(
        &self,
        alloc: Global,
        own: ServerId,
        servers: &ServerList,
    ) -> Result<Option<Vec<ServerId>>, AllocError>
        ensures { IfOk result (λ found.
            option_map (λ ids. ids.items) found ≡ substitutes_for own servers.now self.now) }
    {
        let ids = choosing::candidates(alloc, self.seg, own, servers)?;
        let found = replacing::substitutes(alloc, ids.as_slice(), self.members())?;
        Ok(found)
    }

    /// Gives the places of the lost members to these ids, under a fresh epoch.
    fn change(&mut self, ids: &[ServerId])
        requires { self.old.epoch < LAST_EPOCH }
        ensures { self.new ≡ changed self.old ids.now }
    {
        let members = &mut self.slots[..self.count];
        replacing::replace(members, ids);
        members::begin_anew(members);
        self.epoch += 1;
        self.committed = false;
    }
}
