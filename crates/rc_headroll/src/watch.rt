//! Which segments of a log the timer and a new server list go over.

ghost use Rattle.std.specs.Prelude.{◌≡◌, ◌<◌, ℕ, true, false, nat_eq, if◌then◌else◌, OnOk, OnErr, IfOk, IfSome};
ghost use Rattle.rc_types.specs.declared.ids.ServerId.{ServerId as Id};
ghost use Rattle.rc_model.specs.ServerList.{has_crashed};
ghost use Rattle.rc_headroll.specs.Watching.{has_number, is_awake, is_filed, is_findable};

use crate::filing::{file_under_all, forget_crashed, wake_crashed};
use crate::numbers::Numbers;
use crate::stuck::Stuck;
use indexmap::IndexMap;
use rc_config::Config;
use rc_serverlist::ServerList;
use rc_types::ServerId;
use std::alloc::{AllocError, Global};
use std::marker::Model;

/// The segments that the timer goes over. Each other one wants nothing, and if it wasn't freed, it is filed
/// under each of its members, so that it is found when a server list shows one of them crashed; or it has lost members
/// whom nobody can replace, and is found when another server list comes.
#[derive(Drop)]
pub(crate) struct Watch {
    alloc: Global,
    awake: Numbers,
    filed: IndexMap<ServerId, Numbers>,
    stuck: Stuck,
}

impl Model for Watch {
    ghost use Rattle.rc_headroll.specs.Watching.{Watched};

    ghost Value = { Watched };

    ghost view = { λ w. record { awake = w.awake; filed = w.filed.entries; stuck = w.stuck } };
}

impl Watch {
    /// No segment is gone over. It takes no memory.
    pub(crate) fn new(alloc: Global) -> Watch
        ensures { (seg : ℕ) → is_awake result seg ≡ false }
    {
        Watch {
            alloc,
            awake: Numbers::new(alloc),
            filed: IndexMap::new(alloc),
            stuck: Stuck::new(alloc),
        }
    }

    /// From here on the segment is gone over. Where memory is refused, nothing has changed.
    pub(crate) fn wake(&mut self, seg: u16) -> Result<(), AllocError>
        ensures awake { OnOk result (is_awake self.new seg ≡ true) }
        ensures others { (other : ℕ) → is_awake self.old other ≡ true → is_awake self.new other ≡ true }
        ensures filed { self.new.filed ≡ self.old.filed }
        ensures stuck { self.new.stuck ≡ self.old.stuck }
        ensures unchanged { OnErr result (self.new ≡ self.old) }
    {
        self.awake.insert(seg)
    }

    /// From here on the segment is not gone over.
    pub(crate) fn let_go(&mut self, seg: u16)
        ensures awake { (other : ℕ) →
            is_awake self.new other ≡ (if nat_eq seg other then false else is_awake self.old other) }
        ensures filed { self.new.filed ≡ self.old.filed }
        ensures stuck { self.new.stuck ≡ self.old.stuck }
    {
        self.awake.remove(seg);
    }

    /// The next number after this one that is gone over, if there is one.
    pub(crate) fn next(&self, done: u16) -> Option<u16>
        ensures later { IfSome result (λ seg. done < seg) }
        ensures awake { IfSome result (λ seg. is_awake self.now seg ≡ true) }
        ensures others { (other : ℕ) → done < other → IfSome result (λ seg. other < seg) →
            is_awake self.now other ≡ false }
    {
        self.awake.next(done)
    }

    /// Files a segment with these members so that a list which concerns it finds it again: under each of them, or,
    /// where some are lost, as one that is stuck. The answer says whether it did: a segment is not stuck whose lost
    /// members can be replaced. Where memory is refused, it may be filed under some of the members.
    pub(crate) fn file(
        &mut self,
        own: ServerId,
        seg: u16,
        config: &Config,
    ) -> Result<bool, AllocError>
        ensures filed { IfOk result (λ filed. filed ≡ true → is_findable own self.new seg config.now ≡ true) }
        ensures others { (id : Id) (other : ℕ) → is_filed self.old id other ≡ true → is_filed self.new id other ≡ true }
        ensures stuck { (other : ℕ) → has_number self.old.stuck.segs other ≡ true →
            has_number self.new.stuck.segs other ≡ true }
        ensures servers { self.new.stuck.servers ≡ self.old.stuck.servers }
        ensures awake { self.new.awake ≡ self.old.awake }
    {
        if config.any_lost() {
            return self.stuck.add(own, seg, config);
        }
        file_under_all(self.alloc, &mut self.filed, seg, config.members())?;
        Ok(true)
    }

    /// From here on each segment is gone over that is filed under an id which the list shows crashed, or that is stuck
    /// under another list. No id of these is on file then. Where memory is refused, only some of them are gone over.
    pub(crate) fn wake_crashed(&mut self, servers: &ServerList) -> Result<(), AllocError>
        ensures crashed { OnOk result ((id : Id) (seg : ℕ) → has_crashed servers.now id ≡ true →
            (is_filed self.new id seg ≡ false) × (is_filed self.old id seg ≡ true → is_awake self.new seg ≡ true)) }
        ensures filed { (id : Id) (seg : ℕ) → is_filed self.old id seg ≡ true →
            is_awake self.new seg ≡ false → is_filed self.new id seg ≡ true }
        ensures listed { OnOk result ((seg : ℕ) → has_number self.new.stuck.segs seg ≡ true →
            self.new.stuck.servers ≡ servers.now) }
        ensures stuck { (seg : ℕ) → has_number self.old.stuck.segs seg ≡ true → is_awake self.new seg ≡ false →
            (has_number self.new.stuck.segs seg ≡ true) × (self.new.stuck.servers ≡ self.old.stuck.servers) }
        ensures others { (seg : ℕ) → is_awake self.old seg ≡ true → is_awake self.new seg ≡ true }
    {
        wake_crashed(&mut self.awake, &self.filed, servers)?;
        self.stuck.follow(servers, &mut self.awake)?;
        forget_crashed(&mut self.filed, servers);
        Ok(())
    }
}
