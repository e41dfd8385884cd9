//! Segments with lost members whom nobody can replace.

ghost use Rattle.std.specs.Prelude.{◌≡◌, ◌&&◌, ◌||◌, ℕ, true, false, not, OnOk, IfOk};
ghost use Rattle.std.specs.List.{list_all};
ghost use Rattle.rc_types.specs.declared.ids.ServerId.{ServerId as Id};
ghost use Rattle.rc_model.specs.ServerList.{has_crashed};
ghost use Rattle.rc_headroll.specs.Watching.{has_number, is_helpless, are_marked};

use crate::numbers::Numbers;
use rc_config::Config;
use rc_serverlist::ServerList;
use rc_types::{Fault, Member, ServerId};
use std::alloc::{AllocError, Global};
use std::marker::Model;

/// Segments with lost members, and a server list that has nobody for them. While a master knows this list, its list
/// rules can do nothing about them.
#[derive(Drop)]
pub(crate) struct Stuck {
    alloc: Global,
    segs: Numbers,
    servers: ServerList,
    /// Whether a segment with lost members was ever to be added, so that the list is of use.
    is_wanted: bool,
}

impl Model for Stuck {
    ghost use Rattle.rc_headroll.specs.Watching.{StuckUnder};

    ghost Value = { StuckUnder };

    ghost view = { λ s. record { segs = s.segs; servers = s.servers } };
}

impl Stuck {
    /// No segment is stuck. It takes no memory.
    pub(crate) fn new(alloc: Global) -> Stuck {
        Stuck {
            alloc,
            segs: Numbers::new(alloc),
            servers: ServerList::new(alloc),
            is_wanted: false,
        }
    }

    /// Adds a segment with these members, if some of them are lost whom nobody of the list can replace, and it shows
    /// none of the others crashed; the answer says whether it did. Where memory is refused, it is not added.
    pub(crate) fn add(
        &mut self,
        own: ServerId,
        seg: u16,
        config: &Config,
    ) -> Result<bool, AllocError>
        ensures added { IfOk result (λ added. added ≡ true →
            (has_number self.new.segs seg && is_helpless own self.new.servers config.now) ≡ true) }
        ensures others { (other : ℕ) → has_number self.old.segs other ≡ true → has_number self.new.segs other ≡ true }
        ensures servers { self.new.servers ≡ self.old.servers }
    {
        self.is_wanted = true;
        if !is_helpless(self.alloc, own, &self.servers, config)? {
            return Ok(false);
        }
        self.segs.insert(seg)?;
        Ok(true)
    }

    /// From here on no segment is stuck under another list than this one: those that were are awake. The list is kept
    /// where it is of use. Where memory is refused, some segments may be awake.
    pub(crate) fn follow(
        &mut self,
        servers: &ServerList,
        awake: &mut Numbers,
    ) -> Result<(), AllocError>
        ensures listed { OnOk result ((seg : ℕ) → has_number self.new.segs seg ≡ true →
            self.new.servers ≡ servers.now) }
        ensures stuck { (seg : ℕ) → has_number self.old.segs seg ≡ true → has_number awake.new seg ≡ false →
            (has_number self.new.segs seg ≡ true) × (self.new.servers ≡ self.old.servers) }
        ensures awake { (seg : ℕ) → has_number awake.old seg ≡ true → has_number awake.new seg ≡ true }
    {
        if self.is_under(servers)? {
            return Ok(());
        }
        let copy = servers.try_clone(self.alloc)?;
        awake.insert_all(&self.segs)?;
        self.segs = Numbers::new(self.alloc);
        self.servers = copy;
        Ok(())
    }

    /// Whether no segment is stuck under another list than this one, and this one need not be kept. Where none is
    /// stuck, the versions alone are compared.
    fn is_under(&self, servers: &ServerList) -> Result<bool, AllocError>
        ensures { IfOk result (λ under. under ≡ true → (seg : ℕ) → has_number self.now.segs seg ≡ true →
            self.now.servers ≡ servers.now) }
    {
        if self.segs.is_empty() && !self.is_wanted {
            return Ok(true);
        }
        if self.servers.version() != servers.version() {
            return Ok(false);
        }
        if self.segs.is_empty() {
            return Ok(true);
        }
        let rows = self.servers.rows(self.alloc)?;
        let others = servers.rows(self.alloc)?;
        Ok(are_same(rows.as_slice(), others.as_slice()))
    }
}

/// Whether these rows are the same.
fn are_same(rows: &[(ServerId, bool)], others: &[(ServerId, bool)]) -> bool
    ensures { result ≡ true → rows.now ≡ others.now }
{
    if rows.len() != others.len() {
        return false;
    }
    for (place, row) in rows.iter().enumerate() {
        if *row != others[place] {
            return false;
        }
    }
    true
}

/// Whether members are lost whom nobody of the list can replace, and it shows none of the others crashed.
fn is_helpless(
    alloc: Global,
    own: ServerId,
    servers: &ServerList,
    config: &Config,
) -> Result<bool, AllocError>
    ensures { IfOk result (λ helpless. helpless ≡ true → is_helpless own servers.now config.now ≡ true) }
{
    if !are_marked(config.members(), servers) {
        return Ok(false);
    }
    match config.copy().refill(alloc, own, servers) {
        Ok(_) => Ok(false),
        Err(Fault::NoBackups) => Ok(true),
        Err(fault) => Err(fault.only_memory()),
    }
}

/// Whether each of these members that the list shows crashed is known lost.
fn are_marked(members: &[Member], servers: &ServerList) -> bool
    ensures { result ≡ are_marked servers.now members.now }
{
    members
        .iter()
        .all(|member| member.lost || !servers.has_crashed(member.id))
}
