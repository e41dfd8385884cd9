//! One segment of a log, in its master's own view.

ghost use Rattle.std.specs.Prelude.{◌≡◌, ◌⊎◌, ◌≤◌, Ok, Err, true, map, length, nat_eq, OnOk, OnErr, IfOk, IfErr};
ghost use Rattle.rc_types.specs.declared.faults.Fault.TheVariants.{OutOfMemory};
ghost use Rattle.rc_model.specs.Config.{notes, noted, committed_at};
ghost use Rattle.rc_config.specs.Resting.{have_told};

use crate::state::SegmentState;
use crate::{Config, MAX_MEMBERS, MemberIds};
use rc_serverlist::ServerList;
use rc_types::{Entry, Fault, Member, ServerId, Shared};
use std::alloc::{AllocError, Global};
use std::marker::Model;

/// One segment of a log: its digest, its entries, its members, and how far it has come. "The master" in
/// `docs/PROTOCOL.md` has the rules.
pub struct Segment {
    digest: Shared<u16>,
    entries: Vec<(Entry, bool)>,
    config: Config,
    commit_sent: bool,
    closes_sent: MemberIds,
    shut: bool,
    freed: bool,
}

impl Drop for Segment {
    fn drop(self) {
        let Segment {
            digest: _,
            entries: _,
            config: _,
            commit_sent: _,
            closes_sent: _,
            shut: _,
            freed: _,
        } = self;
    }
}

impl Model for Segment {
    ghost use Rattle.rc_model.specs.Segment.{Segment as SegmentModel};

    ghost Value = { SegmentModel };

    ghost view = { λ s. record {
      digest = s.digest;
      entries = s.entries.items;
      config = s.config;
      commit_sent = s.commit_sent;
      closes_sent = s.closes_sent;
      shut = s.shut;
      freed = s.freed;
    } };
}

impl Segment {
    ghost use Rattle.rc_model.specs.Segment.{new_segment, with_entry, is_unclosed, has_unclosed, with_closes_sent};
    ghost use Rattle.rc_model.specs.Segment.{is_ready, is_all_closed, durable_in};
    ghost use Rattle.rc_model.specs.FollowUps.{wants_commit};
    ghost use Rattle.rc_model.specs.MasterTick.{awaits_commit};
    ghost use Rattle.rc_config.specs.Resting.{wants_nothing};
    ghost use Rattle.rc_config.specs.Losing.{segment_loses};
    ghost use Rattle.rc_config.specs.States.{state_of, with_state};
    ghost use Rattle.rc_config.specs.Concerned.{is_concerned};

    /// A segment as it is opened with this digest on these members. It takes no memory.
    pub fn new(alloc: Global, seg: u16, digest: Shared<u16>, ids: &[ServerId]) -> Segment
        requires { length ids.now ≤ MAX_MEMBERS }
        ensures { result ≡ new_segment seg digest ids.now }
    {
        Segment {
            digest,
            entries: Vec::new(alloc),
            config: Config::new(seg, ids),
            commit_sent: false,
            closes_sent: MemberIds::none(),
            shut: false,
            freed: false,
        }
    }

    /// The segments that make up the log when this one is opened, ascending.
    pub fn digest(&self) -> &[u16]
        ensures { result.now ≡ self.now.digest }
    {
        self.digest.as_slice()
    }

    /// One more owner of the digest. It fails only where more owners can't be counted.
    pub fn share_digest(&self) -> Result<Shared<u16>, AllocError>
        ensures { IfOk result (λ digest. digest ≡ self.now.digest) }
    {
        self.digest.share()
    }

    /// The entries in order, each with a mark whether a client wrote it.
    pub fn entries(&self) -> &[(Entry, bool)]
        ensures { result.now ≡ self.now.entries }
    {
        self.entries.as_slice()
    }

    /// How many entries there are.
    pub fn len(&self) -> usize
        ensures { result ≡ length self.now.entries }
    {
        self.entries.len()
    }

    /// Whether there is no entry.
    pub fn is_empty(&self) -> bool
        ensures { result ≡ nat_eq (length self.now.entries) 0 }
    {
        self.entries.is_empty()
    }

    /// The members, and the epoch under which they are.
    pub fn config(&self) -> &Config
        ensures { result.now ≡ self.now.config }
    {
        &self.config
    }

    /// Whether no Close was sent to this member under the present epoch.
    pub fn is_unclosed(&self, member: &Member) -> bool
        ensures { result ≡ is_unclosed self.now member.now }
    {
        !self.closes_sent.has(member.id)
    }

    /// Whether to some member no Close was sent under the present epoch.
    pub(crate) fn has_unclosed(&self) -> bool
        ensures { result ≡ has_unclosed self.now }
    {
        self.config
            .members()
            .iter()
            .any(|member| self.is_unclosed(member))
    }

    /// Whether the segment was, at one moment, closed on all members of a committed epoch.
    pub fn is_shut(&self) -> bool
        ensures { result ≡ self.now.shut }
    {
        self.shut
    }

    /// Whether a newer head writes whose digest leaves this segment out.
    pub fn is_freed(&self) -> bool
        ensures { result ≡ self.now.freed }
    {
        self.freed
    }

    /// Whether it is placed on all its members, under a committed epoch.
    pub(crate) fn is_ready(&self) -> bool
        ensures { result ≡ is_ready self.now }
    {
        self.config.is_committed() && self.config.all_placed()
    }

    /// Whether it is closed on all its members, under a committed epoch.
    pub(crate) fn is_all_closed(&self) -> bool
        ensures { result ≡ is_all_closed self.now }
    {
        self.config.is_committed() && self.config.all_closed()
    }

    /// Whether it is placed on all its members under an epoch that is not committed, and no Commit of
    /// that epoch was sent.
    pub fn wants_commit(&self) -> bool
        ensures { result ≡ wants_commit self.now }
    {
        !self.config.is_committed() && (self.config.all_placed() && !self.commit_sent)
    }

    /// Whether a Commit was sent and not answered, and the segment is placed on all its members.
    pub fn awaits_commit(&self) -> bool
        ensures { result ≡ awaits_commit self.now }
    {
        self.commit_sent && (!self.config.is_committed() && self.config.all_placed())
    }

    /// Whether the timer says nothing of it: it is shut under a committed epoch, and was freed or each of its
    /// members has told something, lost or not.
    pub fn wants_nothing(&self) -> bool
        ensures { result ≡ wants_nothing self.now }
    {
        self.shut
            && (self.config.is_committed() && (self.freed || have_told(self.config.members())))
    }

    /// Whether a member is lost, or the list shows one crashed.
    pub fn is_concerned(&self, servers: &ServerList) -> bool
        ensures { result ≡ is_concerned servers.now self.now }
    {
        self.config
            .members()
            .iter()
            .any(|member| member.lost || servers.has_crashed(member.id))
    }

    /// How many of its entries all members have.
    pub fn durable_len(&self) -> usize
        ensures { result ≡ durable_in self.now }
    {
        self.config.durable_len().min(self.entries.len())
    }

    /// Adds an entry at the end. Where memory is refused, the segment is as it was.
    pub fn push(&mut self, entry: Entry, client: bool) -> Result<(), AllocError>
        ensures ok { OnOk result (self.new ≡ with_entry entry client self.old) }
        ensures err { OnErr result (self.new ≡ self.old) }
    {
        self.entries.push((entry, client))?;
        Ok(())
    }

    /// Notes what a server has told, as the members do.
    pub fn stored(&mut self, from: ServerId, epoch: u16, len: usize, closed: bool) -> bool
        ensures notes { result ≡ notes from epoch self.old.config }
        ensures noted { self.new ≡ record self.old { config = noted from epoch len closed self.old.config } }
    {
        self.config.stored(from, epoch, len, closed)
    }

    /// Notes that an epoch is committed.
    pub fn committed_at(&mut self, epoch: u16)
        ensures { self.new ≡ record self.old { config = committed_at epoch self.old.config } }
    {
        self.config.committed_at(epoch);
    }

    /// Marks that a Commit was sent.
    pub fn mark_commit_sent(&mut self)
        ensures { self.new ≡ record self.old { commit_sent = true } }
    {
        self.commit_sent = true;
    }

    /// Marks that a Close was sent to each member.
    pub fn mark_close_sent(&mut self)
        ensures { self.new ≡ with_closes_sent self.old }
    {
        self.closes_sent = self.config.ids();
    }

    /// Marks the segment shut.
    pub fn mark_shut(&mut self)
        ensures { self.new ≡ record self.old { shut = true } }
    {
        self.shut = true;
    }

    /// Marks the segment freed.
    pub fn mark_freed(&mut self)
        ensures { self.new ≡ record self.old { freed = true } }
    {
        self.freed = true;
    }

    /// What a step can change of it.
    pub fn state(&self) -> SegmentState
        ensures { result ≡ state_of self.now }
    {
        SegmentState {
            len: self.entries.len(),
            config: self.config.copy(),
            commit_sent: self.commit_sent,
            closes_sent: self.closes_sent.copy(),
            shut: self.shut,
            freed: self.freed,
        }
    }

    /// It is as it was, but for its digest.
    pub fn put_back(&mut self, state: &SegmentState)
        ensures { self.new ≡ with_state state.now self.old }
    {
        self.entries.truncate(state.len);
        self.config = state.config.copy();
        self.commit_sent = state.commit_sent;
        self.closes_sent = state.closes_sent.copy();
        self.shut = state.shut;
        self.freed = state.freed;
    }

    /// Replaces members that are lost or that the list shows crashed: of an open segment as `Config::lose` does, of a
    /// shut one as `Config::refill` does. Answers who is to be sent a Place. After F4 and F19 members are marked lost;
    /// where memory is refused, nothing has changed.
    pub fn lose(
        &mut self,
        alloc: Global,
        own: ServerId,
        servers: &ServerList,
    ) -> Result<Vec<ServerId>, Fault>
        ensures ok { IfOk result (λ ids. segment_loses own servers.now self.old ≡ (self.new, Ok ids.items)) }
        ensures err { IfErr result (λ fault. ((fault ≡ OutOfMemory) × (self.new ≡ self.old))
            ⊎ (segment_loses own servers.now self.old ≡ (self.new, Err fault))) }
    {
        if self.shut {
            return self.config.refill(alloc, own, servers);
        }
        let mut config = self.config.copy();
        match config.lose(alloc, own, servers) {
            Ok(true) => {
                let ids = ids_of(alloc, config.members())?;
                self.config = config;
                self.commit_sent = false;
                self.closes_sent = MemberIds::none();
                Ok(ids)
            }
            Ok(false) => {
                self.config = config;
                Ok(Vec::new(alloc))
            }
            Err(fault) => {
                self.config = config;
                Err(fault)
            }
        }
    }
}

/// Whether each of these members has told something, lost or not.
fn have_told(members: &[Member]) -> bool
    ensures { result ≡ have_told members.now }
{
    members.iter().all(|member| member.told.is_some())
}

/// The ids of members, in their order.
fn ids_of(alloc: Global, members: &[Member]) -> Result<Vec<ServerId>, AllocError>
    ensures { IfOk result (λ ids. ids.items ≡ map (λ member. member.id) members.now) }
{
    members.iter().map(|member| member.id).collect(alloc)
}
