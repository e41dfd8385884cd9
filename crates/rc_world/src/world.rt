//! A world.

ghost use Rattle.std.specs.Prelude.{◌≡◌, ◌⊎◌, ◌↔◌, ◌∷◌, ◌≤◌, [], true, false, None, length};
ghost use Rattle.std.specs.Prelude.{IfOk, IfErr, OnOk, OnErr, option_map};
ghost use Rattle.rc_types.specs.declared.faults.Fault.TheVariants.{OutOfMemory, BadEvent};
ghost use Rattle.rc_types.specs.declared.ids.Addr.TheVariants.{Server};
ghost use Rattle.rc_types.specs.declared.limits.TheConstants.{MAX_EVENTS};
ghost use Rattle.rc_model.specs.Backup.{open_names};
ghost use Rattle.rc_model.specs.Nodes.{is_running_at};
ghost use Rattle.rc_model.specs.Breach.{breach};
ghost use Rattle.rc_model.specs.Headline.{NothingIsDropped};
ghost use Rattle.rc_backup.specs.BackupView.{backup_of};
ghost use Rattle.rc_coordinator.specs.Book.{coordinator_of};
ghost use Rattle.rc_master.specs.Data.{master_of};
ghost use Rattle.rc_world.specs.HostView.{IsWithinLimits, backup_once_started};
ghost use Rattle.rc_world.specs.Kept.{KeepsLogs, KeepsOwners, KeepsWrites};
ghost use Rattle.rc_promises.specs.Linearizable.{IsLinearizable};
ghost use Rattle.rc_world.specs.Served.{IsServed};
ghost use Rattle.rc_world.specs.Happened.{opened, replayed, with_events, sent_in, can_happen, AllHappen};

use crate::nodes::Nodes;
use rc_backup::Backup;
use rc_coordinator::Coordinator;
use rc_master::Master;
use rc_types::limits::MAX_EVENTS;
use rc_types::{Event, Fault, Message, ServerId, Setup, TryClone};
use std::alloc::{AllocError, Allocator, Global};
use std::fmt;
use std::marker::Model;

/// All nodes, and all that has happened. As a value it is what it was opened with and its list of
/// events: all else in it is what these events lead to.
pub struct World<A: Allocator> {
    pub(crate) nodes: Nodes<A>,
    pub(crate) sent: Vec<Message>,
    pub(crate) events: Vec<Event>,
}

impl<A: Allocator> Drop for World<A> {
    fn drop(self) {
        let World {
            nodes: _,
            sent: _,
            events: _,
        } = self;
    }
}

/// For a debugger it is how much has happened, and how much was sent.
impl<A: Allocator> fmt::Debug for World<A> {
    fn fmt<W: fmt::Write>(&self, f: &mut fmt::Formatter<W>) -> fmt::Result {
        let events = self.events.len();
        write!(
            f,
            "world after {events} events, {} messages",
            self.sent.len()
        )
    }
}

impl<A: Allocator> Model for World<A> {
    ghost use Rattle.rc_world.specs.Happened.{Happened};

    ghost Value = { Happened };

    ghost use Rattle.rc_world.specs.WorldHolds.{WorldHolds};

    ghost view = { λ w. record { setup = w.nodes.setup; events = w.events.items } };

    ghost invariant = { λ w. WorldHolds w.nodes w.sent.items w.events.items };
}

impl<A: Allocator + Clone> World<A> {
    /// A world in which nothing has happened. Its tablets lie in memory of the second allocator. It
    /// takes no memory.
    pub fn new(alloc: Global, setup: Setup, tablets: A) -> World<A>
        requires { IsWithinLimits setup }
        ensures { result ≡ opened setup }
    {
        World {
            nodes: Nodes::new(alloc, setup, tablets),
            sent: Vec::new(alloc),
            events: Vec::new(alloc),
        }
    }

    /// All messages ever sent, in order; a message's number is its place, from 0.
    ///
    /// The headline holds of them. For each accepted recovery of a master, whatever has happened: each
    /// write that this master has acknowledged, then or since, is in the recovered log at its place, or a
    /// greater version of its key under its term is; each recovered entry is the one that this master sent
    /// for that place; and a write acknowledged under a later ownership of a key has a greater version than
    /// each one acknowledged, then or since, under an earlier one. Where masters free nothing, each
    /// acknowledged write itself is at its own place.
    ///
    /// So does what a client may rely on: an acknowledged version of a key is one write; a write that was first asked
    /// for after a write of its key was acknowledged, and is itself acknowledged, has a greater version; and of all
    /// that was acknowledged before its answer a read misses only what was acknowledged under a later term.
    ///
    /// And they are linearizable: for each key, the writes that were acknowledged and the reads that were confirmed are
    /// one sequence, in the order of their versions, which keeps the order of time and in which each read shows the
    /// value of the last write before it. A read is confirmed where its master has acknowledged a write, of any key,
    /// for whose place it had sent nothing when it answered.
    pub fn sent(&self) -> &[Message]
        ensures messages { result.now ≡ sent_in self.now }
        ensures served { IsServed self.now result.now }
        ensures linearizable { IsLinearizable result.now }
        ensures headline { breach result.now ≡ None }
        ensures strong { self.now.setup.free ≡ false → NothingIsDropped result.now }
    {
        self.sent.as_slice()
    }

    /// What else is kept in every world; the call itself does nothing.
    ///
    /// A place has one entry; each replica has a beginning of what its master made, and a closed one all of it; and so
    /// has a recovered log. The data that a recovery master gets are its plan's log, cut to the part; a range that is
    /// granted in a recovery starts from its base, durably; of two terms granted for a point one is the earlier, and
    /// less; under a term a key's versions rise with the place, and no two owners acknowledge one version of a key.
    /// What was acknowledged, and what is durable, each later owner of its point has made too, at a durable place, or,
    /// where segments are freed, a greater version of its key.
    pub fn kept(&self)
        ensures logs { KeepsLogs self.now }
        ensures owners { KeepsOwners self.now }
        ensures writes { KeepsWrites self.now }
    {
        // what is true of its fields is known where one is named
        let _ = &self.events;
    }

    /// All events that have happened, in order.
    pub fn events(&self) -> &[Event]
        ensures events { result.now ≡ self.now.events }
        ensures possible { AllHappen (opened self.now.setup) result.now }
        ensures few { length result.now ≤ MAX_EVENTS }
    {
        self.events.as_slice()
    }

    /// Whether the server runs. It takes no memory.
    pub fn is_running(&self, id: ServerId) -> bool
        ensures { result ≡ is_running_at ((replayed self.now).hosts id.index) (Server id) }
    {
        self.nodes.is_running(id)
    }

    /// The newest generation of a host, 0 where it never started. It takes no memory.
    pub fn newest(&self, host: u8) -> u32
        ensures { result ≡ ((replayed self.now).hosts host).generation }
    {
        self.nodes.newest(host)
    }

    /// The coordinator, to be looked at. It takes no memory.
    pub fn coordinator(&self) -> &Coordinator<A>
        ensures { coordinator_of result.now ≡ (replayed self.now).coordinator }
    {
        &self.nodes.coordinator
    }

    /// The master that runs on the host, to be looked at; none where no server runs there. It takes no memory.
    pub fn master(&self, host: u8) -> Option<&Master>
        ensures { option_map (λ master. master_of master.now) result ≡ ((replayed self.now).hosts host).master }
    {
        self.nodes.master(host)
    }

    /// What the host keeps as a backup, to be looked at; none where it was never started. It takes no memory.
    pub fn backup(&self, host: u8) -> Option<&Backup>
        ensures { option_map (λ backup. backup_of backup.now) result ≡
            backup_once_started ((replayed self.now).hosts host) }
    {
        self.nodes.backup(host)
    }

    /// The names of the host's open replicas, master and segment, in order of master and then of
    /// segment.
    ///
    /// # Errors
    ///
    /// `OutOfMemory` (F1): the memory for the list was refused.
    pub fn open_replicas(&self, host: u8) -> Result<Vec<(ServerId, u16)>, AllocError>
        ensures { IfOk result (λ names. names.items ≡ open_names ((replayed self.now).hosts host).backup) }
    {
        self.nodes.open_replicas(host)
    }

    /// One more event.
    ///
    /// # Errors
    ///
    /// `BadEvent` (F18): the event is not possible, or 200,000 events have happened. `OutOfMemory`
    /// (F1): memory was refused. After either the world is as it was.
    pub fn take(&mut self, alloc: Global, event: &Event) -> Result<(), Fault>
        ensures ok { OnOk result (self.new ≡ with_events self.old (event.now ∷ [])) }
        ensures possible { OnOk result (can_happen self.old event.now ≡ true) }
        ensures bad { (result ≡ Err BadEvent) ↔ (can_happen self.old event.now ≡ false) }
        ensures fault { IfErr result (λ fault. (fault ≡ OutOfMemory) ⊎ (fault ≡ BadEvent)) }
        ensures err { OnErr result (self.new ≡ self.old) }
    {
        if self.events.len() >= MAX_EVENTS || !self.nodes.is_possible(event, self.sent.as_slice()) {
            return Err(Fault::BadEvent);
        }
        let copy = event.try_clone(alloc)?;
        self.events.reserve(1)?;
        self.nodes.take(event, &mut self.sent)?;
        self.events.push(copy).unwrap();
        Ok(())
    }
}
