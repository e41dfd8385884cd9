//! A master, as its callers see it.

ghost use Rattle.std.specs.Prelude.{◌≡◌, ◌↔◌, ◌++◌, true, IfOk, OnOk, OnErr};
ghost use Rattle.rc_model.specs.Master.{new_master};
ghost use Rattle.rc_model.specs.MasterStep.{master_takes, master_ticks};
ghost use Rattle.rc_master.specs.Data.{master_of};
ghost use Rattle.rc_master.specs.Numbers.{HasVersions, IsMasterSetup};
ghost use Rattle.rc_master.specs.Steps.{steps};

use crate::state::State;
use rc_headroll::LogHead;
use rc_types::{Addr, Body, MasterSetup, Message, NodeWork, ServerId};
use std::alloc::{AllocError, Global};
use std::fmt;
use std::marker::Model;

/// One master. It keeps a log of which each segment has replicas on other hosts, takes writes and
/// reads of the ranges that it was granted, and recovers parts of crashed masters' logs. Contracts
/// see its log as the list of its segments.
pub struct Master {
    pub(crate) state: State,
}

impl Drop for Master {
    fn drop(self) {
        let Master { state: _ } = self;
    }
}

/// For a debugger it is its id, its head, and how many places of its log are durable.
impl fmt::Debug for Master {
    fn fmt<W: fmt::Write>(&self, f: &mut fmt::Formatter<W>) -> fmt::Result {
        let log = self.log();
        write!(
            f,
            "master {} with head {}, {} durable",
            log.own(),
            log.head(),
            log.durable()
        )
    }
}

impl Model for Master {
    ghost use Rattle.rc_master.specs.Data.{MasterData};

    ghost Value = { MasterData };

    ghost use Rattle.rc_master.specs.View.{data_of, IsWaiting};

    ghost view = { λ m. data_of m.state };

    ghost invariant = { λ m. IsWaiting m.state };
}

impl Master {
    /// A master that knows nobody, owns nothing and has no head. It takes no memory.
    pub fn new(alloc: Global, own: ServerId, setup: MasterSetup) -> Master
        requires { IsMasterSetup setup }
        ensures { master_of result ≡ new_master own setup }
    {
        Master {
            state: State::new(alloc, own, setup),
        }
    }

    /// Whose log it is.
    pub fn id(&self) -> ServerId
        ensures { result ≡ (master_of self.now).log.own }
    {
        self.state.log.own()
    }

    /// Its log: the phase, and each segment with its members and what these have told. It takes no memory.
    pub fn log(&self) -> &LogHead
        ensures { result.now ≡ self.now.log }
    {
        &self.state.log
    }

    /// Whether it has learnt that the coordinator holds it for dead.
    pub fn is_deposed(&self) -> bool
        ensures { result ≡ (master_of self.now).deposed }
    {
        self.state.deposed
    }

    /// Whether its numbers suffice for one more step, as the steps ask for: each entry of its log leaves room for one
    /// more version of its key. It takes no memory, and its cost does not grow with the log.
    pub fn has_room(&self) -> bool
        ensures { (result ≡ true) ↔ HasVersions (master_of self.now) }
    {
        self.state.ownership.leaves_room()
    }

    /// Takes a message, follows up until no rule applies, and adds what it sends to those sent.
    ///
    /// - A Write is refused for its length (F7), for its owner (F2), for the phase (F3) or because the
    ///   head is full (F3 where a roll begins by it, else F6 or F4), in this order; else it is appended,
    ///   and acknowledged once it is durable. A Read is refused for its owner (F2); else it is answered
    ///   by the greatest durable version.
    /// - A List that is newer than the known one is taken: lost members are replaced, and the first head
    ///   is opened. A Stored and a CommitOk are noted. A Plan's parts are fetched; Data of a part is
    ///   replayed once all of it has come. An Own grants a range.
    /// - A master that the coordinator refuses by F5 is deposed: from then on it refuses clients (F5) and
    ///   does nothing else.
    ///
    /// # Errors
    ///
    /// `OutOfMemory` (F1): memory was refused. Then the master and what was sent are as before.
    pub fn take(
        &mut self,
        from: Addr,
        body: &Body,
        sent: &mut Vec<Message>,
    ) -> Result<(), AllocError>
        requires { HasVersions (master_of self.old) }
        ensures state { OnOk result (master_of self.new ≡ (master_takes (master_of self.old) from body.now).0) }
        ensures sends { OnOk result (sent.new.items ≡ sent.old.items ++
            (master_takes (master_of self.old) from body.now).1) }
        ensures err { OnErr result (master_of self.new ≡ master_of self.old) }
        ensures unsent { OnErr result (sent.new.items ≡ sent.old.items) }
    {
        self.state.take(from, body, sent)
    }

    /// Takes the timer: a master that isn't up by its list enlists; another replaces members that are
    /// lost, and says again what was not answered. Then it follows up until no rule applies.
    ///
    /// # Errors
    ///
    /// `OutOfMemory` (F1): memory was refused. Then the master and what was sent are as before.
    pub fn tick(&mut self, sent: &mut Vec<Message>) -> Result<(), AllocError>
        ensures state { OnOk result (master_of self.new ≡ (master_ticks (master_of self.old)).0) }
        ensures sends { OnOk result (sent.new.items ≡ sent.old.items ++ (master_ticks (master_of self.old)).1) }
        ensures err { OnErr result (master_of self.new ≡ master_of self.old) }
        ensures unsent { OnErr result (sent.new.items ≡ sent.old.items) }
    {
        self.state.tick(sent)
    }

    /// Takes a work: a message or the timer. Another one is for other nodes, and does nothing.
    ///
    /// # Errors
    ///
    /// `OutOfMemory` (F1): memory was refused. Then the master and what was sent are as before.
    pub fn step_into(&mut self, work: &NodeWork, sent: &mut Vec<Message>) -> Result<(), AllocError>
        requires { HasVersions (master_of self.old) }
        ensures state { OnOk result (master_of self.new ≡ (steps (master_of self.old) work.now).0) }
        ensures sends { OnOk result (sent.new.items ≡ sent.old.items ++ (steps (master_of self.old) work.now).1) }
        ensures err { OnErr result (master_of self.new ≡ master_of self.old) }
        ensures unsent { OnErr result (sent.new.items ≡ sent.old.items) }
    {
        match work {
            NodeWork::Deliver(message) => self.take(message.from, &message.body, sent),
            NodeWork::Tick => self.tick(sent),
            _ => Ok(()),
        }
    }

    /// Takes a work, and gives what follows, as `step_into` does.
    ///
    /// # Errors
    ///
    /// `OutOfMemory` (F1): memory was refused. Then the master is as before.
    pub fn step(&mut self, work: &NodeWork) -> Result<Vec<Message>, AllocError>
        requires { HasVersions (master_of self.old) }
        ensures state { OnOk result (master_of self.new ≡ (steps (master_of self.old) work.now).0) }
        ensures sends { IfOk result (λ sent. sent.items ≡ (steps (master_of self.old) work.now).1) }
        ensures err { OnErr result (master_of self.new ≡ master_of self.old) }
    {
        let mut sent = Vec::new(self.state.alloc);
        self.step_into(work, &mut sent)?;
        Ok(sent)
    }
}
