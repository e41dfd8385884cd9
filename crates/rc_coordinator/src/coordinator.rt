//! The coordinator, as its callers see it.

ghost use Rattle.std.specs.Prelude.{◌≡◌, ◌↔◌, ◌++◌, ◌^◌, ◌<◌, true, length, IfOk, OnOk, OnErr, IfErr};
ghost use Rattle.rc_model.specs.Coordinator.{new_coordinator};
ghost use Rattle.rc_model.specs.CoordinatorStep.{coordinator_takes};
ghost use Rattle.rc_rangetree.specs.Ranges.{AreTablets};
ghost use Rattle.rc_coordinator.specs.Book.{IsBook, coordinator_of};
ghost use Rattle.rc_model.specs.Nodes.{coordinator_step};
ghost use Rattle.rc_coordinator.specs.Steps.{HasNumbers};
ghost use Rattle.rc_coordinator.specs.declared.lists.ListsFault.TheVariants.{NoCoordinator};

use crate::lists::{Lists, ListsFault};
use crate::making;
use crate::ready::Ready;
use crate::state::State;
use indexmap::IndexMap;
use rc_attempts::Attempt;
use rc_serverlist::ServerList;
use rc_types::{Grant, Message, NodeWork, Pair, ServerId, Tablet};
use std::alloc::{AllocError, Allocator, Global};
use std::fmt;
use std::marker::Model;

/// The one coordinator. It enlists servers and spreads the list of them, creates and splits tables
/// and grants them to masters, keeps the least pair of each master, and recovers a crashed master's
/// tablets from what the backups tell of its log. The tablets lie in memory of the allocator `A`,
/// and everything else in that of `Global`. Contracts see it as a book: its tables as the lists of
/// their entries.
pub struct Coordinator<A: Allocator> {
    pub(crate) state: State<A>,
}

impl<A: Allocator> Drop for Coordinator<A> {
    fn drop(self) {
        let Coordinator { state: _ } = self;
    }
}

/// For a debugger it is how many servers it knows, and how many attempts it has begun.
impl<A: Allocator> fmt::Debug for Coordinator<A> {
    fn fmt<W: fmt::Write>(&self, f: &mut fmt::Formatter<W>) -> fmt::Result {
        let servers = self.state.servers.len();
        let attempts = self.state.recoveries.count();
        write!(f, "coordinator of {servers} servers, {attempts} attempts")
    }
}

impl<A: Allocator> Model for Coordinator<A> {
    ghost use Rattle.rc_coordinator.specs.Book.{Book};

    ghost Value = { Book };

    ghost use Rattle.rc_coordinator.specs.View.{book_of};

    ghost view = { λ c. book_of c.state };
}

impl<A: Allocator + Clone> Coordinator<A> {
    /// A coordinator that knows nobody and has no table. It takes no memory.
    pub fn new(alloc: Global, tablets_alloc: A) -> Coordinator<A>
        ensures { coordinator_of result ≡ new_coordinator }
    {
        Coordinator {
            state: State::new(alloc, tablets_alloc),
        }
    }

    /// Whether its numbers suffice for one more step, as the steps ask for: those of lists, attempts and terms. It
    /// takes no memory, and its cost does not grow with what it knows.
    pub fn has_room(&self) -> bool
        ensures { (result ≡ true) ↔ HasNumbers (coordinator_of self.now) }
    {
        self.state.has_room()
    }

    /// Takes a work, and adds what follows to those sent.
    ///
    /// What follows each kind of message and each order is said where it is taken: `enlisting` has who is up,
    /// `granting` who owns what, `deciding` which log is recovered, `asking` the timer. Anything else does nothing.
    ///
    /// # Errors
    ///
    /// `OutOfMemory` (F1): memory was refused. Then the coordinator and what was sent are as before.
    pub fn step_into(&mut self, work: &NodeWork, sent: &mut Vec<Message>) -> Result<(), AllocError>
        requires { HasNumbers (coordinator_of self.old) }
        ensures state { OnOk result (coordinator_of self.new ≡
            (coordinator_step (coordinator_of self.old) work.now).0) }
        ensures sends { OnOk result (sent.new.items ≡
            sent.old.items ++ (coordinator_step (coordinator_of self.old) work.now).1) }
        ensures err { OnErr result (self.new ≡ self.old) }
        ensures unsent { OnErr result (sent.new.items ≡ sent.old.items) }
    {
        self.state.step_into(work, sent)
    }

    /// Takes a message, as `step_into` does with a delivery of it. The message is not copied.
    ///
    /// # Errors
    ///
    /// `OutOfMemory` (F1): memory was refused. Then the coordinator and what was sent are as before.
    pub fn take(&mut self, message: &Message, sent: &mut Vec<Message>) -> Result<(), AllocError>
        requires { HasNumbers (coordinator_of self.old) }
        ensures state { OnOk result (coordinator_of self.new ≡
            (coordinator_takes (coordinator_of self.old) message.now.from message.now.body).0) }
        ensures sends { OnOk result (sent.new.items ≡
            sent.old.items ++ (coordinator_takes (coordinator_of self.old) message.now.from message.now.body).1) }
        ensures err { OnErr result (self.new ≡ self.old) }
        ensures unsent { OnErr result (sent.new.items ≡ sent.old.items) }
    {
        self.state.take(message.from, &message.body, sent)
    }

    /// Takes a work, and gives what follows, as `step_into` does.
    ///
    /// # Errors
    ///
    /// `OutOfMemory` (F1): memory was refused. Then the coordinator is as before.
    pub fn step(&mut self, work: &NodeWork) -> Result<Vec<Message>, AllocError>
        requires { HasNumbers (coordinator_of self.old) }
        ensures state { OnOk result (coordinator_of self.new ≡
            (coordinator_step (coordinator_of self.old) work.now).0) }
        ensures sends { IfOk result (λ sent. sent.items ≡ (coordinator_step (coordinator_of self.old) work.now).1) }
        ensures err { OnErr result (self.new ≡ self.old) }
    {
        let mut sent = Vec::new(self.state.alloc);
        self.step_into(work, &mut sent)?;
        Ok(sent)
    }
}

/// What it knows, to be written down, and a coordinator made of that again.
impl<A: Allocator + Clone> Coordinator<A> {
    /// The coordinator that knows this, exactly. Its tablets lie in memory of the second allocator.
    ///
    /// # Errors
    ///
    /// `NoCoordinator`: no coordinator knows this, since an id stands twice in a table, or the tablets are none of a
    /// tree, or there are more attempts than numbers for them. `OutOfMemory`: memory was refused.
    pub fn from_lists(
        alloc: Global,
        tablets_alloc: A,
        lists: Lists,
    ) -> Result<Coordinator<A>, ListsFault>
        ensures ok { IfOk result (λ coordinator. coordinator ≡ lists) }
        ensures refused { IfErr result (λ fault. fault ≡ NoCoordinator → IsBook lists → ⊥) }
    {
        match making::state_of(alloc, tablets_alloc, lists) {
            Ok(state) => Ok(Coordinator { state }),
            Err(fault) => Err(fault),
        }
    }

    /// The list of servers.
    pub fn servers(&self) -> &ServerList
        ensures { result.now ≡ self.now.servers }
    {
        &self.state.servers
    }

    /// Who has said that it is ready, in the order of saying so.
    pub fn ready(&self) -> &Ready
        ensures { result.now ≡ self.now.ready }
    {
        &self.state.ready
    }

    /// All tablets, in order of table and first key.
    ///
    /// # Errors
    ///
    /// `OutOfMemory` (F1): memory was refused.
    pub fn tablets(&self, alloc: Global) -> Result<Vec<Tablet>, AllocError>
        ensures list { IfOk result (λ tablets. tablets.items ≡ self.now.tablets) }
        ensures are_tablets { AreTablets self.now.tablets }
    {
        self.state.tablets.tablets(alloc)
    }

    /// The least pair of each master that has committed one.
    pub fn least(&self) -> &IndexMap<ServerId, Pair>
        ensures { result.now.entries ≡ self.now.least }
    {
        &self.state.least
    }

    /// All attempts, in the order of their numbers, which have four bytes.
    pub fn attempts(&self) -> &[Attempt]
        ensures all { result.now ≡ self.now.attempts }
        ensures few { length self.now.attempts < 2 ^ 32 }
    {
        self.state.recoveries.attempts()
    }

    /// The number of the current attempt of each master that had one.
    pub fn current(&self) -> &IndexMap<ServerId, u32>
        ensures { result.now.entries ≡ self.now.current }
    {
        self.state.recoveries.current()
    }

    /// All grants, in the order of granting.
    pub fn grants(&self) -> &[Grant]
        ensures { result.now ≡ self.now.grants }
    {
        self.state.recoveries.grants()
    }

    /// The term that was given last, and 0 before the first.
    pub fn last_term(&self) -> u32
        ensures { result ≡ self.now.last_term }
    {
        self.state.last_term
    }
}
