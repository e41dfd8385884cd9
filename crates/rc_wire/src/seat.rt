//! A seat, and what can be done at it.

ghost use Rattle.std.specs.Prelude.{◌≡◌, ◌⊎◌, ◌↔◌, ◌++◌, ◌<◌, ◌||◌, ℕ, nat_eq, true, false, None, Some};
ghost use Rattle.std.specs.Prelude.{is_some, option_map, IfErr, OnOk, OnErr};
ghost use Rattle.std.specs.List.{list_any};
ghost use Rattle.std.specs.HashSet.{spare};
ghost use Rattle.rc_types.specs.declared.faults.Fault.TheVariants.{OutOfMemory, BadEvent, Pending};
ghost use Rattle.rc_wire.specs.Views.{new_place};
ghost use Rattle.rc_history.specs.Nodes.{event_of};
ghost use Rattle.rc_world.specs.HostView.{IsWithinLimits};
ghost use Rattle.rc_world.specs.NodeView.{node_seen};
ghost use Rattle.rc_types.specs.Names.{number_of};
ghost use Rattle.rc_wire.specs.SeatView.{new_seat, node_at, world_at};
ghost use Rattle.rc_wire.specs.Steps.{HasTaken};
ghost use Rattle.rc_wire.specs.Works.{event_for, can_do, held_after, Offers, is_offered, Prepares};
ghost use Rattle.rc_wire.specs.Given.{is_delivery};
ghost use Rattle.rc_wire.specs.SeatCalls.{IsSeat, has_delivered};
ghost use Rattle.rc_wire.specs.declared.work.Work.TheVariants.{Fetched};

use crate::names::Naming;
use crate::offer::{Offer, let_go, put};
use crate::stepping::{give, given_by, new_state, own_number, take};
use crate::token::Token;
use crate::work::Work;
use rc_types::{Fault, Message, NodeName, NodeWork, Setup};
use rc_world::NodeState;
use std::alloc::Global;
use std::collections::HashSet;
use std::marker::Model;

/// The seat of one node at the wire of this name. As a value it is its name, the history as far as it
/// has seen it, its node's events in that, the message that it holds, and its pending step. Its type says
/// that these are so: the node's events are those that it takes in the history seen, the message is the
/// one of its number there, and the pending step is one of the node after its events.
pub struct Seat<N: Naming> {
    pub(crate) alloc: Global,
    name: NodeName,
    pub(crate) token: Token<N>,
    state: NodeState<Global>,
    pub(crate) held: Option<(usize, Message)>,
    pub(crate) pending: Option<Offer>,
    delivered: HashSet<usize>,
}

impl<N: Naming> Drop for Seat<N> {
    fn drop(self) {
        let Seat {
            alloc: _,
            name: _,
            token: _,
            state: _,
            held: _,
            pending: _,
            delivered: _,
        } = self;
    }
}

impl<N: Naming> Model for Seat<N> {
    ghost use Rattle.rc_wire.specs.SeatView.{SeatData};
    ghost use Rattle.rc_wire.specs.SeatHolds.{seat_data, SeatSound};
    ghost use Rattle.rc_world.specs.NodeView.{node_seen};

    ghost Value = { SeatData };

    ghost view = { λ s. seat_data s.name s.token s.held s.pending };

    ghost invariant = { λ s. SeatSound N.wire.setup (seat_data s.name s.token s.held s.pending)
        s.token.node (node_seen s.state) s.delivered.keys };
}

impl<N: Naming> Seat<N> {
    /// The seat of a node that has seen and done nothing. It takes no memory.
    pub fn new(alloc: Global, name: NodeName, setup: &Setup, token: Token<N>) -> Seat<N>
        requires setup { setup.now ≡ N.wire.setup }
        requires limits { IsWithinLimits setup.now }
        requires token { token ≡ new_place (number_of name) }
        ensures { result ≡ new_seat name }
    {
        Seat {
            alloc,
            name,
            token,
            state: new_state(alloc, name, setup),
            held: None,
            pending: None,
            delivered: HashSet::new(alloc),
        }
    }

    /// Whose seat it is. It takes no memory. Here it is said what is true of each seat.
    pub fn name(&self) -> NodeName
        ensures name { result ≡ self.now.name }
        ensures seat { IsSeat N.wire.setup self.now }
    {
        self.name
    }

    /// The state of the seat's node, to be looked at. It is the node's own in the history that the seat has seen; where
    /// a step is pending, the one to which that step leads it from there. It takes no memory.
    pub fn node(&self) -> &NodeState<Global>
        ensures state { HasTaken (world_at N.wire.setup self.now).sent self.now.name
            (node_at N.wire.setup self.now) self.now.pending (node_seen result.now) }
    {
        &self.state
    }

    /// The message that is held, with its number. It takes no memory.
    pub fn fetched(&self) -> Option<(usize, &Message)>
        ensures { option_map (λ held. (held.0, held.1.now)) result ≡ self.now.held }
    {
        match &self.held {
            Some((number, message)) => Some((*number, message)),
            None => None,
        }
    }

    /// The messages of the pending step, where one is pending. It takes no memory.
    pub fn pending(&self) -> Option<&[Message]>
        ensures { option_map (λ messages. messages.now) result ≡ option_map (λ step. step.messages) self.now.pending }
    {
        match &self.pending {
            Some(offer) => Some(offer.messages.as_slice()),
            None => None,
        }
    }

    /// Whether a step is pending. It takes no memory.
    pub fn is_pending(&self) -> bool
        ensures { result ≡ is_some self.now.pending }
    {
        self.pending.is_some()
    }

    /// Whether the message of this number was delivered to the seat's node, or the pending step delivers
    /// it. It takes no memory, and its cost does not grow with what has happened.
    pub fn has_delivered(&self, number: usize) -> bool
        ensures { result ≡ has_delivered self.now number }
    {
        self.delivered.contains(&number)
    }

    /// The seat's node takes a step on this work, which is then pending: the event that the work is, with
    /// the messages that the node sends in it. It takes no lock and waits for nobody.
    ///
    /// # Errors
    ///
    /// `Pending` (F20) exactly where a step is pending. `BadEvent` (F18) exactly where, with none pending,
    /// nothing is held for a Fetched, or the event is not possible after what the seat has seen, or is
    /// another node's. `OutOfMemory` (F1): memory was refused. After each the seat is as before.
    pub fn prepare(&mut self, work: Work) -> Result<(), Fault>
        ensures ok { OnOk result (Prepares N.wire.setup self.old work self.new) }
        ensures pending { (result ≡ Err Pending) ↔ (is_some self.old.pending ≡ true) }
        ensures bad { (result ≡ Err BadEvent) ↔
            ((is_some self.old.pending ≡ false) × (can_do N.wire.setup self.old work ≡ false)) }
        ensures fault { IfErr result (λ fault. (fault ≡ OutOfMemory) ⊎ (fault ≡ BadEvent) ⊎ (fault ≡ Pending)) }
        ensures err { OnErr result (self.new ≡ self.old) }
    {
        if self.is_pending() {
            return Err(Fault::Pending);
        }
        match given_by(work) {
            Some(given) => self.give(given),
            None => self.deliver(),
        }
    }

    /// The node is given a work that is no delivery.
    fn give(&mut self, given: NodeWork) -> Result<(), Fault>
        requires idle { self.old.pending ≡ None }
        requires given { is_delivery given ≡ false }
        ensures ok { OnOk result (Offers N.wire.setup self.old
            (Some (event_of (node_at N.wire.setup self.old) 0 given)) self.old.held self.new) }
        ensures bad { (result ≡ Err BadEvent) ↔ (is_offered N.wire.setup self.old
            (Some (event_of (node_at N.wire.setup self.old) 0 given)) ≡ false) }
        ensures fault { IfErr result (λ fault. (fault ≡ OutOfMemory) ⊎ (fault ≡ BadEvent)) }
        ensures err { OnErr result (self.new ≡ self.old) }
    {
        let offer = give(&mut self.state, self.name, given)?;
        put(&mut self.pending, offer);
        Ok(())
    }

    /// The node takes the message that is held.
    fn deliver(&mut self) -> Result<(), Fault>
        requires { self.old.pending ≡ None }
        ensures ok { OnOk result (Prepares N.wire.setup self.old Fetched self.new) }
        ensures bad { (result ≡ Err BadEvent) ↔ (can_do N.wire.setup self.old Fetched ≡ false) }
        ensures fault { IfErr result (λ fault. (fault ≡ OutOfMemory) ⊎ (fault ≡ BadEvent)) }
        ensures err { OnErr result (self.new ≡ self.old) }
    {
        let Some(number) = own_number(self.name, &self.held) else {
            return Err(Fault::BadEvent);
        };
        if self.delivered.reserve(1).is_err() {
            return Err(Fault::OutOfMemory);
        }
        let offer = take(self.alloc, &mut self.state, &self.held)?;
        note(&mut self.delivered, number);
        let_go(&mut self.held);
        put(&mut self.pending, offer);
        Ok(())
    }
}

/// Notes the number of a message that is delivered, where there is room for it.
fn note(delivered: &mut HashSet<usize>, number: usize)
    requires { 0 < spare delivered.old }
    ensures { (n : ℕ) → list_any (nat_eq n) delivered.new.keys ≡
        (nat_eq n number || list_any (nat_eq n) delivered.old.keys) }
{
    delivered.insert(number).unwrap();
}
