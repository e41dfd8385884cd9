//! The coordinator's state, and which work it takes how.

ghost use Rattle.std.specs.Prelude.{◌≡◌, ◌↔◌, ◌++◌, true, OnOk, OnErr};
ghost use Rattle.rc_model.specs.Coordinator.{new_coordinator};
ghost use Rattle.rc_model.specs.CoordinatorStep.{coordinator_takes};
ghost use Rattle.rc_coordinator.specs.View.{book_of, state_view};
ghost use Rattle.rc_model.specs.Nodes.{coordinator_step, obeys_order};
ghost use Rattle.rc_coordinator.specs.Steps.{HasNumbers};

use crate::ready::Ready;
use crate::recoveries::Recoveries;
use indexmap::IndexMap;
use rc_rangetree::RangeTree;
use rc_serverlist::ServerList;
use rc_types::{Addr, Body, Message, NodeWork, Order, Pair, ServerId};
use std::alloc::{AllocError, Allocator, Global};

/// What the coordinator knows. The tablets lie in memory of the allocator `A`.
#[derive(Drop)]
pub(crate) struct State<A: Allocator> {
    pub(crate) alloc: Global,
    pub(crate) servers: ServerList,
    pub(crate) ready: Ready,
    pub(crate) tablets: RangeTree<A>,
    pub(crate) least: IndexMap<ServerId, Pair>,
    pub(crate) recoveries: Recoveries,
    pub(crate) last_term: u32,
}

impl<A: Allocator + Clone> State<A> {
    /// Nobody is known, and there is no table. It takes no memory.
    pub(crate) fn new(alloc: Global, tablets_alloc: A) -> State<A>
        ensures { state_view result ≡ new_coordinator }
    {
        State {
            alloc,
            servers: ServerList::new(alloc),
            ready: Ready::new(alloc),
            tablets: RangeTree::new_in(tablets_alloc),
            least: IndexMap::new(alloc),
            recoveries: Recoveries::new(alloc),
            last_term: 0,
        }
    }

    /// Whether its numbers suffice for one more step.
    pub(crate) fn has_room(&self) -> bool
        ensures { (result ≡ true) ↔ HasNumbers (state_view self.now) }
    {
        self.servers.version() < u32::MAX
            && self.recoveries.count() < u32::MAX as usize
            && (self.last_term as usize).saturating_add(self.tablets.count()) < u32::MAX as usize
    }

    /// Takes a work, and adds what follows to those sent. Only memory can be refused (F1), and then
    /// nothing has changed.
    pub(crate) fn step_into(
        &mut self,
        work: &NodeWork,
        sent: &mut Vec<Message>,
    ) -> Result<(), AllocError>
        requires { HasNumbers (state_view self.old) }
        ensures state { OnOk result (state_view self.new ≡ (coordinator_step (state_view self.old) work.now).0) }
        ensures sends { OnOk result (sent.new.items ≡
            sent.old.items ++ (coordinator_step (state_view self.old) work.now).1) }
        ensures err { OnErr result (book_of self.new ≡ book_of self.old) }
        ensures unsent { OnErr result (sent.new.items ≡ sent.old.items) }
    {
        match work {
            NodeWork::Deliver(message) => self.take(message.from, &message.body, sent),
            NodeWork::Tick => self.tick(sent),
            NodeWork::Order(order) => self.obey(*order, sent),
            _ => Ok(()),
        }
    }

    /// Does what it is told by who runs the cluster.
    fn obey(&mut self, order: Order, sent: &mut Vec<Message>) -> Result<(), AllocError>
        requires { HasNumbers (state_view self.old) }
        ensures state { OnOk result (state_view self.new ≡ (obeys_order (state_view self.old) order).0) }
        ensures sends { OnOk result (sent.new.items ≡ sent.old.items ++ (obeys_order (state_view self.old) order).1) }
        ensures err { OnErr result (book_of self.new ≡ book_of self.old) }
        ensures unsent { OnErr result (sent.new.items ≡ sent.old.items) }
    {
        match order {
            Order::Suspect(id) => self.suspect(id, sent),
            Order::Decide(master) => self.decide(master, sent),
            Order::Create { table, owner } => self.create(table, owner, sent),
            Order::Split { table, at } => self.split(table, at, sent),
        }
    }

    /// Takes a message from this address.
    pub(crate) fn take(
        &mut self,
        from: Addr,
        body: &Body,
        sent: &mut Vec<Message>,
    ) -> Result<(), AllocError>
        requires { HasNumbers (state_view self.old) }
        ensures state { OnOk result (state_view self.new ≡ (coordinator_takes (state_view self.old) from body.now).0) }
        ensures sends { OnOk result (sent.new.items ≡ sent.old.items ++
            (coordinator_takes (state_view self.old) from body.now).1) }
        ensures err { OnErr result (book_of self.new ≡ book_of self.old) }
        ensures unsent { OnErr result (sent.new.items ≡ sent.old.items) }
    {
        match (from, body) {
            (Addr::Server(id), Body::Enlist) => self.enlist(id, sent),
            (Addr::Server(id), Body::Ready) => self.note_ready(id, sent),
            (Addr::Server(id), Body::Commit { seg, epoch }) => {
                let pair = Pair {
                    seg: *seg,
                    epoch: *epoch,
                };
                self.commit(id, pair, sent)
            }
            (Addr::Server(id), Body::Replicas { attempt, rows }) => {
                self.keep_answer(id, *attempt, rows)
            }
            (Addr::Server(id), Body::Recovered { attempt, term }) => {
                self.take_recovered(id, *attempt, *term, sent)
            }
            _ => Ok(()),
        }
    }
}
