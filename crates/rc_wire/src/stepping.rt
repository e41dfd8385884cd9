//! The steps of a seat's node.

ghost use Rattle.std.specs.Prelude.{◌≡◌, ◌⊎◌, ◌↔◌, true, false, is_some, option_map, OnErr, IfOk, IfErr};
ghost use Rattle.std.specs.Option.{IfSome};
ghost use Rattle.rc_types.specs.declared.faults.Fault.TheVariants.{OutOfMemory, BadEvent};
ghost use Rattle.rc_history.specs.Nodes.{Node, new_node, name_of, event_of, node_can, own_addr, own_server};
ghost use Rattle.rc_world.specs.HostView.{IsWithinLimits};
ghost use Rattle.rc_world.specs.NodeView.{node_seen, NodeHasRoom};
ghost use Rattle.rc_types.specs.declared.events.NodeWork.TheVariants.{Deliver};
ghost use Rattle.rc_wire.specs.Works.{given_of};
ghost use Rattle.rc_wire.specs.Given.{is_delivery, own_number, Does};

use crate::offer::Offer;
use crate::work::Work;
use rc_types::{Addr, Event, Fault, Message, NodeName, NodeWork, ServerId, Setup, TryClone};
use rc_world::NodeState;
use std::alloc::{AllocError, Global};

/// The node of this name before anything has happened.
pub(crate) fn new_state(alloc: Global, name: NodeName, setup: &Setup) -> NodeState<Global>
    requires { IsWithinLimits setup.now }
    ensures { node_seen result ≡ new_node setup.now name }
{
    match name {
        NodeName::Outside => NodeState::outside(alloc),
        NodeName::Coordinator => NodeState::coordinator(alloc, alloc),
        NodeName::Host(index) => NodeState::host(alloc, index, setup),
    }
}

/// What a node is given by a work; nothing by Fetched, whose message the seat holds.
pub(crate) fn given_by(work: Work) -> Option<NodeWork>
    ensures { result ≡ given_of work }
{
    match work {
        Work::Fetched => None,
        Work::Ask { to, body } => Some(NodeWork::Ask { to, body }),
        Work::Tick => Some(NodeWork::Tick),
        Work::Stop => Some(NodeWork::Stop),
        Work::Start { kept } => Some(NodeWork::Start { kept }),
        Work::Order(order) => Some(NodeWork::Order(order)),
    }
}

/// Gives a node a work that is no delivery.
pub(crate) fn give(
    state: &mut NodeState<Global>,
    name: NodeName,
    given: NodeWork,
) -> Result<Offer, Fault>
    requires room { NodeHasRoom (node_seen state.old) }
    requires name { name_of (node_seen state.old) ≡ name }
    requires given { is_delivery given ≡ false }
    ensures does { IfOk result (λ offer. Does (node_seen state.old) 0 given offer (node_seen state.new)) }
    ensures bad { (result ≡ Err BadEvent) ↔ (node_can (node_seen state.old) given ≡ false) }
    ensures fault { IfErr result (λ fault. (fault ≡ OutOfMemory) ⊎ (fault ≡ BadEvent)) }
    ensures err { OnErr result (node_seen state.new ≡ node_seen state.old) }
{
    let own = state.server();
    let messages = state.step(&given)?;
    let event = event_of(name, own, given);
    Ok(Offer { event, messages })
}

/// A work that is no delivery as an event of its node. It moves what the work has.
fn event_of(name: NodeName, own: ServerId, given: NodeWork) -> Event
    requires { is_delivery given ≡ false }
    ensures { (node : Node) → name_of node ≡ name → own_server node ≡ own →
        result ≡ event_of node 0 given }
{
    match given {
        NodeWork::Ask { to, body } => Event::Ask { to, body },
        NodeWork::Deliver(_) => unreachable!(),
        NodeWork::Tick => Event::Tick(own_addr(name, own)),
        NodeWork::Stop => Event::Stop(own),
        NodeWork::Start { kept } => Event::Start {
            host: own.index,
            kept,
        },
        NodeWork::Order(order) => Event::Order(order),
    }
}

/// The address of a node: that of its own server, if it is a host.
fn own_addr(name: NodeName, own: ServerId) -> Addr
    ensures { (node : Node) → name_of node ≡ name → own_server node ≡ own → result ≡ own_addr node }
{
    match name {
        NodeName::Outside => Addr::Outside,
        NodeName::Coordinator => Addr::Coordinator,
        NodeName::Host(_) => Addr::Server(own),
    }
}

/// The number of the message that is held, where it is one to the node of this name.
pub(crate) fn own_number(name: NodeName, held: &Option<(usize, Message)>) -> Option<usize>
    ensures { result ≡ own_number name held.now }
{
    match held {
        Some((number, message)) if NodeName::at(message.to) == name => Some(*number),
        _ => None,
    }
}

/// The node takes the message that is held, which is only lent to it.
pub(crate) fn take(
    alloc: Global,
    state: &mut NodeState<Global>,
    held: &Option<(usize, Message)>,
) -> Result<Offer, AllocError>
    requires room { NodeHasRoom (node_seen state.old) }
    requires held { is_some held.now ≡ true }
    ensures does { IfOk result (λ offer. IfSome held.now (λ h.
        Does (node_seen state.old) h.0 (Deliver h.1) offer (node_seen state.new))) }
    ensures err { OnErr result (node_seen state.new ≡ node_seen state.old) }
{
    match held {
        Some((number, message)) => deliver(alloc, state, *number, message),
        None => unreachable!(),
    }
}

/// The node takes a message that is lent.
fn deliver(
    alloc: Global,
    state: &mut NodeState<Global>,
    number: usize,
    message: &Message,
) -> Result<Offer, AllocError>
    requires { NodeHasRoom (node_seen state.old) }
    ensures does { IfOk result (λ offer.
        Does (node_seen state.old) number (Deliver message.now) offer (node_seen state.new)) }
    ensures err { OnErr result (node_seen state.new ≡ node_seen state.old) }
{
    let mut messages = Vec::new(alloc);
    state.take(message, &mut messages)?;
    Ok(Offer {
        event: Event::Deliver(number),
        messages,
    })
}

/// A copy of a message, if there is one.
pub(crate) fn copy_of(alloc: Global, found: Option<&Message>) -> Result<Option<Message>, AllocError>
    ensures { IfOk result (λ copy. copy ≡ option_map (λ message. message.now) found.entry) }
{
    match found {
        Some(message) => Ok(Some(message.try_clone(alloc)?)),
        None => Ok(None),
    }
}
