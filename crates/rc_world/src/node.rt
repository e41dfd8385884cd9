//! One node of a world, for those who run the nodes apart.

ghost use Rattle.std.specs.Prelude.{◌≡◌, ◌⊎◌, ◌↔◌, ◌++◌, true, false, option_map, Some, Err};
ghost use Rattle.std.specs.Prelude.{OnOk, OnErr, IfOk, IfErr, IfSome};
ghost use Rattle.std.specs.Option.{option_copied};
ghost use Rattle.rc_types.specs.declared.faults.Fault.TheVariants.{OutOfMemory, BadEvent};
ghost use Rattle.rc_model.specs.Nodes.{coordinator_can, coordinator_step, host_can, host_step};
ghost use Rattle.rc_history.specs.Nodes.{node_can, node_step, own_server};
ghost use Rattle.rc_model.specs.Nodes.{outside_can, outside_sends, new_host, master_setup};
ghost use Rattle.rc_model.specs.Coordinator.{new_coordinator};
ghost use Rattle.rc_coordinator.specs.Book.{coordinator_of};
ghost use Rattle.rc_coordinator.specs.Steps.{HasNumbers};
ghost use Rattle.rc_world.specs.HostView.{host_of, HostHasRoom, IsMasterSetup, IsWithinLimits};
ghost use Rattle.rc_world.specs.HostParts.{host_parts_in, host_from};
ghost use Rattle.rc_history.specs.Nodes.{TheOutside, TheCoordinator, TheHost, name_of};
ghost use Rattle.rc_world.specs.NodeView.{CoordinatorData, node_seen, book_in, NodeHasRoom};
ghost use Rattle.rc_world.specs.NodeView.{node_runs, master_in, backup_in};
ghost use Rattle.rc_types.specs.declared.events.NodeWork.TheVariants.{Deliver};
ghost use Rattle.rc_world.specs.declared.work.StepFault.TheVariants.{NoRoom, Refused};

use crate::head::HostHead;
use crate::host::Host;
use crate::outside::{ask, can_ask};
use crate::work::StepFault;
use rc_backup::Backup;
use rc_coordinator::Coordinator;
use rc_master::Master;
use rc_types::{Fault, Message, NodeName, NodeWork, ServerId, Setup};
use std::alloc::{AllocError, Allocator, Global};
use std::fmt;
use std::marker::Model;

/// One node: the outside, the coordinator, or a host with its generation, its backup and, where it
/// runs, its master.
pub struct NodeState<A: Allocator> {
    alloc: Global,
    node: Node<A>,
}

impl<A: Allocator> Drop for NodeState<A> {
    fn drop(self) {
        let NodeState { alloc: _, node: _ } = self;
    }
}

/// Which node it is.
#[derive(Drop)]
enum Node<A: Allocator> {
    Outside,
    Coordinator(Coordinator<A>),
    Host(Host),
}

/// For a debugger it is which node it is; of a host also its generation, and whether it runs.
impl<A: Allocator> fmt::Debug for NodeState<A> {
    fn fmt<W: fmt::Write>(&self, f: &mut fmt::Formatter<W>) -> fmt::Result {
        match &self.node {
            Node::Outside => write!(f, "outside"),
            Node::Coordinator(_) => write!(f, "coordinator"),
            Node::Host(host) => host.tell(f),
        }
    }
}

impl<A: Allocator> Model for NodeState<A> {
    ghost use Rattle.rc_world.specs.NodeView.{NodeData};

    ghost Value = { NodeData };

    ghost use Rattle.rc_world.specs.NodeFields.{node_data};

    ghost view = { λ n. node_data n.node };
}

impl<A: Allocator + Clone> NodeState<A> {
    /// The outside, which asks servers, and takes answers without a word.
    pub fn outside(alloc: Global) -> NodeState<A>
        ensures { node_seen result ≡ TheOutside }
    {
        NodeState {
            alloc,
            node: Node::Outside,
        }
    }

    /// The coordinator before anything has happened. Its tablets lie in memory of the second
    /// allocator. It takes no memory.
    pub fn coordinator(alloc: Global, tablets: A) -> NodeState<A>
        ensures { node_seen result ≡ TheCoordinator new_coordinator }
    {
        NodeState {
            alloc,
            node: Node::Coordinator(Coordinator::new(alloc, tablets)),
        }
    }

    /// The host of this index, which was never started. It takes no memory.
    pub fn host(alloc: Global, index: u8, setup: &Setup) -> NodeState<A>
        requires { IsWithinLimits setup.now }
        ensures { node_seen result ≡ TheHost (new_host index (master_setup setup.now index)) }
    {
        NodeState {
            alloc,
            node: Node::Host(Host::new(alloc, index, setup)),
        }
    }

    /// A host in two parts, to be kept: what it is by itself, and what it keeps as a backup. None where the node is no
    /// host. It takes no memory.
    pub fn parts(&self) -> Option<(HostHead, &Backup)>
        ensures parts { option_map (λ p. record { head = p.0; backup = p.1.now }) result ≡ host_parts_in self.now }
        ensures limits { IfSome result (λ p. IsMasterSetup p.0.setup) }
    {
        match &self.node {
            Node::Outside | Node::Coordinator(_) => None,
            Node::Host(host) => Some((host.head(), host.backup())),
        }
    }

    /// The host of these parts. Where it runs, its master is one that has just begun, so it is where the host was that
    /// had these parts but for its master: a stop makes the two equal. It takes no memory.
    pub fn of_parts(alloc: Global, head: HostHead, backup: Backup) -> NodeState<A>
        requires { IsMasterSetup head.setup }
        ensures node { node_seen result ≡ TheHost (host_from (record { head = head; backup = backup })) }
        ensures parts { host_parts_in result ≡ Some (record { head = head; backup = backup }) }
    {
        NodeState {
            alloc,
            node: Node::Host(Host::of_parts(alloc, head, backup)),
        }
    }

    /// The coordinator, to be looked at; none where the node is none. It takes no memory.
    pub fn as_coordinator(&self) -> Option<&Coordinator<A>>
        ensures { option_copied result ≡ book_in self.now }
    {
        match &self.node {
            Node::Outside | Node::Host(_) => None,
            Node::Coordinator(coordinator) => Some(coordinator),
        }
    }

    /// The node that is this coordinator. It takes no memory.
    pub fn of_coordinator(alloc: Global, coordinator: Coordinator<A>) -> NodeState<A>
        ensures { result ≡ CoordinatorData coordinator }
    {
        NodeState {
            alloc,
            node: Node::Coordinator(coordinator),
        }
    }

    /// Which node it is. It takes no memory.
    pub fn name(&self) -> NodeName
        ensures { result ≡ name_of (node_seen self.now) }
    {
        match &self.node {
            Node::Outside => NodeName::Outside,
            Node::Coordinator(_) => NodeName::Coordinator,
            Node::Host(host) => NodeName::Host(host.server().index),
        }
    }

    /// The server of the host's last start, which a timer and a stop of the node name. A host that was
    /// never started has generation 0; the outside and the coordinator have no server, and answer 0.0.
    /// It takes no memory.
    pub fn server(&self) -> ServerId
        ensures { result ≡ own_server (node_seen self.now) }
    {
        match &self.node {
            Node::Outside | Node::Coordinator(_) => no_server(),
            Node::Host(host) => host.server(),
        }
    }

    /// Whether a server runs on the node; so it is of no node that is no host. It takes no memory.
    pub fn runs(&self) -> bool
        ensures { result ≡ node_runs (node_seen self.now) }
    {
        match &self.node {
            Node::Outside | Node::Coordinator(_) => false,
            Node::Host(host) => host.runs(),
        }
    }

    /// Whether the node's numbers suffice for one more step, which the steps ask for: of a host its generation, and the
    /// versions in its log; of the coordinator the numbers of its lists, attempts and terms. It takes no memory, and
    /// its cost does not grow with what has happened.
    pub fn has_room(&self) -> bool
        ensures { (result ≡ true) ↔ NodeHasRoom (node_seen self.now) }
    {
        match &self.node {
            Node::Outside => true,
            Node::Coordinator(coordinator) => coordinator.has_room(),
            Node::Host(host) => host.has_room(),
        }
    }

    /// The master that runs on the host, to be looked at; none where no server runs there, or the node is no host.
    /// It takes no memory.
    pub fn master(&self) -> Option<&Master>
        ensures { option_copied result ≡ master_in self.now }
    {
        match &self.node {
            Node::Outside | Node::Coordinator(_) => None,
            Node::Host(host) => host.master(),
        }
    }

    /// What the host keeps as a backup, to be looked at; none where the node is no host. It takes no memory.
    pub fn backup(&self) -> Option<&Backup>
        ensures { option_copied result ≡ backup_in self.now }
    {
        match &self.node {
            Node::Outside | Node::Coordinator(_) => None,
            Node::Host(host) => Some(host.backup()),
        }
    }

    /// Gives the node this, and adds what it sends to those sent.
    ///
    /// # Errors
    ///
    /// `BadEvent` (F18): the node can't be given this now. `OutOfMemory` (F1): memory was refused.
    /// After either the node and what was sent are as before.
    pub fn step_into(&mut self, work: &NodeWork, sent: &mut Vec<Message>) -> Result<(), Fault>
        requires { NodeHasRoom (node_seen self.old) }
        ensures state { OnOk result (node_seen self.new ≡ (node_step (node_seen self.old) work.now).0) }
        ensures sends { OnOk result (sent.new.items ≡ sent.old.items ++ (node_step (node_seen self.old) work.now).1) }
        ensures bad { (result ≡ Err BadEvent) ↔ (node_can (node_seen self.old) work.now ≡ false) }
        ensures fault { IfErr result (λ fault. (fault ≡ OutOfMemory) ⊎ (fault ≡ BadEvent)) }
        ensures err { OnErr result (node_seen self.new ≡ node_seen self.old) }
        ensures unsent { OnErr result (sent.new.items ≡ sent.old.items) }
    {
        match &mut self.node {
            Node::Outside => step_outside(self.alloc, work, sent),
            Node::Coordinator(coordinator) => { step_coordinator(coordinator, work, sent) }
            Node::Host(host) => step_host(host, work, sent),
        }
    }

    /// Gives the node a message that is only lent, as `step_into` does with a delivery of it: nothing is
    /// copied. A message is never refused; where its addressee does not run, it does nothing.
    ///
    /// # Errors
    ///
    /// `OutOfMemory` (F1): memory was refused. The node and what was sent are as before.
    pub fn take(&mut self, message: &Message, sent: &mut Vec<Message>) -> Result<(), AllocError>
        requires { NodeHasRoom (node_seen self.old) }
        ensures state { OnOk result (node_seen self.new ≡ (node_step (node_seen self.old) (Deliver message.now)).0) }
        ensures sends { OnOk result (sent.new.items ≡
            sent.old.items ++ (node_step (node_seen self.old) (Deliver message.now)).1) }
        ensures err { OnErr result (node_seen self.new ≡ node_seen self.old) }
        ensures unsent { OnErr result (sent.new.items ≡ sent.old.items) }
    {
        match &mut self.node {
            Node::Outside => Ok(()),
            Node::Coordinator(coordinator) => coordinator.take(message, sent),
            Node::Host(host) => host.take(message, sent),
        }
    }

    /// Gives the node this, and adds what it sends to those sent, as `step_into` does, and asks nothing of its caller.
    ///
    /// # Errors
    ///
    /// `NoRoom`: the node's numbers do not suffice for one more step. `Refused`: as `step_into` refuses it. After each
    /// the node and what was sent are as before.
    pub fn try_step_into(
        &mut self,
        work: &NodeWork,
        sent: &mut Vec<Message>,
    ) -> Result<(), StepFault>
        ensures state { OnOk result (node_seen self.new ≡ (node_step (node_seen self.old) work.now).0) }
        ensures sends { OnOk result (sent.new.items ≡ sent.old.items ++ (node_step (node_seen self.old) work.now).1) }
        ensures full { (result ≡ Err NoRoom) ↔ (NodeHasRoom (node_seen self.old) → ⊥) }
        ensures bad { NodeHasRoom (node_seen self.old) →
            ((result ≡ Err (Refused BadEvent)) ↔ (node_can (node_seen self.old) work.now ≡ false)) }
        ensures fault { IfErr result (λ fault.
            (fault ≡ NoRoom) ⊎ (fault ≡ Refused OutOfMemory) ⊎ (fault ≡ Refused BadEvent)) }
        ensures err { OnErr result (node_seen self.new ≡ node_seen self.old) }
        ensures unsent { OnErr result (sent.new.items ≡ sent.old.items) }
    {
        if !self.has_room() {
            return Err(StepFault::NoRoom);
        }
        match self.step_into(work, sent) {
            Ok(()) => Ok(()),
            Err(fault) => Err(StepFault::Refused(fault)),
        }
    }

    /// Gives the node this, and gives back what it sends, as `step_into` does.
    ///
    /// # Errors
    ///
    /// `BadEvent` (F18): the node can't be given this now. `OutOfMemory` (F1): memory was refused.
    /// After either the node is as before.
    pub fn step(&mut self, work: &NodeWork) -> Result<Vec<Message>, Fault>
        requires { NodeHasRoom (node_seen self.old) }
        ensures state { OnOk result (node_seen self.new ≡ (node_step (node_seen self.old) work.now).0) }
        ensures sends { IfOk result (λ sent. sent.items ≡ (node_step (node_seen self.old) work.now).1) }
        ensures bad { (result ≡ Err BadEvent) ↔ (node_can (node_seen self.old) work.now ≡ false) }
        ensures fault { IfErr result (λ fault. (fault ≡ OutOfMemory) ⊎ (fault ≡ BadEvent)) }
        ensures err { OnErr result (node_seen self.new ≡ node_seen self.old) }
    {
        let mut sent = Vec::new(self.alloc);
        self.step_into(work, &mut sent)?;
        Ok(sent)
    }
}

/// The server of a node that has none.
fn no_server() -> ServerId
    ensures { result ≡ record { index = 0; generation = 0 } }
{
    ServerId {
        index: 0,
        generation: 0,
    }
}

/// The outside's step.
fn step_outside(alloc: Global, work: &NodeWork, sent: &mut Vec<Message>) -> Result<(), Fault>
    ensures sends { OnOk result (sent.new.items ≡ sent.old.items ++ outside_sends work.now) }
    ensures bad { (result ≡ Err BadEvent) ↔ (outside_can work.now ≡ false) }
    ensures fault { IfErr result (λ fault. (fault ≡ OutOfMemory) ⊎ (fault ≡ BadEvent)) }
    ensures unsent { OnErr result (sent.new.items ≡ sent.old.items) }
{
    match work {
        NodeWork::Ask { to, body } if can_ask(*to, body) => Ok(ask(alloc, *to, body, sent)?),
        NodeWork::Deliver(_) => Ok(()),
        _ => Err(Fault::BadEvent),
    }
}

/// The coordinator's step.
fn step_coordinator<A: Allocator + Clone>(
    coordinator: &mut Coordinator<A>,
    work: &NodeWork,
    sent: &mut Vec<Message>,
) -> Result<(), Fault>
    requires { HasNumbers (coordinator_of coordinator.old) }
    ensures state { OnOk result (coordinator_of coordinator.new ≡
        (coordinator_step (coordinator_of coordinator.old) work.now).0) }
    ensures sends { OnOk result (sent.new.items ≡
        sent.old.items ++ (coordinator_step (coordinator_of coordinator.old) work.now).1) }
    ensures bad { (result ≡ Err BadEvent) ↔ (coordinator_can work.now ≡ false) }
    ensures fault { IfErr result (λ fault. (fault ≡ OutOfMemory) ⊎ (fault ≡ BadEvent)) }
    ensures err { OnErr result (coordinator.new ≡ coordinator.old) }
    ensures unsent { OnErr result (sent.new.items ≡ sent.old.items) }
{
    match work {
        NodeWork::Deliver(message) => Ok(coordinator.take(message, sent)?),
        NodeWork::Ask { .. } | NodeWork::Stop | NodeWork::Start { .. } => Err(Fault::BadEvent),
        _ => Ok(coordinator.step_into(work, sent)?),
    }
}

/// A host's step.
fn step_host(host: &mut Host, work: &NodeWork, sent: &mut Vec<Message>) -> Result<(), Fault>
    requires { HostHasRoom (host_of host.old) }
    ensures state { OnOk result (host_of host.new ≡ (host_step (host_of host.old) work.now).0) }
    ensures sends { OnOk result (sent.new.items ≡ sent.old.items ++ (host_step (host_of host.old) work.now).1) }
    ensures bad { (result ≡ Err BadEvent) ↔ (host_can (host_of host.old) work.now ≡ false) }
    ensures fault { IfErr result (λ fault. (fault ≡ OutOfMemory) ⊎ (fault ≡ BadEvent)) }
    ensures err { OnErr result (host_of host.new ≡ host_of host.old) }
    ensures unsent { OnErr result (sent.new.items ≡ sent.old.items) }
{
    if !can_take(host, work) {
        return Err(Fault::BadEvent);
    }
    match work {
        NodeWork::Deliver(message) => Ok(host.take(message, sent)?),
        NodeWork::Tick => Ok(host.tick(sent)?),
        NodeWork::Stop => {
            host.stop();
            Ok(())
        }
        NodeWork::Start { kept } => Ok(host.start(kept.as_slice(), sent)?),
        _ => unreachable!(),
    }
}

/// Whether the host can be given this.
fn can_take(host: &Host, work: &NodeWork) -> bool
    ensures { result ≡ host_can (host_of host.now) work.now }
{
    match work {
        NodeWork::Deliver(_) => true,
        NodeWork::Tick | NodeWork::Stop => host.runs(),
        NodeWork::Start { .. } => host.can_start(),
        _ => false,
    }
}
