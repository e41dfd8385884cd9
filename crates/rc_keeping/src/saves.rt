//! Saving a node, and loading it.

ghost use Rattle.std.specs.Prelude.{◌≡◌, ◌↔◌, ◌++◌, Some, None, Err, OnOk, OnErr, IfOk, IfErr};
ghost use Rattle.rc_codec.specs.declared.faults.DecodeFault.TheVariants.{Malformed};
ghost use Rattle.rc_history.specs.Nodes.{TheHost};
ghost use Rattle.rc_coordinator.specs.Book.{IsBook};
ghost use Rattle.rc_world.specs.HostParts.{host_parts_in, host_from};
ghost use Rattle.rc_world.specs.NodeView.{CoordinatorData, node_seen};
ghost use Rattle.rc_keeping.specs.Saved.{HostSave, CoordinatorSave, saved_of, node_from, save_of};
ghost use Rattle.rc_keeping.specs.Order.{IsInOrder, AreSound, IsSound};
ghost use Rattle.rc_keeping.specs.SaveClaims.{IsSaved, IsLoaded, IsNodeOf, CodesNothing, BeginsWithNoSave};
ghost use Rattle.rc_keeping.specs.declared.faults.SaveFault.TheVariants.{Outside};

use crate::book_putting::put_coordinator;
use crate::book_reading::WrittenBook;
use crate::building::table_of;
use crate::faults::SaveFault;
use crate::putting::put_host;
use crate::reading::{Kind, Read, Written, take_alone};
use crate::seals::{seal, unseal};
use rc_backup::Backup;
use rc_codec::DecodeFault;
use rc_coordinator::{Coordinator, ListsFault};
use rc_world::{HostHead, NodeState};
use std::alloc::{AllocError, Allocator, Global};

/// Adds the save of a node at the end of `out`: of a host all of it but its master, of the coordinator all of it. While
/// it runs it takes memory for some three times the save.
///
/// # Errors
///
/// `Outside`: the node is the outside, which keeps nothing. `OutOfMemory`: memory was refused. After either `out` is as
/// before.
#[tactic(auto, using(crate::proofs::SaveLaws::saved_host))]
pub fn save_into<A: Allocator + Clone>(
    alloc: Global,
    node: &NodeState<A>,
    out: &mut Vec<u8>,
) -> Result<(), SaveFault>
    ensures ok { OnOk result (IsSaved node.now out.old.items out.new.items) }
    ensures outside { (result ≡ Err Outside) ↔ (saved_of node.now ≡ None) }
    ensures err { OnErr result (out.new.items ≡ out.old.items) }
{
    match node.parts() {
        Some((head, backup)) => match save_parts(alloc, &head, backup, out) {
            Ok(()) => Ok(()),
            Err(_) => Err(SaveFault::OutOfMemory),
        },
        None => save_no_host(alloc, node, out),
    }
}

/// Adds the save of a node that is no host.
#[tactic(auto, using(crate::proofs::SaveLaws::is_saved_book, crate::proofs::SaveLaws::saved_nothing))]
fn save_no_host<A: Allocator + Clone>(
    alloc: Global,
    node: &NodeState<A>,
    out: &mut Vec<u8>,
) -> Result<(), SaveFault>
    requires { host_parts_in node.now ≡ None }
    ensures ok { OnOk result (IsSaved node.now out.old.items out.new.items) }
    ensures outside { (result ≡ Err Outside) ↔ (saved_of node.now ≡ None) }
    ensures err { OnErr result (out.new.items ≡ out.old.items) }
{
    match node.as_coordinator() {
        Some(coordinator) => match save_coordinator(alloc, coordinator, out) {
            Ok(()) => Ok(()),
            Err(_) => Err(SaveFault::OutOfMemory),
        },
        None => Err(SaveFault::Outside),
    }
}

/// The node whose save the bytes begin with, and how many bytes that takes. Others may follow. The coordinator is just
/// as it was saved, and its tablets lie in memory of the second allocator. Where a server ran on a host, one runs on it
/// again, whose master has just begun: so its backup takes what was sent to that server, as the host's did after the
/// host was saved, and a stop makes the two hosts equal (`laws::saved_hosts_come_back`). It can not know which node was
/// meant: compare what `NodeState::parts` says with what is to run. No memory is taken by a length that was only read.
///
/// # Errors
///
/// `Malformed` where the bytes begin with no save: it is cut short, does not have its sum, or is none. `OutOfMemory`
/// where memory was refused.
pub fn load<A: Allocator + Clone>(
    alloc: Global,
    tablets: A,
    bytes: &[u8],
) -> Result<(NodeState<A>, usize), DecodeFault>
    ensures loaded { IfOk result (λ found. IsLoaded bytes.now found.0 found.1) }
    ensures refused { IfErr result (λ fault. fault ≡ Malformed → BeginsWithNoSave bytes.now) }
{
    match unseal(alloc, bytes) {
        Ok((code, rest)) => match load_code(alloc, tablets, code) {
            Ok(node) => Ok((node, bytes.len() - rest.len())),
            Err(fault) => Err(fault),
        },
        Err(fault) => Err(fault),
    }
}

/// Both parts of a host, in their frame.
fn save_parts(
    alloc: Global,
    head: &HostHead,
    backup: &Backup,
    out: &mut Vec<u8>,
) -> Result<(), AllocError>
    ensures written { OnOk result (out.new.items ≡
        out.old.items ++ save_of (HostSave (record { head = head.now; backup = backup.now }))) }
    ensures ordered { OnOk result (IsInOrder backup.now.table) }
    ensures err { OnErr result (out.new.items ≡ out.old.items) }
{
    let mut code = Vec::new(alloc);
    put_host(head, backup, &mut code)?;
    seal(code.as_slice(), out)
}

/// The coordinator, in its frame.
fn save_coordinator<A: Allocator + Clone>(
    alloc: Global,
    coordinator: &Coordinator<A>,
    out: &mut Vec<u8>,
) -> Result<(), AllocError>
    ensures written { OnOk result (out.new.items ≡ out.old.items ++ save_of (CoordinatorSave coordinator.now)) }
    ensures sound { OnOk result (IsBook coordinator.now) }
    ensures err { OnErr result (out.new.items ≡ out.old.items) }
{
    let mut code = Vec::new(alloc);
    put_coordinator(alloc, coordinator, &mut code)?;
    seal(code.as_slice(), out)
}

/// The node that these bytes are.
fn load_code<A: Allocator + Clone>(
    alloc: Global,
    tablets: A,
    code: &[u8],
) -> Result<NodeState<A>, DecodeFault>
    ensures loaded { IfOk result (λ node. IsNodeOf code.now node) }
    ensures refused { IfErr result (λ fault. fault ≡ Malformed → CodesNothing code.now) }
{
    match take_alone(alloc, code) {
        Ok(read) => match node_from(alloc, tablets, read) {
            Ok(node) => Ok(node),
            Err(fault) => Err(fault),
        },
        Err(fault) => Err(fault),
    }
}

/// The node of what was read, where a node has such a save.
#[tactic(auto, using(crate::proofs::SaveLaws::saved_host))]
fn node_from<A: Allocator + Clone>(
    alloc: Global,
    tablets: A,
    read: Read,
) -> Result<NodeState<A>, DecodeFault>
    ensures made { IfOk result (λ node. node_seen node ≡ node_from read) }
    ensures its { IfOk result (λ node. saved_of node ≡ Some read) }
    ensures refused { IfErr result (λ fault. fault ≡ Malformed → IsSound read → ⊥) }
{
    let Read { kind } = read;
    match kind {
        Kind::Host(written) => match host_from(alloc, written) {
            Ok(node) => Ok(node),
            Err(fault) => Err(fault),
        },
        Kind::Coordinator(written) => match coordinator_from(alloc, tablets, written) {
            Ok(node) => Ok(node),
            Err(fault) => Err(fault),
        },
    }
}

/// The node that is the coordinator of this book, where a coordinator has such a one.
fn coordinator_from<A: Allocator + Clone>(
    alloc: Global,
    tablets: A,
    written: WrittenBook,
) -> Result<NodeState<A>, DecodeFault>
    ensures coordinator { IfOk result (λ node. node ≡ CoordinatorData written) }
    ensures refused { IfErr result (λ fault. fault ≡ Malformed → IsBook written → ⊥) }
{
    let lists = match written.into_lists(alloc) {
        Ok(lists) => lists,
        Err(_) => return Err(DecodeFault::OutOfMemory),
    };
    match Coordinator::from_lists(alloc, tablets, lists) {
        Ok(coordinator) => Ok(NodeState::of_coordinator(alloc, coordinator)),
        Err(ListsFault::NoCoordinator) => Err(DecodeFault::Malformed),
        Err(ListsFault::OutOfMemory) => Err(DecodeFault::OutOfMemory),
    }
}

/// The host of these parts, where their numbers are within the limits and all lists are in order.
fn host_from<A: Allocator + Clone>(
    alloc: Global,
    written: Written,
) -> Result<NodeState<A>, DecodeFault>
    ensures host { IfOk result (λ node. node_seen node ≡ TheHost (host_from written)) }
    ensures its { IfOk result (λ node. host_parts_in node ≡ Some written) }
    ensures refused { IfErr result (λ fault. fault ≡ Malformed → AreSound written → ⊥) }
{
    let head = written.head();
    if !head.is_within_limits() {
        return Err(DecodeFault::Malformed);
    }
    let (own, table) = written.into_kept();
    match table_of(alloc, table) {
        Ok(table) => Ok(NodeState::of_parts(alloc, head, Backup::of_kept(alloc, own, table))),
        Err(fault) => Err(fault),
    }
}
