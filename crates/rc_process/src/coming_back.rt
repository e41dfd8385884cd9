//! A process that begins, and one that comes back from its file.

ghost use Rattle.std.specs.Prelude.{◌≡◌, ◌↔◌, ◌⊎◌, ◌++◌, ◌-◌, true, false, length};
ghost use Rattle.std.specs.Prelude.{Err, None, IfOk, IfErr, OnOk, OnErr};
ghost use Rattle.rc_types.specs.declared.faults.Fault.TheVariants.{OutOfMemory as F1, BadEvent};
ghost use Rattle.rc_history.specs.Nodes.{node_can};
ghost use Rattle.rc_world.specs.declared.work.StepFault.TheVariants.{NoRoom as NoRoomLeft, Refused};
ghost use Rattle.rc_world.specs.NodeView.{node_seen, NodeHasRoom};
ghost use Rattle.rc_keeping.specs.Saved.{saved_of};
ghost use Rattle.rc_keeping.specs.declared.faults.SaveFault.TheVariants.{Outside, OutOfMemory};
ghost use Rattle.rc_keeping.specs.SaveClaims.{IsSaved, BeginsWithNoSave};
ghost use Rattle.rc_keeping.specs.Standing.{node_next, node_given};
ghost use Rattle.rc_process.specs.View.{IsBack, IsReplayed, IsUnloaded, IsTooShort, RunsOut, RunsOutAfter, begun};
ghost use Rattle.rc_process.specs.View.{process_seen};
ghost use Rattle.rc_process.specs.View.{ended, end_written, given, written_down, whole_start};
ghost use Rattle.rc_process.specs.declared.faults.BackFault.TheVariants.{NoSave, TooShort, NoMemory, NoRoom};

use crate::faults::BackFault;
use crate::process::Process;
use rc_codec::DecodeFault;
use rc_keeping::{SaveFault, load, read_back, save_into};
use rc_types::{Fault, NodeWork, Seq};
use rc_world::{NodeState, StepFault};
use std::alloc::{Allocator, Global};

impl<A: Allocator + Clone> Process<A> {
    /// The process of a node that has taken nothing yet. Its save is added to `out`: this is the journal's file to
    /// begin with, and has to be safe before the node is given a work. It is called once for each node, when that is
    /// set up.
    ///
    /// # Errors
    ///
    /// `Outside`: the node is the outside, which keeps nothing. `OutOfMemory`: memory was refused. After either `out`
    /// is as before.
    #[tactic(auto, using(crate::proofs::Coded::save_faults))]
    pub fn begin(
        alloc: Global,
        node: NodeState<A>,
        out: &mut Vec<u8>,
    ) -> Result<Process<A>, SaveFault>
        ensures saved { OnOk result (IsSaved node out.old.items out.new.items) }
        ensures begun { IfOk result (λ process. process ≡ begun node (length out.new.items - length out.old.items)) }
        ensures outside { (result ≡ Err Outside) ↔ (saved_of node ≡ None) }
        ensures fault { IfErr result (λ fault. (fault ≡ Outside) ⊎ (fault ≡ OutOfMemory)) }
        ensures unwritten { OnErr result (out.new.items ≡ out.old.items) }
    {
        let length = out.len();
        match save_into(alloc, &node, out) {
            Ok(()) => {}
            Err(fault) => return Err(fault),
        }
        let size = out.len() - length;
        Ok(Process::of_node(alloc, node, size))
    }

    /// The process that has come back from its file, and what it adds to that. Its node is as it was, a host but for
    /// its master: it is stopped, if it ran, and that has to be written down too. The file has to be cut where its good
    /// bytes end, which are `written` of the process less what is added, and to be synced: nothing of it counts as safe
    /// yet. `known` is how many bytes of the file were known to be safe.
    ///
    /// # Errors
    ///
    /// `NoSave`: the file begins with no save. `TooShort`: it does, but fewer bytes are good than were known to be
    /// safe. After either the node has forgotten what others know, and must not start again. `NoMemory`: memory was
    /// refused. `NoRoom`: the node's numbers do not suffice to give it its works again, or to stop it.
    pub fn come_back(
        alloc: Global,
        tablets: A,
        file: &[u8],
        known: usize,
    ) -> Result<(Process<A>, Vec<u8>), BackFault>
        ensures back { IfOk result (λ found. IsBack file.now known (process_seen found.0) found.1.items) }
        ensures none { result ≡ Err NoSave → BeginsWithNoSave file.now }
        ensures loads { IsUnloaded file.now → (result ≡ Err NoSave) ⊎ (result ≡ Err NoMemory) }
        ensures short { result ≡ Err TooShort → IsTooShort file.now known }
        ensures full { IfErr result (λ fault. fault ≡ NoRoom → RunsOut file.now) }
        ensures fault { IfErr result (λ fault.
            (fault ≡ NoSave) ⊎ (fault ≡ TooShort) ⊎ (fault ≡ NoMemory) ⊎ (fault ≡ NoRoom)) }
    {
        let mut process = match replayed(alloc, tablets, file) {
            Ok(process) => process,
            Err(fault) => return Err(fault),
        };
        if process.written() < known {
            return Err(BackFault::TooShort);
        }
        let mut out = Vec::new(alloc);
        match stop(&mut process, &mut out) {
            Ok(()) => Ok((process, out)),
            Err(StepFault::NoRoom) => Err(BackFault::NoRoom),
            Err(StepFault::Refused(_)) => Err(BackFault::NoMemory),
        }
    }

    /// Starts a server on the host, with all open replicas that it still has: gives it the Start that names them. This
    /// is what a new host is given first, and one that has come back.
    ///
    /// # Errors
    ///
    /// `NoRoom`: the host's numbers do not suffice for one more step. `BadEvent` (F18): a server runs there, or the
    /// node is no host. `OutOfMemory` (F1): memory was refused. After each nothing has changed, and nothing is to be
    /// written.
    pub fn start(&mut self, out: &mut Vec<u8>) -> Result<(), StepFault>
        ensures taken { OnOk result (process_seen self.new ≡
            given (process_seen self.old) (whole_start (node_seen self.old.node))) }
        ensures written { OnOk result (out.new.items ≡
            out.old.items ++ written_down (node_seen self.old.node) (whole_start (node_seen self.old.node))) }
        ensures possible { OnOk result (
            node_can (node_seen self.old.node) (whole_start (node_seen self.old.node)) ≡ true) }
        ensures full { (result ≡ Err NoRoomLeft) ↔ (NodeHasRoom (node_seen self.old.node) → ⊥) }
        ensures bad { result ≡ Err (Refused BadEvent) →
            node_can (node_seen self.old.node) (whole_start (node_seen self.old.node)) ≡ false }
        ensures fault { IfErr result (λ fault.
            (fault ≡ NoRoomLeft) ⊎ (fault ≡ Refused F1) ⊎ (fault ≡ Refused BadEvent)) }
        ensures err { OnErr result (process_seen self.new ≡ process_seen self.old) }
        ensures unwritten { OnErr result (out.new.items ≡ out.old.items) }
    {
        if !self.node().has_room() {
            return Err(StepFault::NoRoom);
        }
        match whole_start(self.alloc(), self.node()) {
            Ok(work) => self.give(&work, out),
            Err(_) => Err(StepFault::Refused(Fault::OutOfMemory)),
        }
    }
}

/// The start of a host with all open replicas that it has.
#[tactic(auto, using(crate::proofs::Coded::starts_whole, crate::proofs::Coded::starts_nothing))]
fn whole_start<A: Allocator + Clone>(alloc: Global, node: &NodeState<A>) -> Result<NodeWork, Fault>
    ensures { IfOk result (λ work. work ≡ whole_start (node_seen node.now)) }
{
    let Some(backup) = node.backup() else {
        return Ok(NodeWork::Start {
            kept: Seq::new(alloc),
        });
    };
    let names = backup.open_names()?;
    Ok(NodeWork::Start {
        kept: Seq::from_vec(names),
    })
}

/// The process of a file, before its node is stopped.
fn replayed<A: Allocator + Clone>(
    alloc: Global,
    tablets: A,
    file: &[u8],
) -> Result<Process<A>, BackFault>
    ensures back { IfOk result (λ process. IsReplayed file.now (process_seen process)) }
    ensures none { result ≡ Err NoSave → BeginsWithNoSave file.now }
    ensures loads { IsUnloaded file.now → (result ≡ Err NoSave) ⊎ (result ≡ Err NoMemory) }
    ensures full { IfErr result (λ fault. fault ≡ NoRoom → RunsOut file.now) }
    ensures fault { IfErr result (λ fault. (fault ≡ NoSave) ⊎ (fault ≡ NoMemory) ⊎ (fault ≡ NoRoom)) }
{
    let (node, count) = match load(alloc, tablets, file) {
        Ok(found) => found,
        Err(DecodeFault::Malformed) => return Err(BackFault::NoSave),
        Err(DecodeFault::OutOfMemory) => return Err(BackFault::NoMemory),
    };
    if count > file.len() {
        return Err(BackFault::NoMemory);
    }
    let (works, good) = match read_back(alloc, &file[count..]) {
        Ok(found) => found,
        Err(_) => return Err(BackFault::NoMemory),
    };
    let Some(written) = count.checked_add(good) else {
        return Err(BackFault::NoMemory);
    };
    match replay(alloc, node, works.as_slice()) {
        Ok(node) => Ok(Process::of_node(alloc, node, written)),
        Err(StepFault::NoRoom) => Err(BackFault::NoRoom),
        Err(StepFault::Refused(_)) => Err(BackFault::NoMemory),
    }
}

/// Stops a host that runs, and adds the record of that.
fn stop<A: Allocator + Clone>(process: &mut Process<A>, out: &mut Vec<u8>) -> Result<(), StepFault>
    ensures ended { OnOk result (process_seen process.new ≡ ended (process_seen process.old)) }
    ensures written { OnOk result (out.new.items ≡ out.old.items ++ end_written (process_seen process.old)) }
    ensures full { result ≡ Err NoRoomLeft → NodeHasRoom (process_seen process.old).node → ⊥ }
{
    if !process.node().runs() {
        return Ok(());
    }
    process.give(&NodeWork::Stop, out)
}

/// Gives the node these works again, and drops what it sends. What it refuses it refused before, and is passed over.
#[tactic(auto, using(crate::proofs::Again::one_more))]
pub(crate) fn replay<A: Allocator + Clone>(
    alloc: Global,
    node: NodeState<A>,
    works: &[NodeWork],
) -> Result<NodeState<A>, StepFault>
    ensures again { IfOk result (λ after. node_seen after ≡ node_given (node_seen node) works.now) }
    ensures full { IfErr result (λ fault. fault ≡ NoRoomLeft → RunsOutAfter (node_seen node) works.now) }
{
    let mut node = node;
    for work in works {
        take_again(alloc, &mut node, work)?;
    }
    Ok(node)
}

/// One of them.
fn take_again<A: Allocator + Clone>(
    alloc: Global,
    node: &mut NodeState<A>,
    work: &NodeWork,
) -> Result<(), StepFault>
    ensures next { OnOk result (node_seen node.new ≡ node_next (node_seen node.old) work.now) }
    ensures full { IfErr result (λ fault. fault ≡ NoRoomLeft → NodeHasRoom (node_seen node.old) → ⊥) }
{
    let mut dropped = Vec::new(alloc);
    match node.try_step_into(work, &mut dropped) {
        Ok(()) => Ok(()),
        Err(StepFault::Refused(Fault::BadEvent)) => Ok(()),
        Err(fault) => Err(fault),
    }
}
