//! Making a node, and freeing it.

ghost use Rattle.std.specs.Prelude.{[], ◌≡◌, ◌↔◌, true, false, None};
ghost use Rattle.rc_model.specs.Coordinator.{new_coordinator};
ghost use Rattle.rc_model.specs.Nodes.{new_host};
ghost use Rattle.rc_history.specs.Nodes.{TheCoordinator, TheHost};
ghost use Rattle.rc_keeping.specs.SaveClaims.{BeginsWithNoSave};
ghost use Rattle.rc_process.specs.View.{IsBack, IsTooShort, RunsOut, process_seen};
ghost use Rattle.rc_session.specs.Claims.{IsFirst, AreWithin, setup_for};

use crate::handle::SevunthiNode;
use crate::numbers::{DONE, MISUSED, NO_MEMORY, number_of};
use rc_session::Session;
use std::alloc::Global;

/// Fills an empty place.
fn put_in(alloc: Global, node: &mut SevunthiNode, session: Session) -> u32
    ensures session { result ≡ 0 → node.new.cell.session ≡ session }
    ensures full { result ≡ 0 → node.new.full ≡ true }
    ensures same { (result ≡ 0 → ⊥) → node.new ≡ node.old }
    ensures number { result ≡ 2 → ⊥ }
    ensures used_up { result ≡ 5 → ⊥ }
    ensures range { result ≡ 7 → ⊥ }
    ensures save { result ≡ 9 → ⊥ }
    ensures short { result ≡ 10 → ⊥ }
{
    match Box::new(alloc, session) {
        Ok(session) => {
            *node = SevunthiNode::with(session);
            DONE
        }
        Err(_) => NO_MEMORY,
    }
}

/// The coordinator, before anything has happened, in an empty place. What `sevunthi_take_journal` gives is the whole
/// file to begin with, and has to be safe before the node is given anything. It is called once, when the cluster is set
/// up.
#[unsafe(no_mangle)]
pub extern "C" fn sevunthi_coordinator(alloc: Global, node: &mut SevunthiNode) -> u32
    ensures new { result ≡ 0 → IsFirst (TheCoordinator new_coordinator) node.new.cell.session }
    ensures full { result ≡ 0 → node.new.full ≡ true }
    ensures misused { (result ≡ 2) ↔ (node.old.full ≡ true) }
    ensures same { (result ≡ 0 → ⊥) → node.new ≡ node.old }
{
    if node.full {
        return MISUSED;
    }
    match Session::coordinator(alloc) {
        Ok(session) => put_in(alloc, node, session),
        Err(fault) => number_of(fault),
    }
}

/// A host of this index, which was never started, in an empty place. Each segment is to have `factor` replicas, and to
/// take `segment` entries; `free` says whether segments that have become wholly dead are freed. Its journal's file is
/// as of `sevunthi_coordinator`.
#[unsafe(no_mangle)]
pub extern "C" fn sevunthi_host(
    alloc: Global,
    node: &mut SevunthiNode,
    index: u8,
    factor: u8,
    segment: u16,
    free: bool,
) -> u32
    ensures new { result ≡ 0 →
        IsFirst (TheHost (new_host index (setup_for factor segment free))) node.new.cell.session }
    ensures full { result ≡ 0 → node.new.full ≡ true }
    ensures misused { (result ≡ 2) ↔ (node.old.full ≡ true) }
    ensures range { result ≡ 7 → AreWithin index factor segment → ⊥ }
    ensures refused { node.old.full ≡ false → (AreWithin index factor segment → ⊥) → result ≡ 7 }
    ensures same { (result ≡ 0 → ⊥) → node.new ≡ node.old }
{
    if node.full {
        return MISUSED;
    }
    match Session::host(alloc, index, factor, segment, free) {
        Ok(session) => put_in(alloc, node, session),
        Err(fault) => number_of(fault),
    }
}

/// The node that has come back from its journal's file, in an empty place. It is stopped, if it ran. Cut the file to
/// `written` less `untaken` of `sevunthi_info`, add what `sevunthi_take_journal` gives, and sync: nothing is safe yet.
/// `known` is how many bytes of the file were known to be safe.
#[unsafe(no_mangle)]
pub extern "C" fn sevunthi_come_back(
    alloc: Global,
    node: &mut SevunthiNode,
    file: &[u8],
    known: usize,
) -> u32
    ensures back { result ≡ 0 →
        IsBack file.now known (process_seen node.new.cell.session.process) node.new.cell.session.journal }
    ensures nothing { result ≡ 0 →
        (node.new.cell.session.second ≡ []) × (node.new.cell.session.hand ≡ None) }
    ensures full { result ≡ 0 → node.new.full ≡ true }
    ensures misused { (result ≡ 2) ↔ (node.old.full ≡ true) }
    ensures used_up { result ≡ 5 → RunsOut file.now }
    ensures save { result ≡ 9 → BeginsWithNoSave file.now }
    ensures short { result ≡ 10 → IsTooShort file.now known }
    ensures same { (result ≡ 0 → ⊥) → node.new ≡ node.old }
{
    if node.full {
        return MISUSED;
    }
    match Session::come_back(alloc, file, known) {
        Ok(session) => put_in(alloc, node, session),
        Err(fault) => number_of(fault),
    }
}

/// Frees the node, if there is one: the place is empty then.
#[unsafe(no_mangle)]
pub extern "C" fn sevunthi_free(alloc: Global, node: &mut SevunthiNode)
    ensures { node.new.full ≡ false }
{
    if node.full {
        node.take(alloc);
    }
}
