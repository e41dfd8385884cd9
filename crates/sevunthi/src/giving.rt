//! Giving a node works and messages, and telling it what is safe.

ghost use Rattle.std.specs.Prelude.{[], ◌≡◌, ◌≤◌, ◌-◌, ◌↔◌, ◌⊎◌, true, false, length};
ghost use Rattle.rc_world.specs.NodeView.{node_seen, NodeHasRoom};
ghost use Rattle.rc_session.specs.Claims.{IsNoWork, TakesWork, CanTake, CanNotTake, CanStart, IsNoMessage};
ghost use Rattle.rc_session.specs.Claims.{TakesMessage};
ghost use Rattle.rc_session.specs.Claims.{MaySave, MayEndSave};
ghost use Rattle.rc_keeping.specs.SaveClaims.{IsSaved};
ghost use Rattle.rc_process.specs.View.{save_begun, moved};
ghost use Rattle.rc_session.specs.View.{session_seen, started_anew, stopped};

use crate::handle::SevunthiNode;
use crate::numbers::{DONE, MISUSED, REFUSED, number_of};
use rc_session::Session;
use std::alloc::Global;

/// Gives the node the work that these bytes are, as `rc_keeping` codes works.
#[unsafe(no_mangle)]
pub extern "C" fn sevunthi_step(alloc: Global, node: &mut SevunthiNode, work: &[u8]) -> u32
    ensures taken { result ≡ 0 →
        TakesWork work.now (session_seen node.old.cell.session) (session_seen node.new.cell.session) }
    ensures possible { result ≡ 0 → CanTake work.now (session_seen node.old.cell.session) }
    ensures coded { result ≡ 0 → IsNoWork work.now → ⊥ }
    ensures malformed { result ≡ 3 → IsNoWork work.now }
    ensures refused { result ≡ 4 → CanNotTake work.now (session_seen node.old.cell.session) }
    ensures used_up { result ≡ 5 → NodeHasRoom (node_seen node.old.cell.session.process.node) → ⊥ }
    ensures same { (result ≡ 0 → ⊥) → node.old.full ≡ true →
        session_seen node.new.cell.session ≡ session_seen node.old.cell.session }
    ensures full { node.new.full ≡ node.old.full }
    ensures misused { (result ≡ 2) ↔ (node.old.full ≡ false) }
{
    if !node.full {
        return MISUSED;
    }
    let mut session = node.take(alloc);
    let answer = step_in(&mut *session, work);
    *node = SevunthiNode::with(session);
    answer
}

/// Gives a session the work.
fn step_in(session: &mut Session, work: &[u8]) -> u32
    ensures taken { result ≡ 0 → TakesWork work.now (session_seen session.old) (session_seen session.new) }
    ensures possible { result ≡ 0 → CanTake work.now (session_seen session.old) }
    ensures coded { result ≡ 0 → IsNoWork work.now → ⊥ }
    ensures malformed { result ≡ 3 → IsNoWork work.now }
    ensures refused { result ≡ 4 → CanNotTake work.now (session_seen session.old) }
    ensures used_up { result ≡ 5 → NodeHasRoom (node_seen session.old.process.node) → ⊥ }
    ensures same { (result ≡ 0 → ⊥) → session_seen session.new ≡ session_seen session.old }
    ensures used { result ≡ 2 → ⊥ }
{
    match session.step(work) {
        Ok(()) => DONE,
        Err(fault) => number_of(fault),
    }
}

/// Delivers the message that these bytes are, as `rc_codec` codes messages. It has to be for this node.
#[unsafe(no_mangle)]
pub extern "C" fn sevunthi_deliver(alloc: Global, node: &mut SevunthiNode, message: &[u8]) -> u32
    ensures taken { result ≡ 0 →
        TakesMessage message.now (session_seen node.old.cell.session) (session_seen node.new.cell.session) }
    ensures coded { result ≡ 0 → IsNoMessage message.now → ⊥ }
    ensures malformed { result ≡ 3 → IsNoMessage message.now }
    ensures used_up { result ≡ 5 → NodeHasRoom (node_seen node.old.cell.session.process.node) → ⊥ }
    ensures same { (result ≡ 0 → ⊥) → node.old.full ≡ true →
        session_seen node.new.cell.session ≡ session_seen node.old.cell.session }
    ensures full { node.new.full ≡ node.old.full }
    ensures misused { (result ≡ 2) ↔ (node.old.full ≡ false) }
{
    if !node.full {
        return MISUSED;
    }
    let mut session = node.take(alloc);
    let answer = deliver_in(&mut *session, message);
    *node = SevunthiNode::with(session);
    answer
}

/// Delivers it to a session.
fn deliver_in(session: &mut Session, message: &[u8]) -> u32
    ensures taken { result ≡ 0 → TakesMessage message.now (session_seen session.old) (session_seen session.new) }
    ensures coded { result ≡ 0 → IsNoMessage message.now → ⊥ }
    ensures malformed { result ≡ 3 → IsNoMessage message.now }
    ensures used_up { result ≡ 5 → NodeHasRoom (node_seen session.old.process.node) → ⊥ }
    ensures same { (result ≡ 0 → ⊥) → session_seen session.new ≡ session_seen session.old }
    ensures used { result ≡ 2 → ⊥ }
{
    match session.deliver(message) {
        Ok(()) => DONE,
        Err(fault) => number_of(fault),
    }
}

/// Starts the host's server anew: stops it, if it runs, and starts it with all open replicas that the host has.
#[unsafe(no_mangle)]
pub extern "C" fn sevunthi_start(alloc: Global, node: &mut SevunthiNode) -> u32
    ensures started { result ≡ 0 →
        session_seen node.new.cell.session ≡ started_anew (session_seen node.old.cell.session) }
    ensures possible { result ≡ 0 → CanStart (stopped (session_seen node.old.cell.session)) }
    ensures same { (result ≡ 0 → ⊥) → node.old.full ≡ true →
        (session_seen node.new.cell.session ≡ session_seen node.old.cell.session)
        ⊎ (session_seen node.new.cell.session ≡ stopped (session_seen node.old.cell.session)) }
    ensures full { node.new.full ≡ node.old.full }
    ensures misused { (result ≡ 2) ↔ (node.old.full ≡ false) }
{
    if !node.full {
        return MISUSED;
    }
    let mut session = node.take(alloc);
    let answer = start_in(&mut *session);
    *node = SevunthiNode::with(session);
    answer
}

/// Starts the server of a session.
fn start_in(session: &mut Session) -> u32
    ensures started { result ≡ 0 → session_seen session.new ≡ started_anew (session_seen session.old) }
    ensures possible { result ≡ 0 → CanStart (stopped (session_seen session.old)) }
    ensures same { (result ≡ 0 → ⊥) → (session_seen session.new ≡ session_seen session.old)
        ⊎ (session_seen session.new ≡ stopped (session_seen session.old)) }
    ensures used { result ≡ 2 → ⊥ }
{
    match session.start() {
        Ok(()) => DONE,
        Err(fault) => number_of(fault),
    }
}

/// So many bytes of the journal's file are safe: they will be there after any crash. Refused below what was safe, and
/// above what was taken of the file.
#[unsafe(no_mangle)]
pub extern "C" fn sevunthi_synced(alloc: Global, node: &mut SevunthiNode, count: usize) -> u32
    ensures taken { result ≡ 0 → node.new.cell.session ≡
        record node.old.cell.session { process = record node.old.cell.session.process { safe = count } } }
    ensures within { result ≡ 0 → (node.old.cell.session.process.safe ≤ count)
        × (count ≤ node.old.cell.session.process.written - length node.old.cell.session.journal) }
    ensures refused { result ≡ 4 → (node.old.cell.session.process.safe ≤ count)
        × (count ≤ node.old.cell.session.process.written - length node.old.cell.session.journal) → ⊥ }
    ensures same { result ≡ 4 → node.new.cell.session ≡ node.old.cell.session }
    ensures full { node.new.full ≡ node.old.full }
    ensures misused { (result ≡ 2) ↔ (node.old.full ≡ false) }
    ensures answers { (result ≡ 0) ⊎ (result ≡ 2) ⊎ (result ≡ 4) }
{
    if !node.full {
        return MISUSED;
    }
    let mut session = node.take(alloc);
    let is_done = session.synced(count);
    *node = SevunthiNode::with(session);
    if is_done { DONE } else { REFUSED }
}

/// Begins a save, which is to be the second file: `sevunthi_take_second` gives it. From now on what
/// `sevunthi_take_journal` gives belongs at the end of both files. Refused while something has to be added to the
/// journal first, or a save was begun.
#[unsafe(no_mangle)]
pub extern "C" fn sevunthi_save(alloc: Global, node: &mut SevunthiNode) -> u32
    ensures saved { result ≡ 0 →
        IsSaved node.old.cell.session.process.node [] node.new.cell.session.second }
    ensures begun { result ≡ 0 → session_seen node.new.cell.session ≡ record (session_seen node.old.cell.session) {
      process = save_begun (session_seen node.old.cell.session).process (length node.new.cell.session.second);
      second = node.new.cell.session.second;
    } }
    ensures refused { result ≡ 4 → MaySave (session_seen node.old.cell.session) → ⊥ }
    ensures same { (result ≡ 0 → ⊥) → node.old.full ≡ true →
        session_seen node.new.cell.session ≡ session_seen node.old.cell.session }
    ensures full { node.new.full ≡ node.old.full }
    ensures misused { (result ≡ 2) ↔ (node.old.full ≡ false) }
{
    if !node.full {
        return MISUSED;
    }
    let mut session = node.take(alloc);
    let answer = save_in(&mut *session);
    *node = SevunthiNode::with(session);
    answer
}

/// Begins the save of a session.
fn save_in(session: &mut Session) -> u32
    ensures saved { result ≡ 0 → IsSaved session.old.process.node [] session.new.second }
    ensures begun { result ≡ 0 → session_seen session.new ≡ record (session_seen session.old) {
      process = save_begun (session_seen session.old).process (length session.new.second);
      second = session.new.second;
    } }
    ensures refused { result ≡ 4 → MaySave (session_seen session.old) → ⊥ }
    ensures same { (result ≡ 0 → ⊥) → session_seen session.new ≡ session_seen session.old }
    ensures used { result ≡ 2 → ⊥ }
{
    match session.save() {
        Ok(()) => DONE,
        Err(fault) => number_of(fault),
    }
}

/// The second file has taken the journal's place, and that is safe. From now on bytes are counted in the new file.
/// Refused where no save was begun, or the second file was not taken.
#[unsafe(no_mangle)]
pub extern "C" fn sevunthi_saved(alloc: Global, node: &mut SevunthiNode) -> u32
    ensures moved { result ≡ 0 → session_seen node.new.cell.session ≡
        record (session_seen node.old.cell.session) { process = moved (session_seen node.old.cell.session).process } }
    ensures may { result ≡ 0 → MayEndSave (session_seen node.old.cell.session) }
    ensures refused { result ≡ 4 → MayEndSave (session_seen node.old.cell.session) → ⊥ }
    ensures same { result ≡ 4 → node.new.cell.session ≡ node.old.cell.session }
    ensures full { node.new.full ≡ node.old.full }
    ensures misused { (result ≡ 2) ↔ (node.old.full ≡ false) }
    ensures answers { (result ≡ 0) ⊎ (result ≡ 2) ⊎ (result ≡ 4) }
{
    if !node.full {
        return MISUSED;
    }
    let mut session = node.take(alloc);
    let is_done = session.saved();
    *node = SevunthiNode::with(session);
    if is_done { DONE } else { REFUSED }
}
