//! Looking at a node.

ghost use Rattle.std.specs.Prelude.{◌≡◌, ◌<◌, ◌++◌, ◌↔◌, ◌⊎◌, true, false, length, drop, List, ℕ};
ghost use Rattle.std.specs.Option.{option_map};
ghost use Rattle.rc_mac.specs.Mac.{hmac_sha256};
ghost use Rattle.rc_world.specs.NodeView.{node_seen, book_in, NodeHasRoom};
ghost use Rattle.rc_session.specs.Looks.{info_of, tablets_code, servers_code, AreDue};
ghost use Rattle.sevunthi.specs.Shown.{shown, IsGiven, IsShown};

use crate::handle::SevunthiNode;
use crate::numbers::{DONE, MISUSED, NO_ROOM, number_of};
use rc_mac::hmac_sha256;
use rc_session::{Info, Session};
use std::alloc::Global;

/// A node at a glance. What only a host or its server has is 0, or does not hold, of another node.
#[repr(C)]
#[derive(Clone, Copy)]
pub struct SevunthiInfo {
    /// How many bytes the journal's file has, with those that were not taken yet.
    pub written: usize,
    /// How many of them are known to be safe.
    pub safe: usize,
    /// How many of them were not taken yet.
    pub untaken: usize,
    /// How many entries the newest segment of its log has: the place of the next one.
    pub entries: usize,
    /// The generation of the server of the host's last start; 0 where it was never started.
    pub generation: u32,
    /// The newest segment of its log.
    pub head: u16,
    /// The host's index.
    pub index: u8,
    /// Whether a server runs on the host.
    pub runs: bool,
    /// Whether that has learnt that the coordinator holds it for dead.
    pub is_deposed: bool,
    /// Whether something is held back until more is safe, or was not taken.
    pub is_waiting: bool,
    /// Whether a save was begun that has not taken the journal's place.
    pub is_saving: bool,
    /// Whether the node's numbers suffice for one more step.
    pub has_room: bool,
}

/// Shows the node.
#[unsafe(no_mangle)]
pub extern "C" fn sevunthi_info(
    alloc: Global,
    node: &mut SevunthiNode,
    info: &mut SevunthiInfo,
) -> u32
    ensures shown { result ≡ 0 → info.new ≡ shown (info_of node.old.cell.session info.new.has_room) }
    ensures room { result ≡ 0 →
        ((info.new.has_room ≡ true) ↔ NodeHasRoom (node_seen node.old.cell.session.process.node)) }
    ensures same { result ≡ 0 → node.new.cell.session ≡ node.old.cell.session }
    ensures full { node.new.full ≡ node.old.full }
    ensures misused { (result ≡ 2) ↔ (node.old.full ≡ false) }
    ensures answers { node.old.full ≡ true → result ≡ 0 }
{
    if !node.full {
        return MISUSED;
    }
    let session = node.take(alloc);
    *info = shown(session.info());
    *node = SevunthiNode::with(session);
    DONE
}

/// The same for a caller of C.
fn shown(info: Info) -> SevunthiInfo
    ensures { result ≡ shown info }
{
    let Info {
        server,
        runs,
        is_deposed,
        head,
        entries,
        written,
        safe,
        untaken,
        is_waiting,
        is_saving,
        has_room,
    } = info;
    SevunthiInfo {
        written,
        safe,
        untaken,
        entries,
        generation: server.generation,
        head,
        index: server.index,
        runs,
        is_deposed,
        is_waiting,
        is_saving,
        has_room,
    }
}

/// Copies bytes to the front of the caller's, if these are enough.
fn put_out(code: &[u8], to: &mut [u8], needed: &mut usize) -> u32
    ensures given { result ≡ 0 → IsGiven code.now to.old to.new needed.new }
    ensures room { result ≡ 6 → length to.old < needed.new }
    ensures same { (result ≡ 0 → ⊥) → to.new ≡ to.old }
    ensures answers { (result ≡ 0) ⊎ (result ≡ 6) }
{
    *needed = code.len();
    if to.len() < code.len() {
        return NO_ROOM;
    }
    let (front, _) = to.split_at_mut(code.len());
    front.copy_from_slice(code);
    DONE
}

/// The coordinator's tablets, in order of table and first key: how many there are, in eight bytes, and of each table,
/// first key, last key, owner, term, and whether the owner has crashed.
#[unsafe(no_mangle)]
pub extern "C" fn sevunthi_tablets(
    alloc: Global,
    node: &mut SevunthiNode,
    to: &mut [u8],
    needed: &mut usize,
) -> u32
    ensures given { result ≡ 0 →
        IsShown (option_map tablets_code (book_in node.old.cell.session.process.node)) to.old to.new needed.new }
    ensures room { result ≡ 6 → length to.old < needed.new }
    ensures same { (result ≡ 0 → ⊥) → to.new ≡ to.old }
    ensures kept { node.old.full ≡ true → node.new.cell.session ≡ node.old.cell.session }
    ensures full { node.new.full ≡ node.old.full }
    ensures misused { (result ≡ 2) ↔ (node.old.full ≡ false) }
{
    if !node.full {
        return MISUSED;
    }
    let session = node.take(alloc);
    let answer = tablets_in(&*session, to, needed);
    *node = SevunthiNode::with(session);
    answer
}

/// Those of a session.
#[tactic(auto, using(crate::proofs::Shows::found_is_shown))]
fn tablets_in(session: &Session, to: &mut [u8], needed: &mut usize) -> u32
    ensures given { result ≡ 0 →
        IsShown (option_map tablets_code (book_in session.now.process.node)) to.old to.new needed.new }
    ensures room { result ≡ 6 → length to.old < needed.new }
    ensures same { (result ≡ 0 → ⊥) → to.new ≡ to.old }
    ensures used { result ≡ 2 → ⊥ }
{
    match session.tablets() {
        Ok(code) => put_out(code.as_slice(), to, needed),
        Err(fault) => number_of(fault),
    }
}

/// The coordinator's servers, in the order of enlisting: how many there are, in eight bytes, and of each the id, and
/// whether it is up.
#[unsafe(no_mangle)]
pub extern "C" fn sevunthi_servers(
    alloc: Global,
    node: &mut SevunthiNode,
    to: &mut [u8],
    needed: &mut usize,
) -> u32
    ensures given { result ≡ 0 →
        IsShown (option_map servers_code (book_in node.old.cell.session.process.node)) to.old to.new needed.new }
    ensures room { result ≡ 6 → length to.old < needed.new }
    ensures same { (result ≡ 0 → ⊥) → to.new ≡ to.old }
    ensures kept { node.old.full ≡ true → node.new.cell.session ≡ node.old.cell.session }
    ensures full { node.new.full ≡ node.old.full }
    ensures misused { (result ≡ 2) ↔ (node.old.full ≡ false) }
{
    if !node.full {
        return MISUSED;
    }
    let session = node.take(alloc);
    let answer = servers_in(&*session, to, needed);
    *node = SevunthiNode::with(session);
    answer
}

/// Those of a session.
#[tactic(auto, using(crate::proofs::Shows::found_is_shown))]
fn servers_in(session: &Session, to: &mut [u8], needed: &mut usize) -> u32
    ensures given { result ≡ 0 →
        IsShown (option_map servers_code (book_in session.now.process.node)) to.old to.new needed.new }
    ensures room { result ≡ 6 → length to.old < needed.new }
    ensures same { (result ≡ 0 → ⊥) → to.new ≡ to.old }
    ensures used { result ≡ 2 → ⊥ }
{
    match session.servers() {
        Ok(code) => put_out(code.as_slice(), to, needed),
        Err(fault) => number_of(fault),
    }
}

/// What is due at the coordinator, for who was heard lately, who was silent for longer than one waits, and which owners
/// are stuck: each list is how many there are, in eight bytes, and the ids. Each due takes seven bytes: a Suspect and a
/// Decide are coded as works, to be given to the node; a Restart as a Stop with the id of the server that has to be
/// started anew.
#[unsafe(no_mangle)]
pub extern "C" fn sevunthi_dues(
    alloc: Global,
    node: &mut SevunthiNode,
    heard: &[u8],
    silent: &[u8],
    stuck: &[u8],
    to: &mut [u8],
    needed: &mut usize,
) -> u32
    ensures due { result ≡ 0 → (code : List ℕ)
        × AreDue heard.now silent.now stuck.now node.old.cell.session.process.node code
        × IsGiven code to.old to.new needed.new }
    ensures room { result ≡ 6 → length to.old < needed.new }
    ensures same { (result ≡ 0 → ⊥) → to.new ≡ to.old }
    ensures kept { node.old.full ≡ true → node.new.cell.session ≡ node.old.cell.session }
    ensures full { node.new.full ≡ node.old.full }
    ensures misused { (result ≡ 2) ↔ (node.old.full ≡ false) }
{
    if !node.full {
        return MISUSED;
    }
    let session = node.take(alloc);
    let answer = dues_in(&*session, heard, silent, stuck, to, needed);
    *node = SevunthiNode::with(session);
    answer
}

/// What is due at the coordinator of a session.
#[tactic(auto, using(crate::proofs::Shows::due_is_given))]
fn dues_in(
    session: &Session,
    heard: &[u8],
    silent: &[u8],
    stuck: &[u8],
    to: &mut [u8],
    needed: &mut usize,
) -> u32
    ensures due { result ≡ 0 → (code : List ℕ)
        × AreDue heard.now silent.now stuck.now session.now.process.node code
        × IsGiven code to.old to.new needed.new }
    ensures room { result ≡ 6 → length to.old < needed.new }
    ensures same { (result ≡ 0 → ⊥) → to.new ≡ to.old }
    ensures used { result ≡ 2 → ⊥ }
{
    match session.dues(heard, silent, stuck) {
        Ok(code) => put_out(code.as_slice(), to, needed),
        Err(fault) => number_of(fault),
    }
}

/// The sum over a message under a key, HMAC with SHA-256, in the first 32 of the caller's bytes.
#[unsafe(no_mangle)]
pub extern "C" fn sevunthi_mac(key: &[u8], message: &[u8], to: &mut [u8]) -> u32
    ensures sum { result ≡ 0 → to.new ≡ hmac_sha256 key.now message.now ++ drop 32 to.old }
    ensures room { (result ≡ 6) ↔ (length to.old < 32) }
    ensures same { (result ≡ 0 → ⊥) → to.new ≡ to.old }
{
    if to.len() < 32 {
        return NO_ROOM;
    }
    let sum = hmac_sha256(key, message);
    let (front, _) = to.split_at_mut(32);
    front.copy_from_slice(sum.as_slice());
    DONE
}
