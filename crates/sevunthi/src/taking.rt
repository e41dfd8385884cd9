//! Taking from a node what has to be written and what may leave, into the caller's bytes.

ghost use Rattle.std.specs.Prelude.{[], ◌≡◌, ◌<◌, ◌++◌, ◌↔◌, true, false, length, drop};
ghost use Rattle.rc_session.specs.View.{session_seen};
ghost use Rattle.rc_session.specs.Claims.{IsInHand, HasLeft, HasNoRoom, MustWait};

use crate::handle::SevunthiNode;
use crate::numbers::{DONE, MISUSED, NO_MEMORY, NO_ROOM, NOTHING};
use rc_session::{Leaving, Session};
use std::alloc::Global;

/// Moves what has to be added to the journal's file to the front of the caller's bytes, if these are enough. `needed`
/// is how many bytes it takes.
#[unsafe(no_mangle)]
pub extern "C" fn sevunthi_take_journal(
    alloc: Global,
    node: &mut SevunthiNode,
    to: &mut [u8],
    needed: &mut usize,
) -> u32
    ensures taken { result ≡ 0 → node.new.cell.session ≡ record node.old.cell.session { journal = [] } }
    ensures bytes { result ≡ 0 → to.new ≡
        node.old.cell.session.journal ++ drop (length node.old.cell.session.journal) to.old }
    ensures needed { node.old.full ≡ true → needed.new ≡ length node.old.cell.session.journal }
    ensures room { result ≡ 6 → length to.old < needed.new }
    ensures left { result ≡ 6 → node.new.cell.session ≡ node.old.cell.session }
    ensures same { (result ≡ 0 → ⊥) → to.new ≡ to.old }
    ensures full { node.new.full ≡ node.old.full }
    ensures misused { (result ≡ 2) ↔ (node.old.full ≡ false) }
{
    if !node.full {
        return MISUSED;
    }
    let mut session = node.take(alloc);
    *needed = session.journal_len();
    let is_taken = session.take_journal(to);
    *node = SevunthiNode::with(session);
    if is_taken { DONE } else { NO_ROOM }
}

/// Moves the second file of a save that was begun to the front of the caller's bytes, if these are enough. `needed` is
/// how many bytes it takes.
#[unsafe(no_mangle)]
pub extern "C" fn sevunthi_take_second(
    alloc: Global,
    node: &mut SevunthiNode,
    to: &mut [u8],
    needed: &mut usize,
) -> u32
    ensures taken { result ≡ 0 → node.new.cell.session ≡ record node.old.cell.session { second = [] } }
    ensures bytes { result ≡ 0 → to.new ≡
        node.old.cell.session.second ++ drop (length node.old.cell.session.second) to.old }
    ensures needed { node.old.full ≡ true → needed.new ≡ length node.old.cell.session.second }
    ensures room { result ≡ 6 → length to.old < needed.new }
    ensures left { result ≡ 6 → node.new.cell.session ≡ node.old.cell.session }
    ensures same { (result ≡ 0 → ⊥) → to.new ≡ to.old }
    ensures full { node.new.full ≡ node.old.full }
    ensures misused { (result ≡ 2) ↔ (node.old.full ≡ false) }
{
    if !node.full {
        return MISUSED;
    }
    let mut session = node.take(alloc);
    *needed = session.second_len();
    let is_taken = session.take_second(to);
    *node = SevunthiNode::with(session);
    if is_taken { DONE } else { NO_ROOM }
}

/// Lets what one step has sent leave: moves it to the front of the caller's bytes, each message behind its length in
/// four bytes, the least first. `needed` is how many bytes it takes; a step may have sent nothing. Call it until it
/// answers that nothing may leave now.
#[unsafe(no_mangle)]
pub extern "C" fn sevunthi_leave(
    alloc: Global,
    node: &mut SevunthiNode,
    to: &mut [u8],
    needed: &mut usize,
) -> u32
    ensures left { result ≡ 0 → HasLeft (session_seen node.old.cell.session) (session_seen node.new.cell.session)
        to.old to.new needed.new }
    ensures stays { result ≡ 6 → HasNoRoom (session_seen node.old.cell.session) (session_seen node.new.cell.session)
        to.old to.new needed.new }
    ensures waits { result ≡ 8 → MustWait (session_seen node.old.cell.session) }
    ensures none { result ≡ 8 → session_seen node.new.cell.session ≡ session_seen node.old.cell.session }
    ensures kept { result ≡ 1 →
        IsInHand (session_seen node.old.cell.session) (session_seen node.new.cell.session) }
    ensures full { node.new.full ≡ node.old.full }
    ensures misused { (result ≡ 2) ↔ (node.old.full ≡ false) }
{
    if !node.full {
        return MISUSED;
    }
    let mut session = node.take(alloc);
    let answer = leave_in(&mut *session, to, needed);
    *node = SevunthiNode::with(session);
    answer
}

/// Lets it leave a session.
fn leave_in(session: &mut Session, to: &mut [u8], needed: &mut usize) -> u32
    ensures left { result ≡ 0 →
        HasLeft (session_seen session.old) (session_seen session.new) to.old to.new needed.new }
    ensures stays { result ≡ 6 →
        HasNoRoom (session_seen session.old) (session_seen session.new) to.old to.new needed.new }
    ensures waits { result ≡ 8 → MustWait (session_seen session.old) }
    ensures none { result ≡ 8 → session_seen session.new ≡ session_seen session.old }
    ensures kept { result ≡ 1 → IsInHand (session_seen session.old) (session_seen session.new) }
    ensures used { result ≡ 2 → ⊥ }
{
    match session.leave(to) {
        Leaving::Left(count) => {
            *needed = count;
            DONE
        }
        Leaving::NoRoom(count) => {
            *needed = count;
            NO_ROOM
        }
        Leaving::Waits => NOTHING,
        Leaving::NoMemory => NO_MEMORY,
    }
}
