//! A node at a glance.

ghost use Rattle.std.specs.Prelude.{◌≡◌, ◌↔◌, ◌||◌, true, is_some};
ghost use Rattle.rc_master.specs.Data.{master_of};
ghost use Rattle.rc_world.specs.NodeView.{node_seen, master_in, NodeHasRoom};
ghost use Rattle.rc_session.specs.Looks.{info_of, entries_at, deposed_of, head_of, entries_of, is_held, is_begun};

use crate::session::Session;
use rc_master::Master;
use rc_types::ServerId;
use rc_world::NodeState;
use std::alloc::Global;

/// A node at a glance. What only a host or its server has is 0, or does not hold, of another node.
#[derive(Clone, Copy, Debug, PartialEq, Eq)]
pub struct Info {
    /// The server of the host's last start; generation 0 where it was never started.
    pub server: ServerId,
    /// Whether a server runs on the host.
    pub runs: bool,
    /// Whether that has learnt that the coordinator holds it for dead.
    pub is_deposed: bool,
    /// The newest segment of its log.
    pub head: u16,
    /// How many entries that has: the place of the next one.
    pub entries: usize,
    /// How many bytes the journal's file has, with those that were not taken yet.
    pub written: usize,
    /// How many of them are known to be safe.
    pub safe: usize,
    /// How many of them were not taken yet.
    pub untaken: usize,
    /// Whether something is held back until more is safe, or was not taken.
    pub is_waiting: bool,
    /// Whether a save was begun that has not taken the journal's place.
    pub is_saving: bool,
    /// Whether the node's numbers suffice for one more step.
    pub has_room: bool,
}

impl Session {
    /// The node at a glance. It takes no memory, and its cost does not grow with what has happened.
    pub fn info(&self) -> Info
        ensures all { result ≡ info_of self.now result.has_room }
        ensures room { (result.has_room ≡ true) ↔ NodeHasRoom (node_seen self.now.process.node) }
    {
        let node = self.process.node();
        let (is_deposed, head, entries) = look_in(node);
        Info {
            server: node.server(),
            runs: node.runs(),
            is_deposed,
            head,
            entries,
            written: self.process.written(),
            safe: self.process.safe(),
            untaken: self.journal.len(),
            is_waiting: self.is_waiting(),
            is_saving: self.is_saving(),
            has_room: node.has_room(),
        }
    }

    /// Whether something is held back, or in hand.
    fn is_waiting(&self) -> bool
        ensures { result ≡ (is_held self.now.process.held || is_some self.now.hand) }
    {
        if self.is_holding() {
            return true;
        }
        self.hand.is_some()
    }

    /// Whether something is held back.
    #[tactic(auto, using(crate::proofs::Marks::held_is))]
    fn is_holding(&self) -> bool
        ensures { result ≡ is_held self.now.process.held }
    {
        self.process.is_waiting()
    }

    /// Whether a save was begun.
    #[tactic(auto, using(crate::proofs::Marks::begun_is))]
    fn is_saving(&self) -> bool
        ensures { result ≡ is_begun self.now.process.saving }
    {
        self.process.is_saving()
    }
}

/// Whether a node's master is deposed, its head, and how many entries that has.
fn look_in(node: &NodeState<Global>) -> (bool, u16, usize)
    ensures deposed { result.0 ≡ deposed_of (master_in node.now) }
    ensures head { result.1 ≡ head_of (master_in node.now) }
    ensures entries { result.2 ≡ entries_of (master_in node.now) }
{
    match node.master() {
        Some(master) => look_at(master),
        None => (false, 0, 0),
    }
}

/// Whether a master is deposed, its head, and how many entries that has.
fn look_at(master: &Master) -> (bool, u16, usize)
    ensures deposed { result.0 ≡ (master_of master.now).deposed }
    ensures head { result.1 ≡ (master_of master.now).log.head }
    ensures entries { result.2 ≡ entries_at (master_of master.now).log (master_of master.now).log.head }
{
    let log = master.log();
    let head = log.head();
    let entries = match log.segment(head) {
        Some(segment) => segment.len(),
        None => 0,
    };
    (master.is_deposed(), head, entries)
}
