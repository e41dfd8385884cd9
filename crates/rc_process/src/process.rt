//! A node, how far its journal is written and safe, and what is held back until then.

ghost use Rattle.std.specs.Prelude.{[], ◌≡◌, ◌≤◌, ◌↔◌, ◌⊎◌, ◌++◌, ◌-◌, true, false, length};
ghost use Rattle.std.specs.Prelude.{Err, Some, None, OnOk, OnErr, IfOk, IfErr, IfSome, IfNone};
ghost use Rattle.rc_types.specs.declared.faults.Fault.TheVariants.{OutOfMemory, BadEvent};
ghost use Rattle.rc_world.specs.declared.work.StepFault.TheVariants.{NoRoom, Refused};
ghost use Rattle.rc_history.specs.Nodes.{name_of, node_can};
ghost use Rattle.rc_world.specs.NodeView.{node_seen, NodeHasRoom};
ghost use Rattle.rc_history.specs.Lives.{keeps, is_masters};
ghost use Rattle.rc_keeping.specs.SaveClaims.{IsSaved};
ghost use Rattle.rc_keeping.specs.Saved.{saved_of};
ghost use Rattle.rc_keeping.specs.declared.faults.SaveFault.TheVariants.{OutOfMemory as NoMemory, Outside};
ghost use Rattle.rc_process.specs.View.{process_seen, written_down, started_next, given};
ghost use Rattle.rc_process.specs.View.{first_ready, Leaves, AllWait, begun, save_begun, moved};

use crate::held::{Held, move_queue, moved, take_in_turn};
use crate::saving::Saving;
use rc_keeping::{SaveFault, keeps, save_into, write_down};
use rc_types::{Addr, Fault, Message, NodeWork};
use rc_world::{NodeState, StepFault, is_for_backup};
use std::alloc::{AllocError, Allocator, Global};
use std::collections::VecDeque;
use std::marker::Model;

/// A node in its process. It reads and writes nothing: it says what has to be added to the journal, is told how many
/// bytes of that are safe, and lets messages leave that rest on no others.
///
/// What is held back waits in two queues, of that which masters have sent and of all else. In each none rests on less
/// than the one before it, so only the first two have to be looked at. The steps are counted: of those two the one that
/// came first leaves first.
pub struct Process<A: Allocator> {
    alloc: Global,
    node: NodeState<A>,
    written: usize,
    started: usize,
    safe: usize,
    turn: u64,
    masters: VecDeque<Held>,
    others: VecDeque<Held>,
    saving: Option<Saving>,
}

impl<A: Allocator> Drop for Process<A> {
    fn drop(self) {
        let Process {
            alloc: _,
            node: _,
            written: _,
            started: _,
            safe: _,
            turn: _,
            masters: _,
            others: _,
            saving: _,
        } = self;
    }
}

impl<A: Allocator> Model for Process<A> {
    ghost use Rattle.rc_process.specs.View.{ProcessData};
    ghost use Rattle.rc_process.specs.Order.{AreInOrder, in_turn};

    ghost Value = { ProcessData };

    ghost view = { λ p. record {
      node = p.node;
      written = p.written;
      started = p.started;
      safe = p.safe;
      held = in_turn p.masters.items p.others.items;
      saving = p.saving;
    } };

    ghost invariant = { λ p. AreInOrder p.turn p.written p.started p.masters.items p.others.items };
}

impl<A: Allocator + Clone> Process<A> {
    /// The process of a node that has taken nothing yet, or of one that was replayed: so many bytes are written.
    pub(crate) fn of_node(alloc: Global, node: NodeState<A>, written: usize) -> Process<A>
        ensures { result ≡ begun node written }
    {
        Process {
            alloc,
            node,
            written,
            started: 0,
            safe: 0,
            turn: 0,
            masters: VecDeque::new(alloc),
            others: VecDeque::new(alloc),
            saving: None,
        }
    }

    /// What it takes memory from.
    pub(crate) fn alloc(&self) -> Global {
        self.alloc
    }

    /// The node, to be looked at.
    pub fn node(&self) -> &NodeState<A>
        ensures { result.now ≡ self.now.node }
    {
        &self.node
    }

    /// How many bytes the journal has.
    pub fn written(&self) -> usize
        ensures { result ≡ self.now.written }
    {
        self.written
    }

    /// Whether something is held back.
    #[tactic(auto, using(crate::proofs::Waiting::none_held, crate::proofs::Waiting::both_empty))]
    pub fn is_waiting(&self) -> bool
        ensures { (result ≡ false) ↔ (self.now.held ≡ []) }
    {
        !self.masters.is_empty() || !self.others.is_empty()
    }

    /// Gives the node a work. What has to be added to the journal is added to `out`; what the step sends is held back.
    ///
    /// # Errors
    ///
    /// `NoRoom`: the node's numbers do not suffice for one more step. `BadEvent` (F18): it can't be given this now.
    /// `OutOfMemory` (F1): memory was refused. After each nothing has changed, and nothing is to be written.
    pub fn give(&mut self, work: &NodeWork, out: &mut Vec<u8>) -> Result<(), StepFault>
        ensures taken { OnOk result (process_seen self.new ≡ given (process_seen self.old) work.now) }
        ensures written { OnOk result (
            out.new.items ≡ out.old.items ++ written_down (node_seen self.old.node) work.now) }
        ensures possible { OnOk result (node_can (node_seen self.old.node) work.now ≡ true) }
        ensures full { (result ≡ Err NoRoom) ↔ (NodeHasRoom (node_seen self.old.node) → ⊥) }
        ensures bad { result ≡ Err (Refused BadEvent) → node_can (node_seen self.old.node) work.now ≡ false }
        ensures fault { IfErr result (λ fault.
            (fault ≡ NoRoom) ⊎ (fault ≡ Refused OutOfMemory) ⊎ (fault ≡ Refused BadEvent)) }
        ensures err { OnErr result (process_seen self.new ≡ process_seen self.old) }
        ensures unwritten { OnErr result (out.new.items ≡ out.old.items) }
    {
        if !self.node.has_room() {
            return Err(StepFault::NoRoom);
        }
        let length = out.len();
        if let Err(_) = self.write(work, out) {
            return Err(StepFault::Refused(Fault::OutOfMemory));
        }
        let more = out.len() - length;
        match self.step(work, more) {
            Ok(()) => Ok(()),
            Err(fault) => {
                out.truncate(length);
                Err(StepFault::Refused(fault))
            }
        }
    }

    /// Adds the record of a work that is kept.
    fn write(&self, work: &NodeWork, out: &mut Vec<u8>) -> Result<(), AllocError>
        ensures ok { OnOk result (out.new.items ≡ out.old.items ++ written_down (node_seen self.now.node) work.now) }
        ensures err { OnErr result (out.new.items ≡ out.old.items) }
    {
        if self.keeps(work) {
            write_down(self.alloc, work, out)
        } else {
            Ok(())
        }
    }

    /// Whether the node keeps the work.
    pub(crate) fn keeps(&self, work: &NodeWork) -> bool
        ensures { result ≡ keeps (name_of (node_seen self.now.node)) work.now }
    {
        keeps(self.node.name(), work)
    }

    /// The step itself, whose record has so many bytes.
    pub(crate) fn step(&mut self, work: &NodeWork, more: usize) -> Result<(), Fault>
        requires room { NodeHasRoom (node_seen self.old.node) }
        requires down { more ≡ length (written_down (node_seen self.old.node) work.now) }
        ensures taken { OnOk result (process_seen self.new ≡ given (process_seen self.old) work.now) }
        ensures possible { OnOk result (node_can (node_seen self.old.node) work.now ≡ true) }
        ensures bad { result ≡ Err BadEvent → node_can (node_seen self.old.node) work.now ≡ false }
        ensures fault { IfErr result (λ fault. (fault ≡ OutOfMemory) ⊎ (fault ≡ BadEvent)) }
        ensures err { OnErr result (process_seen self.new ≡ process_seen self.old) }
    {
        let Some(written) = self.written.checked_add(more) else {
            return Err(Fault::OutOfMemory);
        };
        let Some(turn) = self.turn.checked_add(1) else {
            return Err(Fault::OutOfMemory);
        };
        if self.masters.reserve(1).is_err() {
            return Err(Fault::OutOfMemory);
        }
        if self.others.reserve(1).is_err() {
            return Err(Fault::OutOfMemory);
        }
        let is_masters = self.is_masters(work);
        let rests = self.started;
        let started = self.started_next(work, written);
        let mut messages = Vec::new(self.alloc);
        if let Err(fault) = self.node.step_into(work, &mut messages) {
            return Err(fault);
        }
        self.written = written;
        self.started = started;
        self.turn = turn;
        if is_masters {
            self.masters
                .push_back_reserved(Held::new(turn, rests, messages));
        } else {
            self.others
                .push_back_reserved(Held::new(turn, written, messages));
        }
        Ok(())
    }

    /// Whether the work is one for the master that runs, and for nothing else of the node.
    fn is_masters(&self, work: &NodeWork) -> bool
        ensures { result ≡ is_masters (node_seen self.now.node) work.now }
    {
        match work {
            NodeWork::Tick => self.node.runs(),
            NodeWork::Deliver(message) => {
                self.node.runs()
                    && message.to == Addr::Server(self.node.server())
                    && !is_for_backup(&message.body)
            }
            _ => false,
        }
    }

    /// How many bytes reach up to the last start of a server then.
    fn started_next(&self, work: &NodeWork, written: usize) -> usize
        ensures { result ≡ started_next (process_seen self.now) work.now written }
    {
        match work {
            NodeWork::Start { .. } => written,
            _ => self.started,
        }
    }

    /// So many bytes of the journal are safe: they will be there after any crash. While a save takes the journal's
    /// place, whichever of the two files will stand there, what stands for these bytes is safe in it.
    pub fn synced(&mut self, count: usize)
        requires more { self.old.safe ≤ count }
        requires within { count ≤ self.old.written }
        ensures { self.new ≡ record self.old { safe = count } }
    {
        self.safe = count;
    }

    /// How many bytes are known to be safe.
    pub fn safe(&self) -> usize
        ensures { result ≡ self.now.safe }
    {
        self.safe
    }

    /// Lets what one step has sent leave: the first that is held back and rests on nothing that is not safe. None where
    /// all that is held back has to wait. What a master sends may overtake what its host does. What it costs does not
    /// grow with what waits.
    pub fn leave(&mut self) -> Option<Vec<Message>>
        ensures first { IfSome result (λ messages.
            first_ready self.old.safe self.old.held ≡ Some (messages.items, self.new.held)) }
        ensures some { IfSome result (λ messages.
            Leaves (process_seen self.old) (process_seen self.new) messages.items) }
        ensures waits { IfNone result (AllWait (process_seen self.old)) }
        ensures none { IfNone result (process_seen self.new ≡ process_seen self.old) }
    {
        take_in_turn(&mut self.masters, &mut self.others, self.safe)
    }

    /// Begins a save: adds it to `out`, which is to be the second file. From now on what `give` adds belongs at the
    /// end of both files. When the second file is safe, and has taken the first one's place, and that is safe, call
    /// `saved`.
    ///
    /// # Errors
    ///
    /// `Outside`: the node is the outside, which keeps nothing. `OutOfMemory`: memory was refused. After either nothing
    /// has changed.
    #[tactic(auto, using(crate::proofs::Coded::save_faults))]
    pub fn begin_save(&mut self, out: &mut Vec<u8>) -> Result<(), SaveFault>
        ensures saved { OnOk result (IsSaved self.old.node out.old.items out.new.items) }
        ensures outside { (result ≡ Err Outside) ↔ (saved_of self.old.node ≡ None) }
        ensures fault { IfErr result (λ fault. (fault ≡ Outside) ⊎ (fault ≡ NoMemory)) }
        ensures ok { OnOk result (process_seen self.new ≡
            save_begun (process_seen self.old) (length out.new.items - length out.old.items)) }
        ensures err { OnErr result (process_seen self.new ≡ process_seen self.old) }
        ensures unwritten { OnErr result (out.new.items ≡ out.old.items) }
    {
        let length = out.len();
        save_into(self.alloc, &self.node, out)?;
        self.saving = Some(Saving {
            cut: self.written,
            size: out.len() - length,
        });
        Ok(())
    }

    /// Whether a save was begun and has not taken the journal's place yet.
    pub fn is_saving(&self) -> bool
        ensures { (result ≡ false) ↔ (self.now.saving ≡ None) }
    {
        self.saving.is_some()
    }

    /// The save has taken the journal's place, and that is safe: so all is safe that it stands for. From now on bytes
    /// of the journal are counted in the new file, and what is held back waits for bytes of that. Where none was begun
    /// nothing happens.
    pub fn saved(&mut self)
        ensures { process_seen self.new ≡ moved (process_seen self.old) }
    {
        let Some(saving) = self.saving else {
            return;
        };
        self.written = moved(saving, self.written);
        self.started = moved(saving, self.started);
        self.safe = moved(saving, self.safe);
        self.saving = None;
        move_queue(&mut self.masters, saving);
        move_queue(&mut self.others, saving);
    }
}
