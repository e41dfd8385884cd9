//! What is held back.

ghost use Rattle.std.specs.Prelude.{◌≡◌, [], nat_le, if◌then◌else◌, None, Some, IfSome, IfNone, map};
ghost use Rattle.rc_process.specs.View.{move_mark};
ghost use Rattle.rc_process.specs.Order.{move_turned, ready_turn, is_before, IsTaken, TakenInTurn};

use crate::saving::Saving;
use rc_types::Message;
use std::collections::VecDeque;
use std::marker::Model;

/// What a step sends, how many bytes of the journal have to be safe before it may leave, and its turn among all steps.
pub(crate) struct Held {
    turn: u64,
    rests: usize,
    messages: Vec<Message>,
}

impl Drop for Held {
    fn drop(self) {
        let Held {
            turn: _,
            rests: _,
            messages: _,
        } = self;
    }
}

impl Model for Held {
    ghost use Rattle.rc_process.specs.Order.{Turned};

    ghost Value = { Turned };

    ghost view = { λ h. record { turn = h.turn; held = (h.rests, h.messages.items) } };
}

impl Held {
    /// These messages, which rest on so many bytes.
    pub(crate) fn new(turn: u64, rests: usize, messages: Vec<Message>) -> Held
        ensures { result ≡ record { turn = turn; held = (rests, messages.items) } }
    {
        Held {
            turn,
            rests,
            messages,
        }
    }

    /// Its turn, if it rests on no more than so many bytes.
    fn ready_turn(&self, safe: usize) -> Option<u64>
        ensures { result ≡ (if nat_le self.now.held.0 safe then Some self.now.turn else None) }
    {
        if self.rests <= safe {
            Some(self.turn)
        } else {
            None
        }
    }

    /// What is held back.
    fn into_messages(self) -> Vec<Message>
        ensures { result.items ≡ self.held.1 }
    {
        let Held {
            turn: _,
            rests: _,
            messages,
        } = self;
        messages
    }

    /// Moves it to where a save has it.
    fn move_by(&mut self, saving: Saving)
        ensures { self.new ≡ move_turned saving self.old }
    {
        self.rests = moved(saving, self.rests);
    }
}

/// Takes the first of two queues: of those firsts that rest on no more than so many bytes, the one that came before the
/// other.
#[tactic(auto, using(crate::proofs::Waiting::masters_stand, crate::proofs::Waiting::others_stand))]
pub(crate) fn take_in_turn(
    masters: &mut VecDeque<Held>,
    others: &mut VecDeque<Held>,
    safe: usize,
) -> Option<Vec<Message>>
    ensures some { IfSome result (λ messages. TakenInTurn safe masters.old.items others.old.items
        masters.new.items others.new.items messages.items) }
    ensures waits { IfNone result (
        (ready_turn safe masters.old.items ≡ None) × (ready_turn safe others.old.items ≡ None)) }
    ensures none { IfNone result ((masters.new.items ≡ masters.old.items) × (others.new.items ≡ others.old.items)) }
{
    let own = ready_turn(masters, safe);
    let other = ready_turn(others, safe);
    if is_before(own, other) {
        return Some(take_first(masters));
    }
    match other {
        Some(_) => Some(take_first(others)),
        None => None,
    }
}

/// The turn of the first of a queue, if that rests on no more than so many bytes.
fn ready_turn(queue: &VecDeque<Held>, safe: usize) -> Option<u64>
    ensures { result ≡ ready_turn safe queue.now.items }
{
    match queue.front() {
        Some(first) => first.ready_turn(safe),
        None => None,
    }
}

/// Whether the first of two turns is there and comes before the other.
fn is_before(turn: Option<u64>, other: Option<u64>) -> bool
    ensures { result ≡ is_before turn other }
{
    match (turn, other) {
        (Some(turn), Some(other)) => turn <= other,
        (Some(_), None) => true,
        _ => false,
    }
}

/// Takes the first of a queue.
fn take_first(queue: &mut VecDeque<Held>) -> Vec<Message>
    requires { queue.old.items ≡ [] → ⊥ }
    ensures { IsTaken queue.old.items queue.new.items result.items }
{
    match queue.pop_front() {
        Some(held) => held.into_messages(),
        None => unreachable!(),
    }
}

/// Moves all of a queue.
pub(crate) fn move_queue(queue: &mut VecDeque<Held>, saving: Saving)
    ensures { queue.new.items ≡ map (move_turned saving) queue.old.items }
{
    move_held(queue.make_contiguous(), saving);
}

/// Moves all of them.
fn move_held(held: &mut [Held], saving: Saving)
    ensures { held.new ≡ map (move_turned saving) held.old }
{
    for one in held.iter_mut() {
        one.move_by(saving);
    }
}

/// Where a mark of the journal stands in the save's file.
pub(crate) fn moved(saving: Saving, mark: usize) -> usize
    ensures { result ≡ move_mark saving mark }
{
    saving.size.saturating_add(mark.saturating_sub(saving.cut))
}
