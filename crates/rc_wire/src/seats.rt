//! What one thread does for its seat.

ghost use Rattle.std.specs.Prelude.{◌≡◌, ◌⊎◌, ◌≤◌, true, length, None, IfOk, IfErr, OnOk};
ghost use Rattle.rc_types.specs.declared.faults.Fault.TheVariants.{OutOfMemory, BadEvent};
ghost use Rattle.rc_wire.specs.SeatView.{SeatData};
ghost use Rattle.rc_wire.specs.Runs.{Progress, Runs, Grows, works_for, none_fetched};
ghost use Rattle.rc_wire.specs.Ends.{Ends, CannotGoOn};

use crate::around::Around;
use crate::board::{Board, Hint, Stop};
use crate::gate::Gate;
use crate::names::Naming;
use crate::seat::Seat;
use crate::steps::Step;
use crate::turns::{deliver_rest, do_until};
use crate::wire::Wire;
use rc_types::{Fault, Message, NodeName};
use std::alloc::{AllocError, Global};
use std::sync::Wait;

/// The gate, and the hints to whom a step sends something.
#[derive(Drop)]
struct Told<'a, G: Gate> {
    board: &'a Board,
    gate: &'a G,
    addressees: Vec<usize>,
    refused: bool,
}

impl<'a, G: Gate> Around for Told<'a, G> {
    fn before_commit<R: Wait>(&mut self, rt: &R, seat: NodeName, sent: &[Message]) {
        self.refused = note(&mut self.addressees, sent).is_err();
        self.gate.before_commit(rt, seat);
    }

    fn after_commit<R: Wait>(&mut self, rt: &R, seat: NodeName) -> Result<(), AllocError> {
        self.gate.after_commit(rt, seat);
        for number in &self.addressees {
            self.board.give(rt, *number, Hint::Look);
        }
        if self.refused {
            return Err(AllocError);
        }
        Ok(())
    }
}

/// Notes each different addressee.
fn note(addressees: &mut Vec<usize>, sent: &[Message]) -> Result<(), Fault> {
    addressees.clear();
    for message in sent {
        let number = NodeName::at(message.to).number();
        if !addressees.contains(&number) {
            addressees.push(number)?;
        }
    }
    Ok(())
}

/// The seat does what a hint is for. The answer is below which step its works are done, and below which number the
/// messages to its node are delivered.
fn obey<N: Naming, R: Wait, A: Around>(
    rt: &R,
    alloc: Global,
    wire: &Wire<N>,
    around: &mut A,
    seat: &mut Seat<N>,
    steps: &[Step],
    at: usize,
    from: usize,
    hint: Hint,
) -> Result<(usize, usize), Fault>
    requires idle { seat.old.pending ≡ None }
    requires within { at ≤ length steps.now }
    requires works { none_fetched steps.now ≡ true }
    ensures ok { IfOk result (λ done. (start : SeatData) → Progress N.wire.setup start steps.now at from seat.old →
        Progress N.wire.setup start steps.now done.0 done.1 seat.new) }
    ensures within { IfOk result (λ done. done.0 ≤ length steps.now) }
    ensures idle { OnOk result (seat.new.pending ≡ None) }
    ensures grows { Grows seat.old seat.new }
    ensures fault { IfErr result (λ fault. (fault ≡ OutOfMemory) ⊎ (fault ≡ BadEvent)) }
    ensures bad { IfErr result (λ fault. fault ≡ BadEvent → (start : SeatData) →
        Progress N.wire.setup start steps.now at from seat.old → CannotGoOn N.wire.setup start steps.now seat.new) }
{
    match hint {
        Hint::Until(end) => {
            let end = at.max(end.min(steps.len()));
            do_until(rt, alloc, wire, around, seat, steps, at, end)?;
            Ok((end, from))
        }
        Hint::Look => {
            let from = deliver_rest(rt, wire, around, seat, from)?;
            Ok((at, from))
        }
    }
}

/// The seat takes hints until its line ends, and does what is left. Where another seat's fault ends it, that one tells
/// which it was; of this one want of memory is told, which says nothing of it.
fn turns<N: Naming, R: Wait, G: Gate>(
    rt: &R,
    alloc: Global,
    wire: &Wire<N>,
    board: &Board,
    gate: &G,
    steps: &[Step],
    seat: &mut Seat<N>,
) -> Result<(), Fault>
    requires idle { seat.old.pending ≡ None }
    requires works { none_fetched steps.now ≡ true }
    ensures ok { OnOk result (Runs N.wire.setup seat.old (works_for seat.old.name steps.now) seat.new) }
    ensures grows { Grows seat.old seat.new }
    ensures fault { IfErr result (λ fault. (fault ≡ OutOfMemory) ⊎ (fault ≡ BadEvent)) }
    ensures bad { IfErr result (λ fault. fault ≡ BadEvent → CannotGoOn N.wire.setup seat.old steps.now seat.new) }
{
    let number = seat.name().number();
    let mut around = Told {
        board,
        gate,
        addressees: Vec::new(alloc),
        refused: false,
    };
    let mut at = 0;
    let mut from = 0;
    for _ in rt.forever() {
        let Ok(next) = board.take(rt, number) else {
            return Err(Fault::OutOfMemory);
        };
        let Some(hint) = next else {
            break;
        };
        let done = obey(rt, alloc, wire, &mut around, seat, steps, at, from, hint)?;
        at = done.0;
        from = done.1;
        board.done(rt);
    }
    do_until(rt, alloc, wire, &mut around, seat, steps, at, steps.len())?;
    deliver_rest(rt, wire, &mut around, seat, from)?;
    Ok(())
}

/// Runs the seat until its line ends, and gives it back. A fault ends it at once, and all others.
pub(crate) fn run_seat<N: Naming, R: Wait, G: Gate>(
    rt: &R,
    alloc: Global,
    wire: &Wire<N>,
    board: &Board,
    gate: &G,
    steps: &[Step],
    seat: Seat<N>,
) -> (Seat<N>, Result<(), Fault>)
    requires idle { seat.pending ≡ None }
    requires works { none_fetched steps.now ≡ true }
    ensures ends { Ends N.wire.setup seat steps.now result.1 result.0 }
{
    let mut seat = seat;
    let outcome = turns(rt, alloc, wire, board, gate, steps, &mut seat);
    match outcome {
        Ok(()) => {}
        Err(Fault::BadEvent) => board.stop(rt, Stop::BadEvent),
        Err(_) => board.stop(rt, Stop::NoMemory),
    }
    (seat, outcome)
}
