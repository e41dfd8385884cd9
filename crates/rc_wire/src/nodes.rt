//! The call that runs nodes on threads.

ghost use Rattle.std.specs.Prelude.{◌≡◌, ◌⊎◌, nat_eq, true, false, All, None, IfOk, IfErr, OnOk, vec_capacity, vec_len};
ghost use Rattle.rc_types.specs.Names.{number_of};
ghost use Rattle.rc_types.specs.declared.faults.Fault.TheVariants.{OutOfMemory, BadEvent};
ghost use Rattle.rc_wire.specs.Runs.{none_fetched};
ghost use Rattle.rc_wire.specs.Ends.{IsIdle, RunAll, GrowAll, Ends, SomeCannotGoOn, is_seated, all_seated, joined};

use crate::board::{Board, Hint, Stop};
use crate::gate::Gate;
use crate::names::Naming;
use crate::seat::Seat;
use crate::seats::run_seat;
use crate::steps::Step;
use crate::wire::Wire;
use rc_types::{Fault, NodeName};
use std::alloc::{AllocError, Global};
use std::snapshot::Snapshot;
use std::sync::Wait;
use std::thread;
use std::thread::{Promise, PromisedHandle, Scope, Threads};

/// Runs each seat on a thread of its own, and gives all seats back, in order.
///
/// # Errors
///
/// `BadEvent` (F18) only where a step names no seat that was handed in, a seat has come to a work that its node can't
/// do where it is, or 200,000 events have happened. `OutOfMemory` (F1): memory or a thread was refused. All seats come
/// back.
pub fn run_nodes<N: Naming + Send + Sync, R: Threads + Wait + Sync, G: Gate>(
    rt: &R,
    alloc: Global,
    wire: &Wire<N>,
    seats: Vec<Seat<N>>,
    steps: &[Step],
    gate: &G,
) -> Result<Vec<Seat<N>>, (Vec<Seat<N>>, Fault)>
    requires idle { All IsIdle seats.items }
    requires works { none_fetched steps.now ≡ true }
    ensures ok { IfOk result (λ after. RunAll N.wire.setup seats.items steps.now after.items) }
    ensures err { IfErr result (λ refused. GrowAll seats.items refused.0.items) }
    ensures fault { IfErr result (λ refused. (refused.1 ≡ OutOfMemory) ⊎ (refused.1 ≡ BadEvent)) }
    ensures seated { OnOk result (all_seated seats.items steps.now ≡ true) }
    ensures unseated { all_seated seats.items steps.now ≡ false → IfErr result (λ refused.
        (refused.1 ≡ BadEvent) × (refused.0.items ≡ seats.items)) }
    ensures bad { IfErr result (λ refused. refused.1 ≡ BadEvent → (all_seated seats.items steps.now ≡ false) ⊎
        SomeCannotGoOn N.wire.setup seats.items steps.now refused.0.items) }
{
    if !all_seated(seats.as_slice(), steps) {
        return Err((seats, Fault::BadEvent));
    }
    let Ok(board) = board_for(alloc, &seats) else {
        return Err((seats, Fault::OutOfMemory));
    };
    let (seats, outcome) = run_on(rt, alloc, wire, &board, seats, steps, gate);
    match outcome {
        Ok(()) => Ok(seats),
        Err(fault) => Err((seats, board.first(rt, fault))),
    }
}

/// A board with a line for each seat.
fn board_for<N: Naming>(alloc: Global, seats: &[Seat<N>]) -> Result<Board, AllocError> {
    let mut names = Vec::with_capacity(alloc, seats.len())?;
    for seat in seats {
        names.push(seat.name())?;
    }
    Board::new(alloc, &names)
}

/// Whether each work is that of one of these seats.
fn all_seated<N: Naming>(seats: &[Seat<N>], steps: &[Step]) -> bool
    ensures { result ≡ all_seated seats.now steps.now }
{
    steps.iter().all(|step| is_seated(seats, step))
}

/// Whether the step is no work, or that of one of these seats.
fn is_seated<N: Naming>(seats: &[Seat<N>], step: &Step) -> bool
    ensures { result ≡ is_seated seats.now step.now }
{
    match step {
        Step::Do(name, _) => seats.iter().any(|seat| is_seat_of(seat, *name)),
        Step::Settle => true,
    }
}

/// Whether it is the seat of this name.
fn is_seat_of<N: Naming>(seat: &Seat<N>, who: NodeName) -> bool
    ensures { result ≡ nat_eq (number_of seat.now.name) (number_of who) }
{
    seat.name().number() == who.number()
}

/// Runs the seats on threads of one scope.
fn run_on<N: Naming + Send + Sync, R: Threads + Wait + Sync, G: Gate>(
    rt: &R,
    alloc: Global,
    wire: &Wire<N>,
    board: &Board,
    seats: Vec<Seat<N>>,
    steps: &[Step],
    gate: &G,
) -> (Vec<Seat<N>>, Result<(), Fault>)
    requires idle { All IsIdle seats.items }
    requires works { none_fetched steps.now ≡ true }
    ensures ok { OnOk result.1 (RunAll N.wire.setup seats.items steps.now result.0.items) }
    ensures grows { GrowAll seats.items result.0.items }
    ensures fault { IfErr result.1 (λ fault. (fault ≡ OutOfMemory) ⊎ (fault ≡ BadEvent)) }
    ensures bad { IfErr result.1 (λ fault. fault ≡ BadEvent →
        SomeCannotGoOn N.wire.setup seats.items steps.now result.0.items) }
{
    thread::scope(
        thread::scope_env(),
        rt,
        move |scope| -> (Vec<Seat<N>>, Result<(), Fault>)
            requires { All IsIdle seats.items × (none_fetched steps.now ≡ true) }
            ensures { OnOk result.1 (RunAll N.wire.setup seats.items steps.entry.now result.0.items)
                × GrowAll seats.items result.0.items
                × IfErr result.1 (λ fault. (fault ≡ OutOfMemory) ⊎ (fault ≡ BadEvent))
                × IfErr result.1 (λ fault. fault ≡ BadEvent →
                SomeCannotGoOn N.wire.setup seats.items steps.entry.now result.0.items) }
        {
            let mut seats = seats;
            let outcome = run_in(scope, rt, alloc, wire, board, &mut seats, steps, gate);
            (seats, outcome)
        },
    )
}

/// What a thread gives back for the seat that it was handed.
#[derive(Drop)]
struct Ending<'a, N: Naming> {
    was: Snapshot<Seat<N>>,
    steps: &'a [Step],
}

impl<'a, N: Naming> Promise<(Seat<N>, Result<(), Fault>)> for Ending<'a, N> {
    ghost kept_by = { λ p r. Ends N.wire.setup p.was.value p.steps.now r.1 r.0 };
}

/// Makes a thread for the seat. Where none can be made all is to end, and the seat comes back as it then is.
fn start<'s, E, N: Naming + Send + Sync, R: Threads + Wait + Sync, G: Gate>(
    scope: &'s Scope<'s, E>,
    rt: &'s R,
    alloc: Global,
    wire: &'s Wire<N>,
    board: &'s Board,
    seat: Seat<N>,
    steps: &'s [Step],
    gate: &'s G,
) -> Result<
    PromisedHandle<(Seat<N>, Result<(), Fault>), Ending<'s, N>>,
    (Seat<N>, Result<(), Fault>),
>
    requires idle { seat.pending ≡ None }
    requires works { none_fetched steps.now ≡ true }
    ensures seat { IfOk result (λ thread. thread.promise.was.value ≡ seat) }
    ensures steps { IfOk result (λ thread. thread.promise.steps.now ≡ steps.now) }
    ensures refused { IfErr result (λ ended. Ends N.wire.setup seat steps.now ended.1 ended.0) }
{
    let ending = Ending {
        was: Snapshot::of(&seat),
        steps,
    };
    let run = move || -> (Seat<N>, Result<(), Fault>)
        requires { (seat.pending ≡ None) × (none_fetched steps.now ≡ true) }
        ensures { Ends N.wire.setup seat steps.entry.now result.1 result.0 }
    { run_seat(rt, alloc, wire, board, gate, steps, seat) };
    match scope.spawn_with(ending, run) {
        Ok(thread) => Ok(thread),
        Err(refused) => {
            board.stop(rt, Stop::NoMemory);
            Err((refused.value)())
        }
    }
}

/// Makes a thread for each of these seats, from the last on, gives the works to all, and puts the seats
/// back as their threads end, from the first on. A seat that has no thread ends all, itself at once.
fn run_in<'s, E, N: Naming + Send + Sync, R: Threads + Wait + Sync, G: Gate>(
    scope: &'s Scope<'s, E>,
    rt: &'s R,
    alloc: Global,
    wire: &'s Wire<N>,
    board: &'s Board,
    seats: &mut Vec<Seat<N>>,
    steps: &'s [Step],
    gate: &'s G,
) -> Result<(), Fault>
    requires idle { All IsIdle seats.old.items }
    requires works { none_fetched steps.now ≡ true }
    ensures ok { OnOk result (RunAll N.wire.setup seats.old.items steps.now seats.new.items) }
    ensures grows { GrowAll seats.old.items seats.new.items }
    ensures len { vec_len seats.new ≡ vec_len seats.old }
    ensures room { vec_capacity seats.new ≡ vec_capacity seats.old }
    ensures fault { IfErr result (λ fault. (fault ≡ OutOfMemory) ⊎ (fault ≡ BadEvent)) }
    ensures bad { IfErr result (λ fault. fault ≡ BadEvent →
        SomeCannotGoOn N.wire.setup seats.old.items steps.now seats.new.items) }
{
    let Some(seat) = seats.pop() else {
        return Ok(lead(rt, board, steps)?);
    };
    let started = start(scope, rt, alloc, wire, board, seat, steps, gate);
    let others = run_in(scope, rt, alloc, wire, board, seats, steps, gate);
    let (seat, outcome) = match started {
        Ok(thread) => thread.join(rt),
        Err(ended) => ended,
    };
    seats.push_reserved(seat);
    joined(others, outcome)
}

/// What threads have come to, and one more: a work that can't be done counts before want of memory.
fn joined(others: Result<(), Fault>, outcome: Result<(), Fault>) -> Result<(), Fault>
    ensures { result ≡ joined others outcome }
{
    match (others, outcome) {
        (Ok(()), outcome) => outcome,
        (Err(_), Err(Fault::BadEvent)) => Err(Fault::BadEvent),
        (Err(fault), _) => Err(fault),
    }
}

/// Gives the works to the threads, step by step, waits where the steps say so, and then ends all. Where a fault has
/// ended it, the seat that had it tells which it was; here want of memory is told.
fn lead<R: Wait>(rt: &R, board: &Board, steps: &[Step]) -> Result<(), AllocError> {
    for (at, step) in steps.iter().enumerate() {
        if board.going(rt).is_err() {
            break;
        }
        match step {
            Step::Do(name, _) => {
                board.give(rt, name.number(), Hint::Until(at.saturating_add(1)));
            }
            Step::Settle => board.settle(rt),
        }
    }
    board.end(rt);
    match board.going(rt) {
        Ok(()) => Ok(()),
        Err(_) => Err(AllocError),
    }
}
