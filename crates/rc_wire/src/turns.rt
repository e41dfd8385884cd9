//! The turns of one seat.

ghost use Rattle.std.specs.Prelude.{◌≡◌, ◌⊎◌, ℕ, ◌+◌, ◌<◌, ◌≤◌, true, false, length, take, None};
ghost use Rattle.std.specs.Prelude.{IfOk, IfErr, OnOk, OnErr};
ghost use Rattle.std.specs.Option.{IfSome, IfNone};
ghost use Rattle.rc_types.specs.declared.faults.Fault.TheVariants.{OutOfMemory, BadEvent, Pending};
ghost use Rattle.rc_types.specs.declared.limits.TheConstants.{MAX_EVENTS};
ghost use Rattle.rc_wire.specs.SeatView.{SeatData};
ghost use Rattle.rc_wire.specs.declared.work.Work.TheVariants.{Fetched};
ghost use Rattle.rc_wire.specs.Works.{can_do};
ghost use Rattle.rc_wire.specs.Runs.{Takes, Grows, Progress, Runs, works_for, none_fetched};
ghost use Rattle.rc_wire.specs.Ends.{CannotGoOn};

use crate::around::Around;
use crate::names::Naming;
use crate::seat::Seat;
use crate::steps::{Step, own_work};
use crate::wire::Wire;
use crate::work::Work;
use rc_types::Fault;
use std::alloc::Global;
use std::sync::Wait;

/// The seat takes a step on this work, and commits it.
fn take_step<N: Naming, R: Wait, A: Around>(
    rt: &R,
    wire: &Wire<N>,
    around: &mut A,
    seat: &mut Seat<N>,
    work: Work,
) -> Result<(), Fault>
    requires { seat.old.pending ≡ None }
    ensures ok { OnOk result (Takes N.wire.setup seat.old work seat.new) }
    ensures err { OnErr result (Grows seat.old seat.new) }
    ensures fault { IfErr result (λ fault. (fault ≡ OutOfMemory) ⊎ (fault ≡ BadEvent)) }
    ensures bad { IfErr result (λ fault. fault ≡ BadEvent →
        ((can_do N.wire.setup seat.old work ≡ false) × (seat.new ≡ seat.old)) ⊎ (length seat.new.seen ≡ MAX_EVENTS)) }
{
    seat.prepare(work)?;
    let name = seat.name();
    if let Some(sent) = seat.pending() {
        around.before_commit(rt, name, sent);
    }
    wire.commit(rt, seat)?;
    around.after_commit(rt, name)?;
    Ok(())
}

/// The seat does what the step of this number gives to its node, if it is one of its own.
///
/// # Errors
///
/// `BadEvent` (F18): the node can't do this where it is, or 200,000 events have happened. `OutOfMemory` (F1): memory
/// was refused. The seat may have seen more, and its step may be pending or committed.
pub(crate) fn do_next<N: Naming, R: Wait, A: Around>(
    rt: &R,
    alloc: Global,
    wire: &Wire<N>,
    around: &mut A,
    seat: &mut Seat<N>,
    steps: &[Step],
    at: usize,
) -> Result<(), Fault>
    requires idle { seat.old.pending ≡ None }
    requires within { at < length steps.now }
    requires works { none_fetched steps.now ≡ true }
    ensures ok { OnOk result ((start : SeatData) (from : ℕ) → Progress N.wire.setup start steps.now at from seat.old →
        Progress N.wire.setup start steps.now (at + 1) from seat.new) }
    ensures idle { OnOk result (seat.new.pending ≡ None) }
    ensures grows { Grows seat.old seat.new }
    ensures fault { IfErr result (λ fault. (fault ≡ OutOfMemory) ⊎ (fault ≡ BadEvent)) }
    ensures bad { IfErr result (λ fault. fault ≡ BadEvent → (start : SeatData) (from : ℕ) →
        Progress N.wire.setup start steps.now at from seat.old → CannotGoOn N.wire.setup start steps.now seat.new) }
{
    match own_work(alloc, &steps[at], seat.name())? {
        Some(work) => take_step(rt, wire, around, seat, work),
        None => Ok(()),
    }
}

/// The seat looks, and delivers the first message to its node whose number is not below `from`, unless it
/// has delivered it. The answer is the number after it; none where there is no such message.
///
/// # Errors
///
/// As those of `do_next`.
pub(crate) fn deliver_next<N: Naming, R: Wait, A: Around>(
    rt: &R,
    wire: &Wire<N>,
    around: &mut A,
    seat: &mut Seat<N>,
    from: usize,
) -> Result<Option<usize>, Fault>
    requires idle { seat.old.pending ≡ None }
    ensures some { IfOk result (λ found. IfSome found (λ next. (start : SeatData) (steps : _) (at : ℕ) →
        Progress N.wire.setup start steps at from seat.old → Progress N.wire.setup start steps at next seat.new)) }
    ensures none { IfOk result (λ found. IfNone found ((start : SeatData) (steps : _) (at : ℕ) →
        Progress N.wire.setup start steps at from seat.old →
        Runs N.wire.setup start (works_for start.name (take at steps)) seat.new)) }
    ensures stays { IfOk result (λ found. IfNone found ((start : SeatData) (steps : _) (at : ℕ) →
        Progress N.wire.setup start steps at from seat.old → Progress N.wire.setup start steps at from seat.new)) }
    ensures idle { OnOk result (seat.new.pending ≡ None) }
    ensures grows { Grows seat.old seat.new }
    ensures fault { IfErr result (λ fault. (fault ≡ OutOfMemory) ⊎ (fault ≡ BadEvent)) }
    ensures bad { IfErr result (λ fault. fault ≡ BadEvent → length seat.new.seen ≡ MAX_EVENTS) }
{
    let Some(number) = wire.fetch_next(rt, seat, from)? else {
        return Ok(None);
    };
    if seat.has_delivered(number) {
        return Ok(Some(after(number)));
    }
    take_step(rt, wire, around, seat, Work::Fetched)?;
    Ok(Some(after(number)))
}

/// The next number. (There are never so many messages that there is none.)
fn after(number: usize) -> usize
    ensures { result ≤ number + 1 }
{
    number.saturating_add(1)
}

/// The seat does its works among the steps from `at` on and below `end`.
///
/// # Errors
///
/// As those of `do_next`.
pub(crate) fn do_until<N: Naming, R: Wait, A: Around>(
    rt: &R,
    alloc: Global,
    wire: &Wire<N>,
    around: &mut A,
    seat: &mut Seat<N>,
    steps: &[Step],
    at: usize,
    end: usize,
) -> Result<(), Fault>
    requires idle { seat.old.pending ≡ None }
    requires order { at ≤ end }
    requires within { end ≤ length steps.now }
    requires works { none_fetched steps.now ≡ true }
    ensures ok { OnOk result ((start : SeatData) (from : ℕ) → Progress N.wire.setup start steps.now at from seat.old →
        Progress N.wire.setup start steps.now end from seat.new) }
    ensures idle { OnOk result (seat.new.pending ≡ None) }
    ensures grows { Grows seat.old seat.new }
    ensures fault { IfErr result (λ fault. (fault ≡ OutOfMemory) ⊎ (fault ≡ BadEvent)) }
    ensures bad { IfErr result (λ fault. fault ≡ BadEvent → (start : SeatData) (from : ℕ) →
        Progress N.wire.setup start steps.now at from seat.old → CannotGoOn N.wire.setup start steps.now seat.new) }
{
    for next in at..end {
        do_next(rt, alloc, wire, around, seat, steps, next)?;
    }
    Ok(())
}

/// The seat looks until there is no message to its node that it has not delivered. The answer is the number
/// below which all are delivered.
///
/// # Errors
///
/// As those of `do_next`.
pub(crate) fn deliver_rest<N: Naming, R: Wait, A: Around>(
    rt: &R,
    wire: &Wire<N>,
    around: &mut A,
    seat: &mut Seat<N>,
    from: usize,
) -> Result<usize, Fault>
    requires idle { seat.old.pending ≡ None }
    ensures ok { IfOk result (λ next. (start : SeatData) (steps : _) (at : ℕ) →
        Progress N.wire.setup start steps at from seat.old → Progress N.wire.setup start steps at next seat.new) }
    ensures all { OnOk result ((start : SeatData) (steps : _) (at : ℕ) →
        Progress N.wire.setup start steps at from seat.old →
        Runs N.wire.setup start (works_for start.name (take at steps)) seat.new) }
    ensures idle { OnOk result (seat.new.pending ≡ None) }
    ensures grows { Grows seat.old seat.new }
    ensures fault { IfErr result (λ fault. (fault ≡ OutOfMemory) ⊎ (fault ≡ BadEvent)) }
    ensures bad { IfErr result (λ fault. fault ≡ BadEvent → length seat.new.seen ≡ MAX_EVENTS) }
{
    let mut below = from;
    for _ in rt.forever() {
        match deliver_next(rt, wire, around, seat, below)? {
            Some(next) => below = next,
            None => return Ok(below),
        }
    }
    unreachable!()
}
