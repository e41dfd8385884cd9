//! The order of time, and what comes before the first write.

ghost use Rattle.std.specs.Prelude.{length, MatchBool};
ghost use Rattle.rc_clients.specs.Evidence.{Always, AreBars, Else, IsBegunAt, IsBehind, IsTimelyAt, ShowsNothing};

use crate::bars::{Top, bar_at};
use crate::events::ClientEvent;
use crate::judging::Violation;
use crate::operations::{Kind, Operation, operation_at, value_of};

/// The first operation that does not stand behind one which was answered before it was invoked.
pub(crate) fn late_operation(history: &[ClientEvent], bars: &[Option<Top>]) -> Option<Violation>
    requires { AreBars history.now (length history.now) bars.now }
    ensures { Else history.now (Always history.now (IsTimelyAt history.now)) result }
{
    for moment in 0..history.len() {
        if let Some(late) = late_at(history, bars, moment) {
            return Some(late);
        }
    }
    None
}

/// The same of the operation that is answered at this moment.
fn late_at(history: &[ClientEvent], bars: &[Option<Top>], moment: usize) -> Option<Violation>
    requires { AreBars history.now (length history.now) bars.now }
    ensures { Else history.now (IsTimelyAt history.now moment) result }
{
    let Some(operation) = operation_at(history, moment) else {
        return None;
    };
    let Some(top) = bar_at(bars, operation.invocation) else {
        return None;
    };
    if stands_behind(&operation, top) {
        return None;
    }
    Some(Violation::OutOfTime(top.response, moment))
}

/// Whether the operation stands behind one of this version that was answered before it was invoked.
fn stands_behind(operation: &Operation, top: Top) -> bool
    ensures { MatchBool result (IsBehind top.version operation.now) (IsBehind top.version operation.now → ⊥) }
{
    match operation.kind {
        Kind::Write => top.version < operation.version,
        Kind::Read => top.version <= operation.version,
    }
}

/// The first operation of version 0 that is a write, or shows a value.
pub(crate) fn wrong_beginning(history: &[ClientEvent]) -> Option<Violation>
    ensures { Else history.now (Always history.now (IsBegunAt history.now)) result }
{
    for moment in 0..history.len() {
        if let Some(wrong) = wrong_at(history, moment) {
            return Some(wrong);
        }
    }
    None
}

/// The same of the operation that is answered at this moment.
fn wrong_at(history: &[ClientEvent], moment: usize) -> Option<Violation>
    ensures { Else history.now (IsBegunAt history.now moment) result }
{
    let Some(operation) = operation_at(history, moment) else {
        return None;
    };
    if operation.version != 0 {
        return None;
    }
    if shows_nothing(history, &operation) {
        return None;
    }
    Some(Violation::NotNothing(moment))
}

/// Whether it is a read that shows nothing.
fn shows_nothing(history: &[ClientEvent], operation: &Operation) -> bool
    ensures { MatchBool result (ShowsNothing history.now operation.now) (ShowsNothing history.now operation.now → ⊥) }
{
    match operation.kind {
        Kind::Write => false,
        Kind::Read => value_of(history, operation).is_none(),
    }
}
