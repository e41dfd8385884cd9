//! Versions that were shown and that no write can have got.

ghost use Rattle.std.specs.Prelude.{◌≡◌, not, length, IfOk, MatchBool};
ghost use Rattle.rc_clients.specs.Linearizable.{HasPending, HasWrite};
ghost use Rattle.rc_clients.specs.Evidence.{Always, AreBars, AreWrites, Else, IsWrittenAt, is_at_least};
ghost use Rattle.rc_clients.specs.Pending.{ArePending};

use crate::bars::{Top, bar_at};
use crate::doubled::{ByVersion, version_name};
use crate::events::ClientEvent;
use crate::judging::Violation;
use crate::operations::{Operation, operation_at, value_of};
use crate::pending::{Pending, ValueName, pending_in};
use std::alloc::{AllocError, Global};

/// The first operation whose version no write got or can have got.
pub(crate) fn unwritten_read(
    alloc: Global,
    history: &[ClientEvent],
    bars: &[Option<Top>],
    writes: &ByVersion,
) -> Result<Option<Violation>, AllocError>
    requires bars { AreBars history.now (length history.now) bars.now }
    requires writes { AreWrites history.now (length history.now) writes.now }
    ensures { IfOk result (Else history.now (Always history.now (IsWrittenAt history.now))) }
{
    let pending = pending_in(alloc, history)?;
    for moment in 0..history.len() {
        if let Some(unwritten) = unwritten_at(history, bars, writes, &pending, moment) {
            return Ok(Some(unwritten));
        }
    }
    Ok(None)
}

/// The same of the operation that is answered at this moment.
fn unwritten_at<'a>(
    history: &'a [ClientEvent],
    bars: &[Option<Top>],
    writes: &ByVersion,
    pending: &Pending<'a>,
    moment: usize,
) -> Option<Violation>
    requires bars { AreBars history.now (length history.now) bars.now }
    requires writes { AreWrites history.now (length history.now) writes.now }
    requires pending { ArePending history.now (length history.now) pending.now }
    ensures { Else history.now (IsWrittenAt history.now moment) result }
{
    let Some(operation) = operation_at(history, moment) else {
        return None;
    };
    if operation.version == 0 {
        return None;
    }
    if has_write(history, writes, &operation) {
        return None;
    }
    if can_be_pending(history, bars, pending, &operation) {
        return None;
    }
    Some(Violation::NeverWritten(moment))
}

/// Whether a write of the operation's version was answered.
pub(crate) fn has_write(history: &[ClientEvent], writes: &ByVersion, operation: &Operation) -> bool
    requires { AreWrites history.now (length history.now) writes.now }
    ensures { MatchBool result (HasWrite history.now operation.now) (HasWrite history.now operation.now → ⊥) }
{
    let _history = history;
    match writes.get(&version_name(operation)).copied() {
        Some(_) => true,
        None => false,
    }
}

/// Whether a write without a response can have got the version of this operation.
fn can_be_pending<'a>(
    history: &'a [ClientEvent],
    bars: &[Option<Top>],
    pending: &Pending<'a>,
    operation: &Operation,
) -> bool
    requires bars { AreBars history.now (length history.now) bars.now }
    requires pending { ArePending history.now (length history.now) pending.now }
    ensures { MatchBool result (HasPending history.now operation.now) (HasPending history.now operation.now → ⊥) }
{
    let name = ValueName {
        table: operation.table,
        key: operation.key,
        value: value_of(history, operation),
    };
    match pending.get(&name).copied() {
        Some(moment) => is_below(bar_at(bars, moment), operation.version),
        None => false,
    }
}

/// Whether what was answered before has no version as great as this.
pub(crate) fn is_below(top: Option<Top>, version: u64) -> bool
    ensures { result ≡ not (is_at_least top version) }
{
    match top {
        Some(top) => top.version < version,
        None => true,
    }
}
