//! Writes without a response.

ghost use Rattle.std.specs.Prelude.{◌≡◌, if◌then◌else◌, is_some, length, Some, IfOk, OnOk, MatchOption};
ghost use Rattle.std.specs.BTreeMap.{get, is_at};
ghost use Rattle.rc_clients.specs.declared.pending.ValueName.{ValueName as ValueNameModel};
ghost use Rattle.rc_clients.specs.Evidence.{AreAnswered};
ghost use Rattle.rc_clients.specs.Linearizable.{answered_at};
ghost use Rattle.rc_clients.specs.Pending.{ArePending, IsPendingOf, IsWriteOf, value_order};

use crate::events::{ClientEvent, Request};
use crate::operations::bytes_of;
use std::alloc::{AllocError, Global};
use std::collections::{BTreeMap, BTreeSet};

/// A value of a key.
#[derive(Clone, Copy, PartialEq, Eq, PartialOrd, Ord)]
pub(crate) struct ValueName<'a> {
    /// The table.
    pub(crate) table: u32,
    /// The key in it.
    pub(crate) key: u64,
    /// The value.
    pub(crate) value: Option<&'a [u8]>,
}

/// Of each value, the first moment at which a write of it was invoked that was never answered.
pub(crate) type Pending<'a> = BTreeMap<ValueName<'a>, usize>;

/// Which events are invocations that a response names.
pub(crate) fn answered_in(
    alloc: Global,
    history: &[ClientEvent],
) -> Result<BTreeSet<usize>, AllocError>
    ensures { IfOk result (AreAnswered history.now (length history.now)) }
{
    let mut answered = BTreeSet::new(alloc);
    for moment in 0..history.len() {
        if let Some(invocation) = answered_at(history, moment) {
            answered.insert(invocation)?;
        }
    }
    Ok(answered)
}

/// The invocation that the event at this moment answers, if it is a response.
fn answered_at(history: &[ClientEvent], moment: usize) -> Option<usize>
    ensures { result ≡ answered_at history.now moment }
{
    match history.get(moment)? {
        ClientEvent::Invoked { .. } => None,
        ClientEvent::Written { invocation, .. }
        | ClientEvent::Shown { invocation, .. }
        | ClientEvent::Failed { invocation } => Some(*invocation),
    }
}

/// The writes of a history that were never answered.
pub(crate) fn pending_in<'a>(
    alloc: Global,
    history: &'a [ClientEvent],
) -> Result<Pending<'a>, AllocError>
    ensures { IfOk result (ArePending history.now (length history.now)) }
{
    let answered = answered_in(alloc, history)?;
    let mut pending = BTreeMap::new(alloc);
    for moment in 0..history.len() {
        let Some(name) = pending_at(history, &answered, moment) else {
            continue;
        };
        note_pending(&mut pending, name, moment)?;
    }
    Ok(pending)
}

/// What is to be written by the invocation at this moment, if it is that of a write that was never answered.
pub(crate) fn pending_at<'a>(
    history: &'a [ClientEvent],
    answered: &BTreeSet<usize>,
    moment: usize,
) -> Option<ValueName<'a>>
    requires { AreAnswered history.now (length history.now) answered.now }
    ensures { MatchOption result ((q : ValueNameModel) → IsPendingOf history.now q moment → ⊥)
        (λ name. IsPendingOf history.now name moment) }
{
    if answered.contains(&moment) {
        return None;
    }
    written_at(history, moment)
}

/// What is to be written by the invocation at this moment, if it is that of a write.
fn written_at(history: &[ClientEvent], moment: usize) -> Option<ValueName<'_>>
    ensures { MatchOption result ((q : ValueNameModel) → IsWriteOf history.now q moment → ⊥)
        (λ name. IsWriteOf history.now name moment) }
{
    match history.get(moment)? {
        ClientEvent::Invoked {
            table,
            key,
            request: Request::Write(value),
        } => Some(ValueName {
            table: *table,
            key: *key,
            value: bytes_of(value),
        }),
        _ => None,
    }
}

/// Notes a moment, if none was noted for this value.
fn note_pending<'a>(
    pending: &mut Pending<'a>,
    name: ValueName<'a>,
    moment: usize,
) -> Result<(), AllocError>
    ensures { OnOk result ((q : ValueNameModel) → get value_order pending.new q
        ≡ (if is_some (get value_order pending.old name.entry) then get value_order pending.old q
        else (if is_at (value_order name.entry) q then Some moment else get value_order pending.old q))) }
{
    if pending.get(&name).is_some() {
        return Ok(());
    }
    pending.insert(name, moment)?;
    Ok(())
}
