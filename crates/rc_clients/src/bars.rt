//! What was answered of a key before a moment.

ghost use Rattle.std.specs.Prelude.{◌≡◌, ◌+◌, length, IfOk, OnOk};
ghost use Rattle.rc_clients.specs.Evidence.{AreBars, AreTops, IsBar, bar_at, is_at_least, key_at, key_of};

use crate::events::ClientEvent;
use crate::operations::{Operation, operation_at};
use std::alloc::{AllocError, Global};
use std::collections::BTreeMap;

/// A key of a table.
#[derive(Clone, Copy, PartialEq, Eq, PartialOrd, Ord)]
pub(crate) struct KeyName {
    /// The table.
    pub(crate) table: u32,
    /// The key in it.
    pub(crate) key: u64,
}

/// The operation with the greatest version so far: the moment of its response, and that version.
#[derive(Clone, Copy)]
pub(crate) struct Top {
    /// The moment of its response.
    pub(crate) response: usize,
    /// Its version.
    pub(crate) version: u64,
}

/// Of each key the operation with the greatest version that was answered so far.
type Tops = BTreeMap<KeyName, Top>;

/// For each invocation, the operation with the greatest version of those on its key that were answered before it.
pub(crate) fn bars_in(
    alloc: Global,
    history: &[ClientEvent],
) -> Result<Vec<Option<Top>>, AllocError>
    ensures { IfOk result (λ bars. AreBars history.now (length history.now) bars.items) }
{
    let mut tops = BTreeMap::new(alloc);
    let mut bars = Vec::new(alloc);
    for moment in 0..history.len() {
        bars.push(newest_bar(history, &tops, moment))?;
        note_top(history, &mut tops, moment)?;
    }
    Ok(bars)
}

/// The operation that is kept of the event at this moment.
#[tactic(auto, unfolding(crate::specs::Evidence::bar_at))]
pub(crate) fn bar_at(bars: &[Option<Top>], moment: usize) -> Option<Top>
    ensures { result ≡ bar_at bars.now moment }
{
    match bars.get(moment) {
        Some(bar) => *bar,
        None => None,
    }
}

/// The key of the invocation at this moment, if one stands there.
#[tactic(auto, unfolding(crate::specs::Evidence::key_at))]
fn key_at(history: &[ClientEvent], moment: usize) -> Option<KeyName>
    ensures { result ≡ key_at history.now moment }
{
    match history.get(moment)? {
        ClientEvent::Invoked { table, key, .. } => Some(KeyName {
            table: *table,
            key: *key,
        }),
        _ => None,
    }
}

/// What was answered before the event at this moment, if it is an invocation.
fn newest_bar(history: &[ClientEvent], tops: &Tops, moment: usize) -> Option<Top>
    requires { AreTops history.now moment tops.now }
    ensures { IsBar history.now moment result }
{
    match key_at(history, moment) {
        Some(name) => tops.get(&name).copied(),
        None => None,
    }
}

/// Notes the operation that is answered at this moment, if one is.
fn note_top(history: &[ClientEvent], tops: &mut Tops, moment: usize) -> Result<(), AllocError>
    requires { AreTops history.now moment tops.old }
    ensures { OnOk result (AreTops history.now (moment + 1) tops.new) }
{
    let Some(operation) = operation_at(history, moment) else {
        return Ok(());
    };
    let name = key_name(&operation);
    if is_at_least(tops.get(&name).copied(), operation.version) {
        return Ok(());
    }
    let top = Top {
        response: moment,
        version: operation.version,
    };
    tops.insert(name, top)?;
    Ok(())
}

/// The key of an operation.
fn key_name(operation: &Operation) -> KeyName
    ensures { result ≡ key_of operation.now }
{
    KeyName {
        table: operation.table,
        key: operation.key,
    }
}

/// Whether there is an operation, of no lower version than this.
fn is_at_least(top: Option<Top>, version: u64) -> bool
    ensures { result ≡ is_at_least top version }
{
    match top {
        Some(top) => version <= top.version,
        None => false,
    }
}
