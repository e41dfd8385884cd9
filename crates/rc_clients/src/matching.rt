//! Which write without a response got which version.

ghost use Rattle.std.specs.Prelude.{◌≡◌, length, if◌then◌else◌, IfOk, OnOk};
ghost use Rattle.std.specs.BTreeMap.{get, is_at};
ghost use Rattle.rc_clients.specs.declared.pending.ValueName.{ValueName as ValueNameModel};
ghost use Rattle.rc_clients.specs.Evidence.{AreBars, AreFirsts, AreWrites, Else, HasChoice};
ghost use Rattle.rc_clients.specs.Matching.{first_write as first_said};
ghost use Rattle.rc_clients.specs.Operations.{value_of as value_said};
ghost use Rattle.rc_clients.specs.Pending.{bytes_in, next_at as next_said, value_order};

use crate::bars::{Top, bar_at};
use crate::chains::{Nexts, chains_in, next_at};
use crate::differing::Firsts;
use crate::doubled::ByVersion;
use crate::events::ClientEvent;
use crate::judging::Violation;
use crate::operations::{Operation, value_of};
use crate::pending::{Pending, ValueName};
use crate::unwritten::{has_write, is_below};
use std::alloc::{AllocError, Global};

/// The first operation whose version gets no write: of a key and a value, each version in turn takes the first write
/// without a response that no lower one has taken.
pub(crate) fn unmatched_version(
    alloc: Global,
    history: &[ClientEvent],
    bars: &[Option<Top>],
    writes: &ByVersion,
    firsts: &Firsts,
) -> Result<Option<Violation>, AllocError>
    requires bars { AreBars history.now (length history.now) bars.now }
    requires writes { AreWrites history.now (length history.now) writes.now }
    requires firsts { AreFirsts history.now (length history.now) firsts.now }
    ensures { IfOk result (Else history.now (HasChoice history.now)) }
{
    let (mut heads, nexts) = chains_in(alloc, history)?;
    for (_, operation) in firsts {
        if operation.version == 0 {
            continue;
        }
        if has_write(history, writes, operation) {
            continue;
        }
        let name = wanted(history, operation);
        let Some(moment) = first_write(bars, heads.get(&name).copied(), operation.version) else {
            return Ok(Some(Violation::TooFewWrites(operation.response)));
        };
        advance(&mut heads, &nexts, name, moment)?;
    }
    Ok(None)
}

/// What a write has to write so that it can have the operation's version.
fn wanted<'a>(history: &'a [ClientEvent], operation: &Operation) -> ValueName<'a>
    ensures { (result.table ≡ operation.now.table) × (result.key ≡ operation.now.key)
        × (bytes_in result ≡ value_said history.now operation.now) }
{
    ValueName {
        table: operation.table,
        key: operation.key,
        value: value_of(history, operation),
    }
}

/// The first free write of a value, where nothing that was answered before it has this version or a greater one.
fn first_write(bars: &[Option<Top>], head: Option<usize>, version: u64) -> Option<usize>
    ensures { result ≡ first_said bars.now head version }
{
    let moment = head?;
    if is_below(bar_at(bars, moment), version) {
        Some(moment)
    } else {
        None
    }
}

/// Takes this write: the next of its value is the first free one now.
fn advance<'a>(
    heads: &mut Pending<'a>,
    nexts: &Nexts,
    name: ValueName<'a>,
    moment: usize,
) -> Result<(), AllocError>
    ensures { OnOk result ((q : ValueNameModel) → get value_order heads.new q
        ≡ (if is_at (value_order name.entry) q then next_said nexts.now moment else get value_order heads.old q)) }
{
    match next_at(nexts, moment) {
        Some(next) => {
            heads.insert(name, next)?;
        }
        None => {
            heads.remove(&name);
        }
    }
    Ok(())
}
