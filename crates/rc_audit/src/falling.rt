//! Versions rise over owners.

ghost use Rattle.std.specs.Prelude.{◌≡◌, ◌&&◌, not, nat_eq, nat_lt, List, None, IsTrue, OnOk, IfOk};
ghost use Rattle.std.specs.Ordering.{nat_cmp};
ghost use Rattle.std.specs.BTreeSet.{contains};
ghost use Rattle.rc_model.specs.Recovered.{all_acknowledged};
ghost use Rattle.rc_model.specs.Breach.{falls_of, first_fall};
ghost use Rattle.rc_audit.specs.Earlier.{AreEarlier};
ghost use Rattle.rc_types.specs.declared.messages.Message.{Message};
ghost use Rattle.rc_audit.specs.Bars.{AreBars, HasLevels};
ghost use Rattle.rc_audit.specs.Grants.{AreGrants};
ghost use Rattle.rc_audit.specs.Writes.{ack_of};

use crate::bars::{Bars, acked_highs, bar_of};
use crate::earlier::terms_before;
use crate::grants::{Grants, grants_in};
use crate::highs::{Highs, is_level};
use crate::turns::all_bars;
use crate::writes::{AckedWrite, write_in};
use rc_types::{Breach, Message};
use std::alloc::{AllocError, Global};
use std::collections::{BTreeMap, BTreeSet};

/// Whether the later write's version is not above that of the earlier one, which is of the same key
/// and was acknowledged under one of these terms.
fn falls(before: &BTreeSet<u32>, later: &AckedWrite, earlier: &AckedWrite) -> bool
    ensures { result ≡ (nat_eq earlier.now.table later.now.table && (nat_eq earlier.now.key later.now.key
        && (not (nat_lt earlier.now.version later.now.version) && contains nat_cmp before.now earlier.now.term))) }
{
    earlier.table == later.table
        && earlier.key == later.key
        && earlier.version >= later.version
        && before.contains(&earlier.term)
}

/// The first write from which this later one falls, given the terms before its own.
fn first_among(messages: &[Message], before: &BTreeSet<u32>, later: &AckedWrite) -> Option<Breach>
    requires { AreEarlier before.now messages.now later.now.table later.now.key later.now.term }
    ensures { result ≡ first_fall messages.now (ack_of later.now) (all_acknowledged messages.now) }
{
    for message in messages {
        let Some(earlier) = write_in(&message.body) else {
            continue;
        };
        if falls(before, later, &earlier) {
            return Some(Breach::Version {
                table: later.table,
                key: later.key,
                earlier_term: earlier.term,
                earlier_version: earlier.version,
                later_term: later.term,
                later_version: later.version,
            });
        }
    }
    None
}

/// The first write from which this later one falls.
fn falls_from(
    alloc: Global,
    messages: &[Message],
    grants: &Grants,
    later: &AckedWrite,
) -> Result<Option<Breach>, AllocError>
    requires { AreGrants grants.now messages.now }
    ensures { IfOk result (λ found.
        found ≡ first_fall messages.now (ack_of later.now) (all_acknowledged messages.now)) }
{
    let before = terms_before(alloc, grants, later.term, later.table, later.key)?;
    Ok(first_among(messages, &before, later))
}

/// Whether the write is seen to fall from none: its version is above a bar that is known.
fn is_above_bar(bars: &Bars, later: &AckedWrite) -> bool
    ensures { IsTrue result → (sent : List Message) → AreBars bars.now sent →
        first_fall sent (ack_of later.now) (all_acknowledged sent) ≡ None }
{
    match bars.get(&later.term_key()).copied() {
        Some(bar) => !is_level(bar, later.version),
        None => false,
    }
}

/// The first write from which this later one falls. Most that fall from none are seen to be above the
/// greatest version under the earlier terms, which is found once for each key under a term.
fn falls_by_bars(
    alloc: Global,
    messages: &[Message],
    grants: &Grants,
    highs: &Highs,
    bars: &mut Bars,
    later: &AckedWrite,
) -> Result<Option<Breach>, AllocError>
    requires grants { AreGrants grants.now messages.now }
    requires levels { HasLevels highs.now messages.now }
    requires bars { AreBars bars.old messages.now }
    ensures found { IfOk result (λ found.
        found ≡ first_fall messages.now (ack_of later.now) (all_acknowledged messages.now)) }
    ensures bars { OnOk result (AreBars bars.new messages.now) }
{
    let bar = bar_of(alloc, grants, highs, bars, later.term_key())?;
    if !is_level(bar, later.version) {
        return Ok(None);
    }
    let found = falls_from(alloc, messages, grants, later)?;
    Ok(found)
}

/// The first acknowledged write whose version is not above that of one that was acknowledged under an
/// earlier ownership of its key, with the first such one. Most writes are seen to rise by bars that are
/// found at once for all keys under all terms.
pub(crate) fn falling_version(
    alloc: Global,
    messages: &[Message],
) -> Result<Option<Breach>, AllocError>
    ensures { IfOk result (λ found.
        found ≡ falls_of messages.now (all_acknowledged messages.now)) }
{
    let grants = grants_in(alloc, messages)?;
    let highs = acked_highs(alloc, messages)?;
    let all = all_bars(alloc, &grants, &highs)?;
    let mut bars = BTreeMap::new(alloc);
    for message in messages {
        let Some(later) = write_in(&message.body) else {
            continue;
        };
        if is_above_bar(&all, &later) {
            continue;
        }
        let falling = falls_by_bars(alloc, messages, &grants, &highs, &mut bars, &later)?;
        if falling.is_some() {
            return Ok(falling);
        }
    }
    Ok(None)
}
