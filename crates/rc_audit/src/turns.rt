//! The greatest versions before the terms of an order, found in the order's sequence.

ghost use Rattle.std.specs.Prelude.{◌≡◌, ◌≤◌, ◌<◌, ℕ, List, true, Some, OnOk, IfOk};
ghost use Rattle.std.specs.Ordering.{nat_cmp};
ghost use Rattle.std.specs.BTreeMap.{get};
ghost use Rattle.std.specs.BTreeSet.{contains};
ghost use Rattle.rc_types.specs.declared.messages.Message.{Message};
ghost use Rattle.rc_audit.specs.Bars.{AreBars, HasLevels};
ghost use Rattle.rc_audit.specs.Grants.{AreGrants};
ghost use Rattle.rc_audit.specs.Orders.{AreOver};
ghost use Rattle.rc_audit.specs.Turns.{HasTurn, HasTurns, TakesTurn};

use crate::bars::Bars;
use crate::circles::find_order;
use crate::grants::Grants;
use crate::highs::{Highs, TermKey, high_of, note_version};
use crate::orders::{Order, keeps};
use std::alloc::{AllocError, Global};
use std::collections::{BTreeMap, BTreeSet};

/// A turn of a key under a term, at a place of the order.
#[derive(Clone, Copy, PartialEq, Eq, PartialOrd, Ord)]
pub(crate) struct Turn {
    /// The place.
    pub(crate) place: u64,
    /// Whether its greatest version is noted then, or else what was noted is its bar.
    pub(crate) is_noted: bool,
    /// The key.
    pub(crate) key: TermKey,
}

/// Adds the two turns of a key, if its term has a place.
fn add_turns(order: &Order, turns: &mut BTreeSet<Turn>, key: TermKey) -> Result<(), AllocError>
    ensures { OnOk result (HasTurn order.now turns.old turns.new key) }
{
    let Some(span) = order.get(&key.term).copied() else {
        return Ok(());
    };
    turns.insert(Turn {
        place: span.bound,
        is_noted: false,
        key,
    })?;
    turns.insert(Turn {
        place: span.place,
        is_noted: true,
        key,
    })?;
    Ok(())
}

/// The turns of all keys.
fn turns_of(alloc: Global, order: &Order, highs: &Highs) -> Result<BTreeSet<Turn>, AllocError>
    ensures { IfOk result (λ turns. HasTurns order.now highs.now turns) }
{
    let mut turns = BTreeSet::new(alloc);
    for (key, _) in highs {
        add_turns(order, &mut turns, *key)?;
    }
    Ok(turns)
}

/// The key of all terms at once.
fn of_all_terms(key: TermKey) -> TermKey
    ensures { result ≡ record key { term = 0 } }
{
    TermKey {
        term: 0,
        table: key.table,
        key: key.key,
    }
}

/// Takes one turn: notes the key's greatest version, or finds its bar among those noted.
fn take_turn(
    order: &Order,
    highs: &Highs,
    noted: &mut Highs,
    bars: &mut Bars,
    turn: &Turn,
) -> Result<(), AllocError>
    ensures { OnOk result (TakesTurn order.now highs.now noted.old noted.new bars.old bars.new turn.now) }
{
    let key = of_all_terms(turn.key);
    if turn.is_noted {
        if let Some(version) = high_of(highs, turn.key) {
            note_version(noted, key, version)?;
        }
        return Ok(());
    }
    match order.get(&turn.key.term).copied() {
        Some(span) if span.bound <= turn.place => {
            let bar = high_of(noted, key);
            bars.insert(turn.key, bar)?;
        }
        _ => {}
    }
    Ok(())
}

/// For each key whose term has a place, a version that is over those under the terms before it.
fn over_all(alloc: Global, order: &Order, highs: &Highs) -> Result<Bars, AllocError>
    ensures { IfOk result (λ bars. AreOver order.now highs.now bars) }
{
    let mut turns = turns_of(alloc, order, highs)?;
    let mut noted = BTreeMap::new(alloc);
    let mut bars = BTreeMap::new(alloc);
    // a turn that is taken leaves its room to the bars
    while let Some(turn) = turns.pop_first() {
        take_turn(order, highs, &mut noted, &mut bars, &turn)?;
    }
    Ok(bars)
}

/// The bars of all keys under terms that were granted: all at once, by an order of the terms. Where the order
/// that was found does not keep to the grants, there is no bar.
pub fn all_bars(alloc: Global, grants: &Grants, highs: &Highs) -> Result<Bars, AllocError>
    ensures { IfOk result (λ bars. (sent : List Message) →
        AreGrants grants.now sent → HasLevels highs.now sent → AreBars bars sent) }
{
    let order = find_order(alloc, grants)?;
    if !keeps(&order, grants) {
        return Ok(BTreeMap::new(alloc));
    }
    let bars = over_all(alloc, &order, highs)?;
    Ok(bars)
}
