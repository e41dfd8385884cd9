//! The terms that are granted at the points of all tables, as an ordered table of bounds: each says
//! what holds from its point on, up to the next bound. So the term at a point is found by one look-up.

ghost use Rattle.std.specs.Prelude.{◌≡◌, ℕ, ◌+◌, ◌<◌, ◌≤◌, ◌^◌, Option, None, OnOk, option_map, if◌then◌else◌};
ghost use Rattle.std.specs.Option.{IsSome};
ghost use Rattle.std.specs.Ordering.{nat_cmp};
ghost use Rattle.std.specs.BTreeMap.{get};
ghost use Rattle.rc_ownership.specs.Bounds.{point_of, Say, IsSaid, or_term, is_within};

use std::alloc::AllocError;
use std::collections::BTreeMap;

/// How many keys a table has.
const KEY_COUNT: u128 = 1 << 64;

/// The number of a point among those of all tables.
pub(crate) fn point_of(table: u32, key: u64) -> u128
    ensures value { result ≡ point_of table key }
    ensures small { result < 2 ^ 96 }
{
    u128::from(table) * KEY_COUNT + u128::from(key)
}

/// What the last bound up to a point says.
pub(crate) fn term_at(bounds: &BTreeMap<u128, Option<u32>>, point: u128) -> Option<u32>
    ensures { IsSaid (get nat_cmp bounds.now) point result }
{
    match bounds.range(..=point).next_back() {
        Some((_, term)) => *term,
        None => None,
    }
}

/// Sets a bound at a point, which says what holds there already.
pub(crate) fn cut_at(
    bounds: &mut BTreeMap<u128, Option<u32>>,
    point: u128,
) -> Result<(), AllocError>
    ensures there { OnOk result (IsSome (get nat_cmp bounds.new point)) }
    ensures kept { (other : ℕ) → IsSome (get nat_cmp bounds.old other) → IsSome (get nat_cmp bounds.new other) }
    ensures same { (terms : ℕ → Option ℕ) → Say (get nat_cmp bounds.old) terms → Say (get nat_cmp bounds.new) terms }
{
    let term = term_at(bounds, point);
    if !bounds.contains_key(&point) {
        bounds.insert(point, term)?;
    }
    Ok(())
}

/// The next bound above a point, or the end where none comes before it.
fn next_bound(bounds: &BTreeMap<u128, Option<u32>>, point: u128, end: u128) -> u128
    requires { point < end }
    ensures above { point < result }
    ensures within { result ≤ end }
    ensures none { (other : ℕ) → point < other → other < result → get nat_cmp bounds.now other ≡ None }
{
    match bounds.range(point + 1..end).next() {
        Some((bound, _)) => *bound,
        None => end,
    }
}

/// Gives a term to the bound at a point, where it has none.
fn give_at(bounds: &mut BTreeMap<u128, Option<u32>>, point: u128, term: u32)
    ensures { (other : ℕ) → get nat_cmp bounds.new other ≡ (if is_within point (point + 1) other then option_map
        (or_term term) (get nat_cmp bounds.old other) else get nat_cmp bounds.old other) }
{
    if let Some(held) = bounds.get_mut(&point) {
        if held.is_none() {
            *held = Some(term);
        }
    }
}

/// Gives a term to each bound from one point on and before another that has none.
pub(crate) fn give_from(bounds: &mut BTreeMap<u128, Option<u32>>, first: u128, end: u128, term: u32)
    ensures { (other : ℕ) → get nat_cmp bounds.new
        other ≡ (if is_within first end other then option_map (or_term term) (get nat_cmp bounds.old other)
        else get nat_cmp bounds.old other) }
{
    let mut point = first;
    while point < end {
        give_at(bounds, point, term);
        point = next_bound(bounds, point, end);
    }
}
