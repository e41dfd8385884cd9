//! Lists of tablets, and whether they are what those of a tree are.

ghost use Rattle.std.specs.Prelude.{◌≡◌, ◌↔◌, true};
ghost use Rattle.rc_rangetree.specs.Ranges.{Follows, CoversFrom, CoverTables, AreTablets};

use rc_types::limits::{LAST_KEY, MAX_TABLETS};
use rc_types::{KeyRange, Tablet};

/// Whether a tree can have these tablets: they are in order, do not overlap, cover each table that is there from its
/// first key to its last, and are at most 1,024. It takes no memory.
#[tactic(auto, using(crate::proofs::Covered::in_order))]
pub fn are_tablets(tablets: &[Tablet]) -> bool
    ensures { (result ≡ true) ↔ AreTablets tablets.now }
{
    tablets.len() <= MAX_TABLETS && cover_tables(tablets)
}

/// Whether each table that is there is covered from its first key to its last, in order and without overlaps.
fn cover_tables(tablets: &[Tablet]) -> bool
    ensures { (result ≡ true) ↔ CoverTables tablets.now }
{
    match tablets {
        [] => true,
        [first, rest @ ..] => first.range.lo == 0 && covers_from(first, rest),
    }
}

/// Whether each of these tablets follows the one before it, the first of them this one, and the last has its table's
/// last key.
fn covers_from(tablet: &Tablet, tablets: &[Tablet]) -> bool
    ensures { (result ≡ true) ↔ CoversFrom tablet.now tablets.now }
{
    match tablets {
        [] => tablet.range.lo <= tablet.range.hi && tablet.range.hi == LAST_KEY,
        [next, rest @ ..] => {
            tablet.range.lo <= tablet.range.hi
                && follows(&tablet.range, &next.range)
                && covers_from(next, rest)
        }
    }
}

/// Whether the second range comes right after the first.
fn follows(range: &KeyRange, next: &KeyRange) -> bool
    ensures { (result ≡ true) ↔ Follows range.now next.now }
{
    if range.table == next.table {
        range.hi < LAST_KEY && next.lo == range.hi + 1
    } else {
        range.table < next.table && range.hi == LAST_KEY && next.lo == 0
    }
}
