//! The best row of each segment.

ghost use Rattle.std.specs.Prelude.{◌≡◌, ℕ, [], ◌∷◌, IfOk, OnOk, IfErr};
ghost use Rattle.std.specs.Option.{option_map};
ghost use Rattle.std.specs.BTreeMap.{get};
ghost use Rattle.std.specs.Ordering.{nat_cmp};
ghost use Rattle.rc_model.specs.Pick.{row_of, rows_of};
ghost use Rattle.rc_digestpick.specs.Held.{held_row, first_of};

use crate::held::Held;
use rc_types::{Fault, Pair, Row, Seq, ServerId};
use std::alloc::Global;
use std::collections::BTreeMap;

/// The first by `is_better` of each segment's valid rows.
pub fn best_rows<'a>(
    alloc: Global,
    min: Pair,
    replies: &'a [(ServerId, Seq<Row>)],
) -> Result<BTreeMap<u16, Held<'a>>, Fault>
    ensures ok { IfOk result (λ best. (seg : ℕ) →
        option_map held_row (get nat_cmp best seg) ≡ row_of min replies.now seg) }
    ensures err { IfErr result (λ e. e ≡ Fault.OutOfMemory) }
{
    let mut best = BTreeMap::new(alloc);
    for (holder, rows) in replies {
        enter_rows(&mut best, min, *holder, rows.as_slice())?;
    }
    Ok(best)
}

/// Enters the rows of one backup, each where it is the best of its segment so far.
fn enter_rows<'a>(
    best: &mut BTreeMap<u16, Held<'a>>,
    min: Pair,
    holder: ServerId,
    rows: &'a [Row],
) -> Result<(), Fault>
    ensures ok { OnOk result ((seg : ℕ) →
        option_map held_row (get nat_cmp best.new seg) ≡
        first_of min seg (option_map held_row (get nat_cmp best.old seg)) (rows_of holder rows.now)) }
    ensures err { IfErr result (λ e. e ≡ Fault.OutOfMemory) }
{
    for row in rows {
        enter(best, min, Held { holder, row })?;
    }
    Ok(())
}

/// Enters one row, if it is the best of its segment so far.
fn enter<'a>(best: &mut BTreeMap<u16, Held<'a>>, min: Pair, held: Held<'a>) -> Result<(), Fault>
    ensures ok { OnOk result ((seg : ℕ) →
        option_map held_row (get nat_cmp best.new seg) ≡
        first_of min seg (option_map held_row (get nat_cmp best.old seg)) (held_row held.entry ∷ [])) }
    ensures err { IfErr result (λ e. e ≡ Fault.OutOfMemory) }
{
    if !held.is_valid(min) {
        return Ok(());
    }
    let first = match best.get(&held.row.seg) {
        Some(before) => held.is_better(*before),
        None => true,
    };
    if first {
        best.insert(held.row.seg, held)?;
    }
    Ok(())
}
