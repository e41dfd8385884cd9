//! The rows of a plan: one for each segment of the head row's digest.

ghost use Rattle.std.specs.Prelude.{◌≡◌, ◌≢◌, ◌⊎◌, IfOk, IfErr};
ghost use Rattle.std.specs.BTreeMap.{get};
ghost use Rattle.std.specs.Option.{option_map};
ghost use Rattle.std.specs.Ordering.{nat_cmp};
ghost use Rattle.rc_model.specs.Pick.{pick, head_row, taken_rows};
ghost use Rattle.rc_model.specs.Ascending.{ascending};
ghost use Rattle.rc_digestpick.specs.Held.{held_row};

use crate::best::best_rows;
use crate::held::Held;
use crate::segments::ascending;
use rc_types::{Fault, Pair, Plan, PlanRow, Row, Seq, ServerId};
use std::alloc::Global;
use std::collections::BTreeMap;

/// The plan, given the head row: its segment, and a row for each segment of its digest. The least
/// segment that has none is refused (F9).
pub fn plan(
    alloc: Global,
    min: Pair,
    replies: &[(ServerId, Seq<Row>)],
    head: Held,
) -> Result<Plan, Fault>
    requires { head_row min replies.now ≡ Some (held_row head) }
    ensures ok { IfOk result (λ plan. pick min replies.now ≡ Ok plan) }
    ensures err { IfErr result (λ e. (e ≡ Fault.OutOfMemory) ⊎ (pick min replies.now ≡ Err e)) }
{
    let rows = taken_rows(alloc, min, replies, head)?;
    Ok(Plan {
        head: head.row.seg,
        rows: Seq::from_vec(rows),
    })
}

/// A row for each segment of the head row's digest, ascending: the head row for its own segment,
/// and the best row of each other one.
fn taken_rows(
    alloc: Global,
    min: Pair,
    replies: &[(ServerId, Seq<Row>)],
    head: Held,
) -> Result<Vec<PlanRow>, Fault>
    ensures ok { let held = held_row head.entry in
        IfOk result (λ rows. taken_rows min replies.now held (ascending held.row.digest) ≡ Ok rows.items) }
    ensures err { let held = held_row head.entry in
        let segs = ascending held.row.digest in
        IfErr result (λ e. (e ≡ Fault.OutOfMemory) ⊎ (taken_rows min replies.now held segs ≡ Err e)) }
{
    let best = best_rows(alloc, min, replies)?;
    let segs = ascending(alloc, head.row.digest.as_slice())?;
    let mut rows = Vec::with_capacity(alloc, segs.len())?;
    for seg in &segs {
        let Some(held) = taken_row(&best, head, *seg) else {
            return Err(Fault::SegmentMissing(*seg));
        };
        rows.push(held.plan_row())?;
    }
    Ok(rows)
}

/// The head row for its own segment, and the best row of another one.
fn taken_row<'a>(best: &BTreeMap<u16, Held<'a>>, head: Held<'a>, seg: u16) -> Option<Held<'a>>
    ensures own { seg ≡ head.entry.row.now.seg → option_map held_row result ≡ Some (held_row head.entry) }
    ensures other { seg ≢ head.entry.row.now.seg →
        option_map held_row result ≡ option_map held_row (get nat_cmp best.now seg) }
{
    if seg == head.row.seg {
        return Some(head);
    }
    best.get(&seg).copied()
}
