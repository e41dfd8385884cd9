//! The choice of the log that a recovery takes: from what the backups tell of a crashed master's
//! replicas, one row for each segment of the newest digest that was found open. The words of the
//! contracts are those of `rc_model`'s `Pick`.
#![tactic(auto)]

ghost use Rattle.std.specs.Prelude.{◌≡◌, ℕ, ◌⊎◌, ◌↔◌, IfOk, IfErr};
ghost use Rattle.rc_types.specs.declared.rows.Plan.{Plan as PlanRecord};
ghost use Rattle.rc_model.specs.Pick.{pick as model_pick, IsPickable};
ghost use Rattle.rc_model.specs.PickMissing.{HasNoHead, IsLeastMissing};

mod best;
mod head;
mod held;
mod segments;
mod taken;

use rc_types::{Fault, Pair, Plan, Row, Seq, ServerId};
use std::alloc::Global;

/// The plan of a recovery: which replica is taken of each segment of the log.
///
/// `replies` are the backups that answered, each with its rows, and `min` is the least pair under
/// which an open row counts; a closed row always does. The head is the greatest segment with a row
/// that is open and valid, and the plan has a row for each different segment of that row's digest,
/// ascending. Of the head's open valid rows, and of another segment's valid rows with the closed
/// ones first, the one of the greatest epoch is taken, then of the greatest length, then of the
/// least holder, then the one that stands first in the replies.
///
/// # Errors
///
/// - `HeadMissing` (F8): no row is open and valid.
/// - `SegmentMissing` (F9): the least segment of the digest that has no valid row.
/// - `OutOfMemory` (F1): the memory for the plan, or for the index of segments, was refused.
///
/// The replies are read where they lie. With r rows and d entries in the digest it takes
/// O(r log r + d log d) steps, and room for one reference for each segment that has a valid row and
/// for the digest once more, beside the plan.
#[tactic(auto, using(crate::proofs::Clauses::picking))]
pub fn pick(alloc: Global, min: Pair, replies: &[(ServerId, Seq<Row>)]) -> Result<Plan, Fault>
    ensures ok { IfOk result (λ plan. model_pick min replies.now ≡ Ok plan) }
    ensures err { IfErr result (λ e. (e ≡ Fault.OutOfMemory) ⊎ (model_pick min replies.now ≡ Err e)) }

    // A plan is returned where it is pickable, and of a pickable plan only the memory can be refused.
    ensures pickable { IfOk result (IsPickable min replies.now) }
    ensures picked { (plan : PlanRecord) → IsPickable min replies.now plan →
        (result ≡ Ok plan) ⊎ (result ≡ Err Fault.OutOfMemory) }

    // F8 is found out before any memory is taken, so nothing comes in its place.
    ensures no_head { (result ≡ Err Fault.HeadMissing) ↔ HasNoHead min replies.now }

    // F9 is of the least segment that is missing, and in its place only the memory can be refused.
    ensures missing { (seg : ℕ) → result ≡ Err (Fault.SegmentMissing seg) → IsLeastMissing min replies.now seg }
    ensures not_taken { (seg : ℕ) → IsLeastMissing min replies.now seg →
        (result ≡ Err (Fault.SegmentMissing seg)) ⊎ (result ≡ Err Fault.OutOfMemory) }
{
    match head::head_row(min, replies) {
        Some(head) => taken::plan(alloc, min, replies, head),
        None => Err(Fault::HeadMissing),
    }
}
