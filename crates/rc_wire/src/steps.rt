//! What nodes are given to do.

ghost use Rattle.std.specs.Prelude.{◌≡◌, IfOk};
ghost use Rattle.rc_wire.specs.Runs.{own_work};

use crate::work::Work;
use rc_types::{NodeName, TryClone};
use std::alloc::{AllocError, Global};

/// One line of what nodes are given to do.
#[derive(Drop)]
pub enum Step {
    /// The node of this seat does this work.
    Do(NodeName, Work),
    /// Whoever gives the works waits until all that was begun is done.
    Settle,
}

/// A copy of the step's work, where the step is one of this seat.
pub(crate) fn own_work(
    alloc: Global,
    step: &Step,
    name: NodeName,
) -> Result<Option<Work>, AllocError>
    ensures { IfOk result (λ own. own ≡ own_work name step.now) }
{
    match step {
        Step::Do(who, work) if who.number() == name.number() => Ok(Some(copy_of(alloc, work)?)),
        _ => Ok(None),
    }
}

/// A copy of a work.
fn copy_of(alloc: Global, work: &Work) -> Result<Work, AllocError>
    ensures { IfOk result (λ copy. copy ≡ work.now) }
{
    Ok(match work {
        Work::Fetched => Work::Fetched,
        Work::Ask { to, body } => Work::Ask {
            to: *to,
            body: body.try_clone(alloc)?,
        },
        Work::Tick => Work::Tick,
        Work::Stop => Work::Stop,
        Work::Start { kept } => Work::Start {
            kept: kept.try_clone(alloc)?,
        },
        Work::Order(order) => Work::Order(*order),
    })
}
