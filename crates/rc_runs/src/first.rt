//! Writes, and events that stop a run.
#![tactic(auto, unfolding(crate::proofs::Spelling::computed))]

ghost use Rattle.rc_runs.specs.First.{FirstWritePrints, LostStoredPrints, NothingPrints, RefusalsPrints};
ghost use Rattle.rc_runs.specs.First.{TwiceAndInReversePrints, DeliverUnsentPrints, DeliverTooFarPrints};

/// A write is acknowledged, and the recovery of its log covers it.
pub fn first_write()
    ensures { FirstWritePrints }
{}

/// The answer of one backup is lost: the write is not acknowledged.
pub fn lost_stored()
    ensures { LostStoredPrints }
{}

/// No event, no message.
pub fn nothing()
    ensures { NothingPrints }
{}

/// Five refusals.
pub fn refusals()
    ensures { RefusalsPrints }
{}

/// Messages come twice and in reverse.
pub fn twice_and_in_reverse()
    ensures { TwiceAndInReversePrints }
{}

/// A message that was never sent is delivered: the run stops there.
pub fn deliver_unsent()
    ensures { DeliverUnsentPrints }
{}

/// A delivery far past the end stops the run.
pub fn deliver_too_far()
    ensures { DeliverTooFarPrints }
{}
