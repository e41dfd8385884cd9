//! Head roll-over, and restarts.
#![tactic(auto, unfolding(crate::proofs::Spelling::computed))]

ghost use Rattle.rc_runs.specs.Rolls.{RollPrints, NewHeadNowherePrints, SuspectedWhileOpeningPrints};
ghost use Rattle.rc_runs.specs.Rolls.{RestartDroppedPrints};

/// A full head is rolled over.
pub fn roll()
    ensures { RollPrints }
{}

/// The new head is found nowhere: the old one is recovered.
pub fn new_head_nowhere()
    ensures { NewHeadNowherePrints }
{}

/// The new head is found: both segments are recovered.
pub fn suspected_while_opening()
    ensures { SuspectedWhileOpeningPrints }
{}

/// A backup is started again and keeps nothing: no open replica is found.
pub fn restart_dropped()
    ensures { RestartDroppedPrints }
{}
