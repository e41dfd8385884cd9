//! Worked scenarios: what is printed for these bytes, as contracts of functions that do nothing.
#![tactic(auto, unfolding(crate::proofs::Spelling::computed))]

ghost use Rattle.rc_runs.specs.Worked.{RestartKeptPrints, SplitTwicePrints, ZombiePrints, FreedPrints};
ghost use Rattle.rc_runs.specs.Worked.{FactorsPrints, StopNotRunningPrints, IndexTooGreatPrints};

/// A backup is started again and keeps an open replica; the recovery finds it.
pub fn restart_kept()
    ensures { RestartKeptPrints }
{}

/// A tablet is split, and split again at the same key.
pub fn split_twice()
    ensures { SplitTwicePrints }
{}

/// Passes that leave a host alone: answers to a crashed master come late, and its acknowledgement stands.
pub fn zombie()
    ensures { ZombiePrints }
{}

/// A master frees a segment that has become wholly dead.
pub fn freed()
    ensures { FreedPrints }
{}

/// One host has a factor of its own.
pub fn factors()
    ensures { FactorsPrints }
{}

/// A server that does not run is stopped: the run stops there.
pub fn stop_not_running()
    ensures { StopNotRunningPrints }
{}

/// Host 64 is wrong.
pub fn index_too_great()
    ensures { IndexTooGreatPrints }
{}
