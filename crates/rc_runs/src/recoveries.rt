//! Recoveries to their end, and reads.
#![tactic(auto, unfolding(crate::proofs::Spelling::computed))]

ghost use Rattle.rc_runs.specs.Recoveries.{LeftoversPrints, ReadPrints};

/// What a failed recovery left is not replayed by the next ones. Passes leave a kind alone.
pub fn leftovers()
    ensures { LeftoversPrints }
{}

/// A written value is read.
pub fn read()
    ensures { ReadPrints }
{}
