//! What drawings obey, as contracts of functions that do nothing.

ghost use Rattle.rc_runs.specs.DrawClaims.{BeginningDoesNotStop, BeginningHas52Events, SeedOneBeginsSo};

/// Each event of the beginning can happen.
pub fn beginning_does_not_stop()
    ensures { BeginningDoesNotStop }
{}

/// 52 events happen before the first step, whatever the seed.
pub fn beginning_has_52_events()
    ensures { BeginningHas52Events }
{}

/// The first steps of seed 1, as PCG's 32-bit words, worked out apart, choose them.
pub fn seed_one_begins_so()
    ensures { SeedOneBeginsSo }
{}
