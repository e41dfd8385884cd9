//! The reads of these runs stand in the order of time.
//!
//! `specs/Ordered.antt` has a test of that, on the messages of a run. Under a wrong rule of `wrong/rules/` the test of
//! the run that its file names by `unorders:` fails, and what else is said here still holds.

ghost use Rattle.rc_worked.specs.Ordered.{TwoHandoversKeepOrder, ZombieKeepsOrder, ZombieBreaksNoOther};
ghost use Rattle.rc_worked.specs.Ordered.{ShownAgainKeepsOrder};

/// Reads at a second owner, and at a third one.
pub fn two_handovers()
    ensures { TwoHandoversKeepOrder }
{}

/// A master that was replaced tries to confirm its read.
pub fn zombie_confirms_nothing()
    ensures order { ZombieKeepsOrder }
    ensures others { ZombieBreaksNoOther }
{}

/// A write that nobody acknowledges is shown twice.
pub fn shown_again()
    ensures { ShownAgainKeepsOrder }
{}
