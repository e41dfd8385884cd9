//! Runs in which nothing is dropped, so that the choice of the first server's log isn't refused. The three guards that
//! wait until a segment is placed on all its members are there for this alone: without one of them the run beside it
//! is refused.

ghost use Rattle.rc_worked.specs.Losses.{FirstHeadNowhereIsNotLost, ChangeNowhereIsNotLost, RollNowhereIsNotLost};

/// The first head reaches nobody: its master isn't ready.
pub fn first_head_nowhere()
    ensures { FirstHeadNowhereIsNotLost }
{}

/// The head's only member is suspected, and the head reaches no other one: its new epoch isn't committed.
pub fn change_nowhere()
    ensures { ChangeNowhereIsNotLost }
{}

/// The next head reaches nobody: the old one isn't closed.
pub fn roll_nowhere()
    ensures { RollNowhereIsNotLost }
{}
