//! In which view of itself a node sends what.

ghost use Rattle.rc_model.specs.SendClaims.{OfEachMessage, CommitsAreDue, ClosesAreDue, DeposedOnlyRefuse};
ghost use Rattle.rc_model.specs.SendClaims.{DeposedDoNotTick};

/// A Commit goes out only where its segment is placed on all members of its current epoch, each of which has told
/// something under it; and no earlier segment is open, or the Commit was sent before.
pub fn commits_are_of_placed_segments()
    ensures { OfEachMessage CommitsAreDue }
{}

/// A Close has the final length of a segment below the head, under a committed epoch; and it goes out only where the
/// phase is Closing, or becomes so in that step, for which the new head has to be placed on all its members.
pub fn closes_are_final()
    ensures { OfEachMessage ClosesAreDue }
{}

/// A deposed master answers a client's Write or Read with F5, sends nothing else, so no WriteOk, and stays as it is.
pub fn deposed_masters_only_refuse()
    ensures takes { DeposedOnlyRefuse }
    ensures ticks { DeposedDoNotTick }
{}
