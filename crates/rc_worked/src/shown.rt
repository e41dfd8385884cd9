//! Runs of `specs/Shown.antt`, in each of which one rule shows.

ghost use Rattle.rc_worked.specs.Shown.{TwoWritesOfOneKeyReports, ReadAtSecondOwnerReports, ReadAtSecondOwnerAnswers};
ghost use Rattle.rc_worked.specs.Shown.{ReadBeforeStoredReports, NewerGenerationReports, SecondAttemptReports};
ghost use Rattle.rc_worked.specs.Shown.{RecoveredWhenStoredReports, FreedWhenWritingReports};
ghost use Rattle.rc_worked.specs.Shown.{NoDataBeforeClosedReports, NoDataBeforeCommittedReports};
ghost use Rattle.rc_worked.specs.Shown.{CloseToANewMemberReports, CloseToANewMemberGoes};
ghost use Rattle.rc_worked.specs.Shown.{PlaceToALostMemberReports, PlaceToALostMemberGoes};

/// The second write of a key has version 2.
pub fn two_writes_of_one_key()
    ensures { TwoWritesOfOneKeyReports }
{}

/// A client's value comes back by a Read at the second owner.
pub fn read_at_second_owner()
    ensures report { ReadAtSecondOwnerReports }
    ensures answer { ReadAtSecondOwnerAnswers }
{}

/// A Read before the write is stored finds nothing.
pub fn read_before_stored()
    ensures { ReadBeforeStoredReports }
{}

/// A newer generation of a host begins the recovery of the older one.
pub fn newer_generation()
    ensures { NewerGenerationReports }
{}

/// The second attempt begins with the second ready server.
pub fn second_attempt()
    ensures { SecondAttemptReports }
{}

/// What was replayed isn't told to be recovered before it is stored.
pub fn recovered_when_stored()
    ensures { RecoveredWhenStoredReports }
{}

/// Nothing is freed before the new head writes.
pub fn freed_when_writing()
    ensures { FreedWhenWritingReports }
{}

/// The new head takes nothing before the old one is closed.
pub fn no_data_before_closed()
    ensures { NoDataBeforeClosedReports }
{}

/// Nor before the epoch is committed under which it is closed on all members.
pub fn no_data_before_committed()
    ensures { NoDataBeforeCommittedReports }
{}

/// A member that has taken a lost one's place in the closed old head is sent a Close too.
pub fn close_to_a_new_member()
    ensures report { CloseToANewMemberReports }
    ensures goes { CloseToANewMemberGoes }
{}

/// A lost member of a closed segment that has told nothing is sent it again by the timer.
pub fn place_to_a_lost_member()
    ensures report { PlaceToALostMemberReports }
    ensures goes { PlaceToALostMemberGoes }
{}
