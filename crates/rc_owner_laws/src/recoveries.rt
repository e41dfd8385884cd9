//! Recoveries can end, of every setup and every list of events.

ghost use Rattle.rc_owner_laws.specs.Recoveries.{PlannedPartsAreTablets, PlannedPartsCanBeGranted};
ghost use Rattle.rc_owner_laws.specs.Recoveries.{NoServerLacksATablet};

/// A recovery that was decided can be granted: each part of a plan of a current attempt is exactly a
/// tablet of the crashed master until its Own was sent, so the Recovered of whom it was given to is
/// answered by its Own, and no Recovered is ever refused for want of a tablet.
pub fn a_decided_recovery_can_be_granted()
    ensures tablets { PlannedPartsAreTablets }
    ensures granted { PlannedPartsCanBeGranted }
    ensures never_lacking { NoServerLacksATablet }
{}
