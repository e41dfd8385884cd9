//! Runs of `specs/Recoveries.antt`.

ghost use Rattle.rc_worked.specs.Recoveries.{ReadBackReports, ZombieRepliesInFlightReports, LeftoversReports};

/// read back
pub fn read_back()
    ensures { ReadBackReports }
{}

/// zombie replies in flight
pub fn zombie_replies_in_flight()
    ensures { ZombieRepliesInFlightReports }
{}

/// leftovers
pub fn leftovers()
    ensures { LeftoversReports }
{}
