//! Freed segments and recoveries.

ghost use Rattle.rc_step_laws.specs.FreedClaims.{RecoveriesAreDigests, HeadsAreNotShut, FreedIsLeftOut};
ghost use Rattle.rc_step_laws.specs.FreedClaims.{FreedIsInNoRecovery};

/// After every list of events, of every setup: an accepted recovery has a row for each segment of
/// its head's digest and for no other, and its head is not shut. A master frees a segment only
/// where all segments before some head are shut and each digest from that head on lacks it. So
/// what a master has freed, before its recovery was accepted or since, is in none of its accepted
/// recoveries, and no row of a plan has lost its replicas to a Free.
pub fn what_is_freed_is_in_no_recovery()
    ensures rows { RecoveriesAreDigests }
    ensures heads { HeadsAreNotShut }
    ensures left_out { FreedIsLeftOut }
    ensures not_recovered { FreedIsInNoRecovery }
{}
