//! What the steps of the coordinator keep.

ghost use Rattle.rc_step_laws.specs.CoordinatorClaims.{TakesKeep, SuspicionsKeep, DecisionsKeep, NewTablesKeep};
ghost use Rattle.rc_step_laws.specs.CoordinatorClaims.{SplitsKeep, TicksKeep, NewIsGood};

/// After each step of the coordinator: who crashed stays crashed, and the least pair of a crashed
/// master stays; a granted pair is not above the least one; an attempt is for a crashed master, its
/// answers were sent, and its decision is picked from them; of each host at most one id is up.
pub fn the_coordinator_keeps_the_facts()
    ensures takes { TakesKeep }
    ensures suspects { SuspicionsKeep }
    ensures decides { DecisionsKeep }
    ensures creates { NewTablesKeep }
    ensures splits { SplitsKeep }
    ensures ticks { TicksKeep }
    ensures new { NewIsGood }
{}
