//! What the coordinator commits and grants.

ghost use Rattle.rc_model.specs.CoordinatorClaims.{LeastPairsNeverFall, CommitsAreCovered, CrashedCommitNothing};
ghost use Rattle.rc_model.specs.CoordinatorClaims.{CrashedAreGrantedNothing, StaleAttemptsGrantNothing};
ghost use Rattle.rc_model.specs.CoordinatorClaims.{GrantsGoOnlyToTheUp};

/// A least pair never falls, and covers each commit that is answered; who isn't up commits nothing.
pub fn commits_rise()
    ensures rise { LeastPairsNeverFall }
    ensures covered { CommitsAreCovered }
    ensures crashed { CrashedCommitNothing }
{}

/// Nothing new is granted to who isn't up, or in an attempt that isn't current.
pub fn grants_are_current()
    ensures crashed { CrashedAreGrantedNothing }
    ensures stale { StaleAttemptsGrantNothing }
{}

/// A CommitOk, and an Own, that of a Create too, goes only to an id that is up.
pub fn grants_go_to_who_is_up()
    ensures { GrantsGoOnlyToTheUp }
{}
