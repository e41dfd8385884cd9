//! Commits, and who may ask for them.

ghost use Rattle.rc_step_laws.specs.CommitClaims.{CrashedIsNeverUp, EachGrantGoesToTheUp, GrantsGoToTheUp};
ghost use Rattle.rc_step_laws.specs.CommitClaims.{CrashedAreGrantedNoMore, LeastIsTheGreatestCommit};

/// A server that the coordinator's list once showed crashed is never up in it again.
pub fn crashed_is_for_good()
    ensures { CrashedIsNeverUp }
{}

/// A commit is granted only to a server that is up by the coordinator's list when it is granted. So
/// once a server has crashed, nothing is granted to it that was not granted before.
pub fn commits_go_to_who_is_up()
    ensures each { EachGrantGoesToTheUp }
    ensures up { GrantsGoToTheUp }
    ensures crashed { CrashedAreGrantedNoMore }
{}

/// The least pair of a master, below which its open replicas count for nothing, is the greatest pair
/// of all the commits that the coordinator has granted it, and (0, 0) where it has granted none.
pub fn the_least_pair_is_the_greatest_commit()
    ensures { LeastIsTheGreatestCommit }
{}
