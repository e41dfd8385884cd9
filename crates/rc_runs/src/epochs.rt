//! Lost backups, epochs and commits.
#![tactic(auto, unfolding(crate::proofs::Spelling::computed))]

ghost use Rattle.rc_runs.specs.Epochs.{AppendAfterFencePrints, CommitLostNewPrints, CommitLostOldPrints};
ghost use Rattle.rc_runs.specs.Epochs.{CommitOfCrashedPrints, StaleReplicaReturnsPrints};

/// A master that is believed dead goes on: its fenced backups do not answer.
pub fn append_after_fence()
    ensures { AppendAfterFencePrints }
{}

/// A commit is lost, and a backup of the new epoch is found.
pub fn commit_lost_new()
    ensures { CommitLostNewPrints }
{}

/// A commit is lost, and a backup of the old epoch is found.
pub fn commit_lost_old()
    ensures { CommitLostOldPrints }
{}

/// The commit of a crashed master is refused, and so is a write to it then.
pub fn commit_of_crashed()
    ensures { CommitOfCrashedPrints }
{}

/// A stale replica comes back, and is not enough; a newer one is.
pub fn stale_replica_returns()
    ensures { StaleReplicaReturnsPrints }
{}
