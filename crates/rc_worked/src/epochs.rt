//! Runs of `specs/Epochs.antt`.

ghost use Rattle.rc_worked.specs.Epochs.{AppendAfterFenceReports, CommitLostNewReports, CommitLostOldReports};
ghost use Rattle.rc_worked.specs.Epochs.{CommitOfCrashedReports, StaleReplicaReturnsReports};

/// append after fence
pub fn append_after_fence()
    ensures { AppendAfterFenceReports }
{}

/// commit lost new
pub fn commit_lost_new()
    ensures { CommitLostNewReports }
{}

/// commit lost old
pub fn commit_lost_old()
    ensures { CommitLostOldReports }
{}

/// commit of crashed
pub fn commit_of_crashed()
    ensures { CommitOfCrashedReports }
{}

/// stale replica returns
pub fn stale_replica_returns()
    ensures { StaleReplicaReturnsReports }
{}
