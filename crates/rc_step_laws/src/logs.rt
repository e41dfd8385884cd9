//! Logs and their copies.

ghost use Rattle.rc_step_laws.specs.LogClaims.{OneEntryAtAPlace, LogsGrow, ShutIsFinal, ShutIsSafe};
ghost use Rattle.rc_step_laws.specs.LogClaims.{ReplicasAreBeginnings, RecoveredIsMade};

/// A master sends one entry for a place. Each segment of its log only grows at its end, and once
/// shut not at all; then all its places are safe. Each replica, at any host, has a beginning of its
/// segment; a closed one has all of it, and all that the master has ever sent for it. What an accepted
/// recovery has is, segment by segment, a beginning of the master's log, and was sent by that master.
pub fn logs_only_grow()
    ensures one_entry { OneEntryAtAPlace }
    ensures grow { LogsGrow }
    ensures shut { ShutIsFinal }
    ensures safe { ShutIsSafe }
    ensures replicas { ReplicasAreBeginnings }
    ensures recovered { RecoveredIsMade }
{}
