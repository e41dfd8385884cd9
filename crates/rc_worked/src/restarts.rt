//! Runs of `specs/Restarts.antt`.

ghost use Rattle.rc_worked.specs.Restarts.{RestartKeptReports, RestartDroppedReports};

/// restart kept
pub fn restart_kept()
    ensures { RestartKeptReports }
{}

/// restart dropped
pub fn restart_dropped()
    ensures { RestartDroppedReports }
{}
