//! Runs of `specs/Rolls.antt`.

ghost use Rattle.rc_worked.specs.Rolls.{RollReports, SuspectedWhileOpeningReports, NewHeadNowhereReports};
ghost use Rattle.rc_worked.specs.Rolls.{ReplacedThenRolledReports, ReplacedThenRolledChanged};

/// roll
pub fn roll()
    ensures { RollReports }
{}

/// suspected while opening
pub fn suspected_while_opening()
    ensures { SuspectedWhileOpeningReports }
{}

/// new head nowhere
pub fn new_head_nowhere()
    ensures { NewHeadNowhereReports }
{}

/// A write is acknowledged, its segment's members are replaced, and the log rolls: the recovery has
/// its head at segment 2, and its rows cover each acknowledged write.
pub fn replaced_then_rolled()
    ensures told { ReplacedThenRolledReports }
    ensures changed { ReplacedThenRolledChanged }
{}
