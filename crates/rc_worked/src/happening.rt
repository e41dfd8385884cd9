//! The theorems are about something: runs of `specs/Happening.antt`.

ghost use Rattle.rc_worked.specs.Rolls.{ReplacedThenRolledChanged};
ghost use Rattle.rc_worked.specs.Happening.{ScenariosAreReplays, RolledIsAcknowledged, RolledIsRecovered};
ghost use Rattle.rc_worked.specs.Happening.{RolledHasItsHeadAbove, RolledIsCovered, RolledIsDurable};
ghost use Rattle.rc_worked.specs.Happening.{FreedIsAcknowledged, FreedIsRecovered, FreedIsLeftOut, FreedIsSuperseded};
ghost use Rattle.rc_worked.specs.Happening.{FreedIsDropped, ThreeOwnersTell, ThreeOwnersAcknowledge};
ghost use Rattle.rc_worked.specs.Happening.{ThreeOwnersAreInTurn};

/// A scenario is what a list of events leads to, so that each theorem on every list of events speaks
/// of it.
pub fn scenarios_are_replays()
    ensures { ScenariosAreReplays }
{}

/// A write is acknowledged, the members of its segment are replaced, and the log rolls: the recovery
/// has its head at segment 2, and covers the write. In another run a segment was freed, and the
/// recovery leaves it out, with the write that was acknowledged there; a greater version is in it. So
/// where segments are freed, an acknowledged write need not be recovered at its own place.
pub fn recoveries_happen()
    ensures acknowledged { RolledIsAcknowledged }
    ensures changed { ReplacedThenRolledChanged }
    ensures recovered { RolledIsRecovered }
    ensures head { RolledHasItsHeadAbove }
    ensures covered { RolledIsCovered }
    ensures durable { RolledIsDurable }
    ensures freed_acknowledged { FreedIsAcknowledged }
    ensures freed_recovered { FreedIsRecovered }
    ensures freed_left_out { FreedIsLeftOut }
    ensures freed_superseded { FreedIsSuperseded }
    ensures freed_dropped { FreedIsDropped }
{}

/// Three owners in turn acknowledge writes of one key, under versions that rise; the first one's
/// acknowledgement is sent when the second already has its grant, and has acknowledged a write.
pub fn owners_change()
    ensures told { ThreeOwnersTell }
    ensures acknowledged { ThreeOwnersAcknowledge }
    ensures in_turn { ThreeOwnersAreInTurn }
{}
