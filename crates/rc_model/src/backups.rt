//! What backups keep.

ghost use Rattle.rc_model.specs.BackupClaims.{ReplicasOnlyGrow, ClosedStaysTheSame, ClosesAtTheStatedLength};
ghost use Rattle.rc_model.specs.BackupClaims.{FencedStoresNothing, FencedReplicasStay, GatherFences, FreedIsMarked};
ghost use Rattle.rc_model.specs.BackupClaims.{FreedStoresNothing, RestartKeeps, RestartKeepsNoOther};
ghost use Rattle.rc_model.specs.BackupClaims.{RestartFencesNobody, TellsOnlyOfFenced};

/// A replica's entries only grow; a closed one stays closed with the same entries; and one closes
/// only where it has exactly the stated length.
pub fn replicas_are_kept()
    ensures grow { ReplicasOnlyGrow }
    ensures closed { ClosedStaysTheSame }
    ensures whole { ClosesAtTheStatedLength }
{}

/// A fenced master's replicas stay as they are, whatever comes; its Places, Appends, Closes and Frees
/// change nothing and are not answered; and a Gather fences.
pub fn fences_hold()
    ensures nothing { FencedStoresNothing }
    ensures stay { FencedReplicasStay }
    ensures gather { GatherFences }
{}

/// Replicas and Data go out only in answer to a Gather or a Fetch of a master's log, and only once that master is
/// fenced.
pub fn answers_are_of_the_fenced()
    ensures { TellsOnlyOfFenced }
{}

/// A restart keeps the closed replicas and those that are named, and no others, and fences nobody.
pub fn restarts_keep()
    ensures keeps { RestartKeeps }
    ensures no_other { RestartKeepsNoOther }
    ensures nobody { RestartFencesNobody }
{}

/// A freed segment is marked and its replica goes; nothing of a marked one is stored any more.
pub fn freed_stay_freed()
    ensures marked { FreedIsMarked }
    ensures nothing { FreedStoresNothing }
{}
