//! What is sent in one event, and in which view of its sender.

ghost use Rattle.rc_model.specs.HeadClaims.{WritesWhereItMay};
ghost use Rattle.rc_model.specs.SendClaims.{ClosesAreDue};
ghost use Rattle.rc_step_laws.specs.SendClaims.{OfEachSent, OfEachEvent, KeepsUnlessWritten, DeposedRefuseClients};
ghost use Rattle.rc_step_laws.specs.SendClaims.{DeposedAcknowledgeNothing, DeposedStay, TheFencedAreTold};
ghost use Rattle.rc_step_laws.specs.SendClaims.{GrantsGoToTheUpAlone};

/// A Close has the final length of a segment below the head, under a committed epoch of it; and it goes out only where
/// the phase is Closing, or becomes so in that event, for which the new head has to be placed on all its members.
pub fn closes_are_final()
    ensures { OfEachSent ClosesAreDue }
{}

/// In each event a head is written in where it was before; or where the one before it is shut, and it is placed on all
/// its members under a committed epoch. Only such a head takes entries; every other segment has those that it had.
pub fn entries_are_appended_in_writing()
    ensures begins { OfEachEvent WritesWhereItMay }
    ensures appends { OfEachEvent KeepsUnlessWritten }
{}

/// The server of a deposed master sends what its backup says, and where a Write or a Read was sent to it the refusal
/// F5; nothing else, so no WriteOk. The master stays as it is for good.
pub fn deposed_masters_only_refuse()
    ensures refuse { DeposedRefuseClients }
    ensures acknowledge { DeposedAcknowledgeNothing }
    ensures stay { DeposedStay }
{}

/// Replicas and Data are sent only by a server that was asked for a master's replicas, and has fenced that master.
pub fn answers_are_of_the_fenced()
    ensures { TheFencedAreTold }
{}

/// CommitOk and Own, that of a Create too, are sent only by the coordinator, and only to an id that is up then.
pub fn grants_go_to_who_is_up()
    ensures { GrantsGoToTheUpAlone }
{}
