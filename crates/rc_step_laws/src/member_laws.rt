//! Who the members of a segment are.

ghost use Rattle.rc_step_laws.specs.MemberClaims.{MembersWerePlaced};

/// Whatever was sent: the members of a segment under an epoch, gathered from the messages, are the
/// servers to which its master has sent a Place of it under this epoch that does not close it.
pub fn members_are_who_was_placed()
    ensures { MembersWerePlaced }
{}
