//! What a server that has answered a Gather no longer does for the master.

ghost use Rattle.rc_step_laws.specs.LogClaims.{FencesHold, WhoAnsweredIsFenced, AnsweredReplicasStay};

/// Once a server has answered the coordinator's Gather of a master, it tells that master of nothing
/// that it had not told before; it is fenced for that master for as long as it runs; and what it keeps
/// of that master stays as it is until its host starts anew.
pub fn fences_hold()
    ensures silent { FencesHold }
    ensures fenced { WhoAnsweredIsFenced }
    ensures stay { AnsweredReplicasStay }
{}
