//! Runs of `specs/Doubts.antt`.

ghost use Rattle.rc_worked.specs.Doubts.{CloseToALostMemberReports, CommitAnswersItsOwnPairReports};
ghost use Rattle.rc_worked.specs.Doubts.{StepsOneByOneReports};

/// close to a lost member
pub fn close_to_a_lost_member()
    ensures { CloseToALostMemberReports }
{}

/// commit answers its own pair
pub fn commit_answers_its_own_pair()
    ensures { CommitAnswersItsOwnPairReports }
{}

/// steps one by one
pub fn steps_one_by_one()
    ensures { StepsOneByOneReports }
{}
