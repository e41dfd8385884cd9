//! Runs in which a choice of the rules shows.
#![tactic(auto, unfolding(crate::proofs::Spelling::computed))]

ghost use Rattle.rc_runs.specs.Doubts.{CloseToALostMemberPrints, CommitAnswersItsOwnPairPrints};
ghost use Rattle.rc_runs.specs.Doubts.{StepsOneByOnePrints, IndexOfNoHostPrints};

/// Close goes to a lost member too.
pub fn close_to_a_lost_member()
    ensures { CloseToALostMemberPrints }
{}

/// A commit is answered with its own pair.
pub fn commit_answers_its_own_pair()
    ensures { CommitAnswersItsOwnPairPrints }
{}

/// The rules that follow are made one by one, from the first on.
pub fn steps_one_by_one()
    ensures { StepsOneByOnePrints }
{}

/// An id of host 64 is wrong.
pub fn index_of_no_host()
    ensures { IndexOfNoHostPrints }
{}
