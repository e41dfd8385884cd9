//! Runs of processes: what is said of them is about something.

ghost use Rattle.rc_promises.specs.WorkedLives.{ItMayHappen, ItTells, ItForgets, ItShowsWhatWasAcknowledged};
ghost use Rattle.rc_promises.specs.WorkedLives.{HoldingMayHappen, ItIsHeldBack};

/// Server 0.1 has acknowledged a write of a, and taken one of b, when its process and that of its backup end. What the
/// backup had taken of b was not safe, so it is forgotten. Both come back, the table goes to server 0.2, and a read
/// there, which a later write confirms, shows a: the two operations are some of those that are linearized, one before
/// the other.
#[tactic(auto, unfolding(crate::proofs::Spelling::digits))]
pub fn what_is_forgotten_is_not_shown()
    ensures may { ItMayHappen }
    ensures told { ItTells }
    ensures forgotten { ItForgets }
    ensures shown { ItShowsWhatWasAcknowledged }
{}

/// The answer to a read is held back, and leaves after a write with a greater version was acknowledged, which confirms
/// the read. So a read has to be asked for before the step that answers it, and not just before its answer leaves.
pub fn what_is_held_back_is_old()
    ensures may { HoldingMayHappen }
    ensures held { ItIsHeldBack }
{}
