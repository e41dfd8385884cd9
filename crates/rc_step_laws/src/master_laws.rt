//! What is claimed of each step of a master.

ghost use Rattle.rc_step_laws.specs.MasterClaims.{MasterTakesKeeps, MasterTicksKeeps, NewMasterIsGood};

/// Whatever was sent before: where a master's view is good, and its own Places and what it was told
/// fit its log, a message that it may hear and its timer each lead to a good view again, whose log
/// is a later one; and each message that it sends by that is one that a master may send. A master
/// at its start has a good view.
pub fn master_steps_are_moves()
    ensures takes { MasterTakesKeeps }
    ensures ticks { MasterTicksKeeps }
    ensures start { NewMasterIsGood }
{}
