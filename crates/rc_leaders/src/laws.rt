//! The law of leaders, as the contract of a function that does nothing.

ghost use Rattle.rc_leaders.specs.Claims.{LeadersAreOneLife, LivesGoOn};

/// Leaders one after another, each fenced by the next, are one life of one process. Whatever happens to them and to all
/// other nodes: works, also those of leaders that were fenced; transactions, each of which happens only where its term
/// leads; saves in pieces; epochs that are deleted; messages that leave behind a transaction, however late. Each of it
/// is a happening of processes by the rules of `rc_history`, or none, and these may happen one after another. The same
/// messages have left, each other node is the same, the coordinator is that of the process that leads, and what is
/// safe of its journal is what the store has. What happens later comes later in that life.
pub fn leaders_are_one_life()
    ensures life { LeadersAreOneLife }
    ensures later { LivesGoOn }
{}
