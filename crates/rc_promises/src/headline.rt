//! The headline.

ghost use Rattle.rc_history.specs.LifeClaims.{LivesAreAHistory};
ghost use Rattle.rc_promises.specs.HeadlineClaims.{NoBreach, Strong, NoBreachApart, StrongApart};
ghost use Rattle.rc_promises.specs.OfProcesses.{NoBreachOfProcesses, NothingIsMissingOfProcesses, StrongOfProcesses};

/// For every setup and every list of events: each write that a master has acknowledged, before or
/// after a recovery of it was accepted, is in that recovery's log, or a greater version of its key
/// under its term is; each entry there is the one that this master sent for that place; and versions
/// rise over the owners of a key. Where masters free no segments, each acknowledged write itself is
/// there, at its own place.
pub fn headline()
    ensures no_breach { NoBreach }
    ensures strong { Strong }
{}

/// The same of nodes that run apart: whatever steps they took, in whatever order in which each message is sent before
/// it is delivered, in the messages that they sent there is no breach; and where masters free no segments, each
/// acknowledged write itself is in each recovery of its master, at its own place.
pub fn headline_of_nodes_apart()
    ensures no_breach { NoBreachApart }
    ensures strong { StrongApart }
{}

/// The same of processes that end at any moment, by the rules of `rc_history`: whatever happens to them, all that has
/// ever left them was sent in a history, and in what this sent there is no breach. So each write of which an
/// acknowledgement has left is in each recovery of its master of which a plan has left, at its place, or a greater
/// version of its key under its term is; where masters free no segments, it is there itself.
pub fn headline_of_processes()
    ensures history { LivesAreAHistory }
    ensures no_breach { NoBreachOfProcesses }
    ensures there { NothingIsMissingOfProcesses }
    ensures strong { StrongOfProcesses }
{}
