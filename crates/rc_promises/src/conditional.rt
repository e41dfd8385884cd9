//! Conditional writes.

ghost use Rattle.rc_promises.specs.Conditional.{ConditionalWritesAreLinearizable, ConditionalWritesApart};
ghost use Rattle.rc_promises.specs.Conditional.{NextVersionSuffices};

/// Conditional writes are linearizable. Where a write was acknowledged, and no operation on its key has a version
/// between the one that its client expected and its own, it takes effect on just the expected one: all that stands
/// before it in the linearization has at most that version, all that has at most that version stands before it, and no
/// other write is done behind that version. So it is after every list of events, of every setup whose segments have
/// replicas, and of nodes that run apart. A write that is acknowledged under the next version is such a one.
pub fn conditional_writes_are_linearizable()
    ensures worlds { ConditionalWritesAreLinearizable }
    ensures apart { ConditionalWritesApart }
    ensures check { NextVersionSuffices }
{}
