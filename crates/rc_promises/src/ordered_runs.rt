//! The test of a run's order, and what is said of reads.

ghost use Rattle.rc_promises.specs.OrderedRuns.{BrokenOrderRefutes, NoRunBreaksTheOrder};

/// A run of `rc_worked` whose reads do not stand in the order of time refutes what is said of reads: one of the four
/// sentences is false then. The proof knows lists of messages, and that a run is what its events lead to; it opens no
/// rule of the protocol.
pub fn what_breaks_the_order_refutes()
    ensures { BrokenOrderRefutes }
{}

/// In every run, whatever is done in it, reads stand in the order of time.
pub fn no_run_breaks_the_order()
    ensures { NoRunBreaksTheOrder }
{}
