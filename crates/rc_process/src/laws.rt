//! The law of processes, as the contract of a function that does nothing.

ghost use Rattle.rc_process.specs.Running.{CallsAreLives};

/// Whatever calls are made of processes, one for each host and the coordinator, whose server keeps its duties: their
/// lives, as `rc_history` has them, have the same nodes, and let the same messages leave. So what holds of all lives
/// holds of the messages that such a server has let leave, from the bytes of its files on.
pub fn calls_are_lives()
    ensures { CallsAreLives }
{}
