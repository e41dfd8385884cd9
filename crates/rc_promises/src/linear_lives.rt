//! Linearizable, of processes.

ghost use Rattle.rc_promises.specs.Linearized.{SaysTheSame};
ghost use Rattle.rc_promises.specs.LinearProcesses.{LinearizableOfProcesses, EachWriteOfProcesses, WhatLeavesWasDone};
ghost use Rattle.rc_promises.specs.LinearProcesses.{ConditionalWritesOfProcesses};

/// Processes that end at any moment are linearizable, by the rules of `rc_history`, whatever happens to them, where
/// each host's segments have replicas. An operation is a write whose acknowledgement has left its process, or a
/// confirmed read whose answer has, and a moment is that of a happening. Where an answer had left before another
/// operation was asked for, or before its request left or was brought to its master, the two stand in that order,
/// though processes ended in between, forgot what was not safe, and were brought it again. It is said in the same
/// words as of the messages of a world, also of conditional writes. Each acknowledgement that has left is the
/// response of one of these writes; and each message that leaves was sent by a step that was done before, and that is
/// not forgotten.
pub fn linearizable_of_processes()
    ensures processes { LinearizableOfProcesses }
    ensures same { SaysTheSame }
    ensures conditional { ConditionalWritesOfProcesses }
    ensures writes { EachWriteOfProcesses }
    ensures sent { WhatLeavesWasDone }
{}
