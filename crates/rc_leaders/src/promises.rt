//! What is promised, of coordinators that take over from one another.

ghost use Rattle.rc_leaders.specs.OfLeaders.{HeadlineOfLeaders, ServedByLeaders, TimeOfLeaders};
ghost use Rattle.rc_leaders.specs.OfLeaders.{LinearizableOfLeaders, EachWriteOfLeaders, WhatLeavesThemWasDone};

/// The headline, of leaders: whatever happens to them, all that has ever left them and the other nodes was sent in a
/// history in which there is no breach. So each write of which an acknowledgement has left is in each recovery of its
/// master of which a plan has left, at its place, or a greater version of its key under its term is; where masters free
/// no segments, it is there itself.
pub fn headline_of_leaders()
    ensures { HeadlineOfLeaders }
{}

/// What a client may rely on, of leaders: a version of a key of which an acknowledgement has left is one write, which
/// was sent where segments have replicas; an answer to a read that has left misses only what was acknowledged under a
/// later term; and where an acknowledgement had left by some moment, a write of its key that was asked for only
/// afterwards has a greater version.
pub fn service_of_leaders()
    ensures served { ServedByLeaders }
    ensures time { TimeOfLeaders }
{}

/// Leaders are linearizable, where each host's segments have replicas, by the moments of the one life that they are.
/// Each acknowledgement that has left is the response of one of the writes; and each message that leaves was sent by a
/// step that was done before, and that is not forgotten.
pub fn linearizable_of_leaders()
    ensures leaders { LinearizableOfLeaders }
    ensures writes { EachWriteOfLeaders }
    ensures sent { WhatLeavesThemWasDone }
{}
