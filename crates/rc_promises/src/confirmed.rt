//! Confirmed reads, and how reads follow time.

ghost use Rattle.rc_promises.specs.Confirmed.{ConfirmedReadsMissNothing, ReadsFollowTime, WritesFollowReads};
ghost use Rattle.rc_promises.specs.Confirmed.{ReadsShowOneValue, WhatReadsShowWasAsked};

/// A read is confirmed where its master has acknowledged a write, of any key, for whose place it had sent nothing when
/// it answered the read. Where segments have replicas, a confirmed read misses nothing: when it was answered, no later
/// term of its key than its own had been granted, so it has at least the version of each write of the key that anyone
/// had acknowledged by then. It is so also where masters free segments.
pub fn confirmed_reads_miss_nothing()
    ensures { ConfirmedReadsMissNothing }
{}

/// Where segments have replicas: a confirmed read shows no smaller version than any read of its key that was answered
/// before it, also by another owner, be that one confirmed or not. And a write that was begun only after a read of its
/// key was answered, so that nothing had been sent for its place, has a greater version than that read showed.
pub fn reads_follow_time()
    ensures reads { ReadsFollowTime }
    ensures writes { WritesFollowReads }
{}

/// Where segments have replicas: of one version of a key all reads show one value, and a client had asked a master for
/// it before the answer; at version 0 they show nothing. So it is of every read, be it confirmed or not, and be the
/// write ever acknowledged or not.
pub fn reads_show_what_was_asked()
    ensures one_value { ReadsShowOneValue }
    ensures asked { WhatReadsShowWasAsked }
{}
