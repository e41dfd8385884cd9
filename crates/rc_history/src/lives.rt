//! The laws of lives, as contracts of a function that does nothing.

ghost use Rattle.rc_history.specs.LifeClaims.{LivesAreAHistory, JournalsMakeNodes, StepsComeLast, WhatHasLeftStays};

/// Whatever happens to processes that keep a node each: works, in any order in which each message leaves before it is
/// brought; journals of which more becomes safe; messages that leave once all is safe on which the step rests that has
/// sent them; and ends of processes at any moment, of whose journals any beginning is left that has at least what is
/// safe. All that has ever left was sent by steps that nodes take apart, which are a history; and each node is where
/// these led. A later history goes on from an earlier one: what had left by some moment was sent in its first steps,
/// and these have sent nothing that had not been done by then. A step that is taken at some moment can stand behind all
/// that had left by then. And a node is also the one that its own journal makes, a host but for its master.
pub fn lives_are_a_history()
    ensures history { LivesAreAHistory }
    ensures stays { WhatHasLeftStays }
    ensures last { StepsComeLast }
    ensures journals { JournalsMakeNodes }
{}
