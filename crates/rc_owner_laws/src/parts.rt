//! What is claimed of a master's parts.

ghost use Rattle.rc_owner_laws.specs.PartClaims.{TakesKeepParts, TicksKeepParts, NewHasGoodParts};
ghost use Rattle.rc_owner_laws.specs.Complete.{PartsCompleteWithTheirOwn};

/// Each step of a master keeps what holds of its parts: what it owns was granted to it, and what it
/// recovers was given to it by a plan. A part that waits for a row has nothing in the log or in the
/// replay; from then on until its term is owned, what the log and the replay have under its term is
/// what was sent for its rows, in order, under that term; and once it is owned, these are the first
/// entries of that term in the log, all of them durable, and none waits. A client's entry comes after
/// them and after its grant, with a version above all earlier ones of its key. The end of a part is
/// told only when all of it is durable, and rows are asked for as the plan says.
pub fn masters_keep_their_parts()
    ensures takes { TakesKeepParts }
    ensures ticks { TicksKeepParts }
    ensures start { NewHasGoodParts }
{}

/// After any list of events, a part of a master whose rows have all come is complete exactly where all of its own
/// entries are durable: those that were sent for its rows, in their order, under its term. They are the first under
/// its term that are durable, and until the term is owned nothing else under it is. The rule counts those durable
/// entries under the term that were taken out of the replay: they are the part's own, before and after.
pub fn parts_complete_with_their_own()
    ensures { PartsCompleteWithTheirOwn }
{}
