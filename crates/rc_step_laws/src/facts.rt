//! The facts, and what follows from them in any world.

ghost use Rattle.rc_step_laws.specs.SafetyClaims.{FactsAlwaysHold, FactsKeepWhatWasAcknowledged, FactsInventNothing};

/// Where the facts hold, each accepted recovery has every acknowledged write of its master at its
/// place, or a greater version of its key under its term; and each recovered entry is the one that
/// the master sent for that place.
pub fn facts_suffice()
    ensures there { FactsKeepWhatWasAcknowledged }
    ensures one_entry { FactsInventNothing }
{}

/// The facts hold after every list of events, of every setup.
pub fn facts_hold()
    ensures { FactsAlwaysHold }
{}
