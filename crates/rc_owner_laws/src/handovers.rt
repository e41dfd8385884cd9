//! What goes from owner to owner.

ghost use Rattle.rc_owner_laws.specs.VersionClaims.{HandoversKeepWhatWasAcknowledged, HandoversKeepWhatIsDurable};
ghost use Rattle.rc_owner_laws.specs.VersionClaims.{PreviousIsEarlier};

/// After any list of events, over each handover and over each chain of them: what was acknowledged
/// under an earlier term of a point, and what is durable under one, each later owner of that point has
/// at a safe place of its log under its own term, one that it counts as durable; or, where masters
/// free segments, a greater version of the key.
pub fn handovers_keep_what_was_acknowledged()
    ensures acknowledged { HandoversKeepWhatWasAcknowledged }
    ensures durable { HandoversKeepWhatIsDurable }
    ensures previous { PreviousIsEarlier }
{}
