//! What goes from owner to owner, durably.

ghost use Rattle.rc_owner_laws.specs.DurableClaims.{DurableIsMade};
ghost use Rattle.rc_owner_laws.specs.DurableHandovers.{AcknowledgedIsHandedOn, DurableIsHandedOn};

/// After every list of events: the master has sent the entry that stands at a durable place. And for
/// each write that a master has acknowledged, then or since, and each durable place: each later owner
/// of that point, where its segments have replicas at all, has made at a durable place an entry of its
/// own term and of that point, with that version and with the value that the acknowledging master has
/// sent for the acknowledged place, or, where segments are freed, with a greater version.
pub fn handovers_are_durable()
    ensures made { DurableIsMade }
    ensures acknowledged { AcknowledgedIsHandedOn }
    ensures durable { DurableIsHandedOn }
{}
