//! When a write is acknowledged, and that it was asked for.

ghost use Rattle.rc_owner_laws.specs.MomentClaims.{CountedWhenStored};
ghost use Rattle.rc_owner_laws.specs.AckClaims.{CountedIsAcknowledged, StoredIsAcknowledged, AcknowledgedOnce};
ghost use Rattle.rc_owner_laws.specs.AckClaims.{AcknowledgedWasAsked};

/// A master has acknowledged exactly the clients' writes at the places that it counts as durable, in the
/// order of places, each once. Where segments have replicas at all, and unless the master is deposed, a
/// place is counted in the very event in which it becomes stored on all members of its segment with each
/// earlier segment shut.
pub fn writes_are_acknowledged_once()
    ensures counted { CountedIsAcknowledged }
    ensures stored { StoredIsAcknowledged }
    ensures once { AcknowledgedOnce }
    ensures moment { CountedWhenStored }
{}

/// What was acknowledged was asked: a Write of that table and key was sent to that master, and the entry
/// at the acknowledged place has that Write's value.
pub fn acknowledged_was_asked()
    ensures { AcknowledgedWasAsked }
{}
