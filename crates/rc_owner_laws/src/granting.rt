//! What comes of a part that has been replayed.

ghost use Rattle.rc_owner_laws.specs.GrantClaims.{DurablePartsAreGranted};

use crate::recoveries::a_decided_recovery_can_be_granted;

/// After every list of events, of every setup: a server that runs, was not deposed and is up by its own list, and has a
/// part of a plan whose own entries are all durable, tells the coordinator so at each Tick until it owns the part's
/// term; and while that attempt is the current one and the server is up, the answer is the part's Own.
pub fn durable_parts_are_granted()
    ensures { DurablePartsAreGranted }
{
    a_decided_recovery_can_be_granted();
}
