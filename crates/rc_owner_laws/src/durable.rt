//! What becomes durable.

ghost use Rattle.rc_owner_laws.specs.DurableClaims.{StoredIsDurable, CountedIsDurable, AcknowledgedIsDurable};

/// After every list of events, where segments have replicas at all: a place that all members have
/// told, with each earlier segment shut, is durable for good, since each place of those segments was
/// stored on all members too, at the moment when its segment was shut. So each place that a master
/// counts is durable, and each acknowledgement names a durable place.
pub fn acknowledged_is_durable()
    ensures stored { StoredIsDurable }
    ensures counted { CountedIsDurable }
    ensures acknowledged { AcknowledgedIsDurable }
{}
