//! What becomes of a durable place.

ghost use Rattle.rc_step_laws.specs.WordClaims.{StoredIsSafe, SafeStaysSafe, DurableIsRecovered, AcknowledgedIsSafe};
ghost use Rattle.rc_step_laws.specs.WordClaims.{AcknowledgedIsRecorded};

/// A place that all members of its segment have told, under a committed epoch, with each earlier
/// segment shut, is safe, and stays safe whatever happens. After any list of events, each accepted
/// recovery of the master has each place that was ever durable, or a greater version of its key
/// under its term.
pub fn durable_is_recovered()
    ensures safe { StoredIsSafe }
    ensures stays { SafeStaysSafe }
    ensures recovered { DurableIsRecovered }
{}

/// Each acknowledgement names a safe place of its sender's log, and what stands there is what was
/// acknowledged: its term, table, key and version.
pub fn acknowledged_means_durable()
    ensures safe { AcknowledgedIsSafe }
    ensures holds { AcknowledgedIsRecorded }
{}
