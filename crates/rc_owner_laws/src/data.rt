//! What backups send to recovery masters.

ghost use Rattle.rc_owner_laws.specs.DataClaims.{DataAreAlwaysCuts};

/// After every list of events, of every setup: each Data answers a Fetch of its addressee, and its
/// entries are those of the crashed master's log below the length that was asked for that have the
/// part's previous term and lie in its range, in order.
pub fn data_are_cuts()
    ensures { DataAreAlwaysCuts }
{}
