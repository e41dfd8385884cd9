//! What a new owner starts from.

ghost use Rattle.rc_owner_laws.specs.VersionClaims.{GrantsStartFromTheirBase};

/// After any list of events, each range that was granted in a recovery starts from its base: the
/// entries of the accepted recovery's log that are of the previous term and in the range, carried over
/// to the new term, are the first that the new owner's log has under it; all of them are durable.
pub fn grants_start_from_their_base()
    ensures { GrantsStartFromTheirBase }
{}
