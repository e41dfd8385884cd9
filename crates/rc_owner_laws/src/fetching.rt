//! What comes of a plan.

ghost use Rattle.rc_owner_laws.specs.FetchClaims.{FetchesAreAnswered};

/// After every list of events, of every setup: while a server runs that holds a row of a plan that was sent, whoever it
/// is, its host still has all that the row names, and a Fetch of it that reaches that server is answered: with what of
/// those entries is the part's that is asked for.
pub fn fetches_are_answered()
    ensures { FetchesAreAnswered }
{}
