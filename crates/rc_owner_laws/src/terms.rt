//! The terms that the coordinator issues.

ghost use Rattle.rc_owner_laws.specs.TermClaims.{TermsAlwaysHold, TermsAreIssuedOnce};

/// After any list of events, each term was issued once: at the creation of one table, or as one part
/// of one attempt, to one recovery master, for one range, after one previous term. A grant of a
/// recovery is of such a part; its owner has told the end of that part before, and the master of the
/// attempt was granted each of its points under the previous term.
pub fn terms_are_issued_once()
    ensures once { TermsAreIssuedOnce }
    ensures hold { TermsAlwaysHold }
{}
