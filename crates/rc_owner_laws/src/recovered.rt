//! What backups send to recovery masters.

ghost use Rattle.rc_owner_laws.specs.VersionClaims.{DataIsThePlanCutToThePart};

/// After any list of events, each Data is of a plan that was sent to its addressee, with a part of its
/// term and a row of its segment whose holder is the sender; and its entries are exactly those made
/// below that row's length that have the part's previous term and lie in its range, in order.
pub fn data_is_the_plan_cut_to_the_part()
    ensures { DataIsThePlanCutToThePart }
{}
