//! The choice of the log: what its definitions say in other words.

ghost use Rattle.rc_model.specs.Pick.{longer_first, head_first, closed_first};
ghost use Rattle.rc_model.specs.PickClaims.{ClosedRowsAreValid, OnePlanIsPickable};
ghost use Rattle.rc_model.specs.PickOrders.{IsLonger, IsHigher, IsBetter};
ghost use Rattle.rc_model.specs.PickClaims.{PickableIsPicked, RowsAreOfSegments};
ghost use Rattle.rc_model.specs.PickClaims.{AscendingIncreases, AscendingListsTheSame, HeadIsMissing};
ghost use Rattle.rc_model.specs.PickClaims.{SegmentIsMissing, Tells, FirstByIsFirst, FirstByOfNone, HeadRowIsFirst};
ghost use Rattle.rc_model.specs.PickClaims.{RowOfIsFirst};

/// A closed row counts under every least pair. A plan is pickable exactly where it is the one that is picked, so at
/// most one is.
pub fn one_plan_is_picked()
    ensures closed { ClosedRowsAreValid }
    ensures picked { PickableIsPicked }
    ensures one { OnePlanIsPickable }
{}

/// The rows of a plan are in order of segment, one for each different segment of the digest of the
/// head row.
pub fn a_plan_has_a_row_for_each_segment()
    ensures rows { RowsAreOfSegments }
    ensures increasing { AscendingIncreases }
    ensures same { AscendingListsTheSame }
{}

/// No plan is picked for want of a head exactly where no row is open and valid, and for want of a
/// segment exactly where it is the least of the head row's digest that has no valid row.
pub fn a_refusal_says_what_is_missing()
    ensures head { HeadIsMissing }
    ensures segment { SegmentIsMissing }
{}

/// The three orders say, in words of numbers: the greater epoch, then the greater length, then the
/// least holder; before these the greater segment for a head; closed before open for other segments.
pub fn the_orders_are_by_numbers()
    ensures longer { Tells longer_first IsLonger }
    ensures higher { Tells head_first IsHigher }
    ensures better { Tells closed_first IsBetter }
{}

/// What is taken is one of the rows, none of them comes before it, and it comes before each that
/// stands earlier: of rows that are alike the one that stands first in the replies is taken.
pub fn the_first_row_is_taken()
    ensures longer { FirstByIsFirst longer_first IsLonger }
    ensures higher { FirstByIsFirst head_first IsHigher }
    ensures better { FirstByIsFirst closed_first IsBetter }
    ensures longer_of_none { FirstByOfNone longer_first }
    ensures higher_of_none { FirstByOfNone head_first }
    ensures better_of_none { FirstByOfNone closed_first }
    ensures head { HeadRowIsFirst }
    ensures other { RowOfIsFirst }
{}
