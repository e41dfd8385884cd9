//! What holds of a replica whatever it is told, as contracts of functions that do nothing.

ghost use Rattle.rc_replica.specs.Laws.{PlacedOnlyGrows, AppendedOnlyGrows, ClosedAtKeepsEntries, PlacedLeavesClosed};
ghost use Rattle.rc_replica.specs.Laws.{AppendedLeavesClosed, ClosedAtLeavesClosed, PlacedClosesAtLength};
ghost use Rattle.rc_replica.specs.Laws.{AppendedClosesNothing, ClosedAtClosesAtLength};

/// Entries only grow: whatever a replica is told, its entries begin with those that it had.
pub fn entries_only_grow()
    ensures placed { PlacedOnlyGrows }
    ensures appended { AppendedOnlyGrows }
    ensures closed { ClosedAtKeepsEntries }
{}

/// A closed replica stays closed, and its entries never change.
pub fn closed_is_for_good()
    ensures placed { PlacedLeavesClosed }
    ensures appended { AppendedLeavesClosed }
    ensures closed { ClosedAtLeavesClosed }
{}

/// A replica closes only where it has exactly the stated number of entries.
pub fn closes_at_the_stated_length()
    ensures placed { PlacedClosesAtLength }
    ensures appended { AppendedClosesNothing }
    ensures closed { ClosedAtClosesAtLength }
{}
