//! Runs of `specs/FirstPath.antt`.

ghost use Rattle.rc_worked.specs.FirstPath.{NothingReports, FirstWriteReports, LostStoredReports, RefusalsReports};
ghost use Rattle.rc_worked.specs.FirstPath.{TwiceAndInReverseReports, DeliverUnsentReports};

/// nothing
pub fn nothing()
    ensures { NothingReports }
{}

/// first write
pub fn first_write()
    ensures { FirstWriteReports }
{}

/// lost stored
pub fn lost_stored()
    ensures { LostStoredReports }
{}

/// refusals
pub fn refusals()
    ensures { RefusalsReports }
{}

/// twice and in reverse
pub fn twice_and_in_reverse()
    ensures { TwiceAndInReverseReports }
{}

/// deliver unsent
pub fn deliver_unsent()
    ensures { DeliverUnsentReports }
{}
