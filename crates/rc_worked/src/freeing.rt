//! Runs of `specs/Freeing.antt`.

ghost use Rattle.rc_worked.specs.Freeing.{FactorsReports, FreedReports};

/// factors
pub fn factors()
    ensures { FactorsReports }
{}

/// freed
pub fn freed()
    ensures { FreedReports }
{}
