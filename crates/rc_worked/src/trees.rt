//! Runs of `specs/Trees.antt`.

ghost use Rattle.rc_worked.specs.Trees.{TwoTablesReports, SplitTwiceReports};

/// two tables
pub fn two_tables()
    ensures { TwoTablesReports }
{}

/// split twice
pub fn split_twice()
    ensures { SplitTwiceReports }
{}
