//! Keys of tables, and their order.

ghost use Rattle.std.specs.Prelude.{MatchBool};
ghost use Rattle.rc_rangetree.specs.Points.{IsBefore, IsAtOrAfter};

/// A key of a table. Points are ordered by table, and those of one table by key.
#[derive(Clone, Copy)]
pub struct Point {
    /// The table.
    pub table: u32,
    /// The key.
    pub key: u64,
}

impl Point {
    /// Whether this point comes before the other.
    pub fn is_before(self, other: Point) -> bool
        ensures { MatchBool result
            (IsBefore self.table self.key other)
            (IsAtOrAfter self.table self.key other) }
    {
        self.table < other.table || (self.table == other.table && self.key < other.key)
    }
}
