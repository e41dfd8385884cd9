//! The rows that a part waits for: of a segment, from a backup, its entries.

ghost use Rattle.std.specs.Prelude.{◌≡◌, nat_lt, not, position, map, Some, None, IfOk, OnOk};
ghost use Rattle.std.specs.List.{position_or_len};
ghost use Rattle.std.specs.Option.{option_copied};
ghost use Rattle.rc_model.specs.Ownership.{PartRow, awaited_row, is_awaited, insert_row, rows_in_order};
ghost use Rattle.rc_ownership.specs.Rows.{AreInOrder};

use crate::pieces::Pieces;
use rc_types::ServerId;
use std::alloc::{AllocError, Global};
use std::collections::VecDeque;
use std::marker::Model;

/// A row that a part waits for, or whose entries have come.
#[derive(Drop)]
pub(crate) struct FetchedRow {
    seg: u16,
    holder: ServerId,
    came: Option<Pieces>,
}

impl Model for FetchedRow {
    ghost use Rattle.rc_model.specs.Ownership.{PartRow};

    ghost Value = { PartRow };

    ghost view = { λ s. record { seg = s.seg; holder = s.holder; came = s.came } };
}

impl FetchedRow {
    /// A row that hasn't come.
    fn new(seg: u16, holder: ServerId) -> FetchedRow
        ensures { result ≡ awaited_row (seg, holder) }
    {
        FetchedRow {
            seg,
            holder,
            came: None,
        }
    }

    /// Whether its segment comes before another.
    fn is_before(&self, seg: u16) -> bool
        ensures { result ≡ nat_lt self.now.seg seg }
    {
        self.seg < seg
    }

    /// Whether it is this segment's, awaited from this backup.
    fn is_awaited(&self, seg: u16, from: ServerId) -> bool
        ensures { result ≡ is_awaited seg from self.now }
    {
        self.seg == seg && self.holder == from && self.came.is_none()
    }

    /// Its entries have come.
    pub(crate) fn fill(&mut self, came: Pieces)
        ensures { self.new ≡ record self.old { came = Some came } }
    {
        self.came = Some(came);
    }

    /// What came of it.
    pub(crate) fn came(&self) -> Option<&Pieces>
        ensures { option_copied result ≡ self.now.came }
    {
        self.came.as_ref()
    }

    /// It has not come; the answer is what came of it, if it had.
    pub(crate) fn empty(&mut self) -> Option<Pieces>
        ensures row { self.new ≡ record self.old { came = None } }
        ensures came { result ≡ self.old.came }
    {
        self.came.take()
    }
}

/// How many rows, which are in order of segment, come before this segment: by a binary search.
fn count_before(rows: &VecDeque<FetchedRow>, seg: u16) -> usize
    requires { AreInOrder rows.now.items }
    ensures { result ≡ position_or_len (λ row. not (nat_lt row.seg seg)) rows.now.items }
{
    rows.partition_point(|row| row.is_before(seg))
}

/// Puts a row before the first whose segment doesn't come before its own.
fn insert_row(rows: &mut VecDeque<FetchedRow>, seg: u16, holder: ServerId) -> Result<(), AllocError>
    requires { AreInOrder rows.old.items }
    ensures { OnOk result (rows.new.items ≡ insert_row (awaited_row (seg, holder)) rows.old.items) }
{
    let place = count_before(rows, seg);
    rows.insert(place, FetchedRow::new(seg, holder))?;
    Ok(())
}

/// The rows of a part, in order of segment; none has come.
pub(crate) fn rows_in_order(
    alloc: Global,
    rows: &[(u16, ServerId)],
) -> Result<VecDeque<FetchedRow>, AllocError>
    ensures { IfOk result (λ ordered. ordered.items ≡ rows_in_order (map awaited_row rows.now)) }
{
    let mut ordered = VecDeque::with_capacity(alloc, rows.len())?;
    let mut rest = rows;
    while let Some(((seg, holder), front)) = rest.split_last() {
        insert_row(&mut ordered, *seg, *holder)?;
        rest = front;
    }
    Ok(ordered)
}

/// The place of the first row of this segment that is awaited from this backup, of rows in order of
/// segment. Past the binary search it looks at the rows of this segment alone.
pub(crate) fn awaited_place(rows: &VecDeque<FetchedRow>, seg: u16, from: ServerId) -> Option<usize>
    requires { AreInOrder rows.now.items }
    ensures { result ≡ position (is_awaited seg from) rows.now.items }
{
    let mut place = count_before(rows, seg);
    while let Some(row) = rows.get(place) {
        if row.seg != seg {
            return None;
        }
        if row.is_awaited(seg, from) {
            return Some(place);
        }
        place += 1;
    }
    None
}
