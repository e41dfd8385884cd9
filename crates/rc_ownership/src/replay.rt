//! The entries that wait to be appended: those of the parts whose rows have all come.

ghost use Rattle.std.specs.Prelude.{◌≡◌, ◌++◌, [], true, length, map, drop, nat_lt, slice_get, OnOk, OnErr, IfOk};
ghost use Rattle.std.specs.Prelude.{unwrap_or};
ghost use Rattle.std.specs.List.{list_any};
ghost use Rattle.rc_model.specs.Ownership.{under_term, entries_that_came, joined, joining};
ghost use Rattle.rc_model.specs.Ownership.{is_awaited, part_with_row};
ghost use Rattle.rc_ownership.specs.Parts.{part_before};
ghost use Rattle.rc_ownership.specs.Replay.{Waiting, all_waiting, NoneIsEmpty};

use crate::part::{Before, FetchedPart};
use crate::rows::FetchedRow;
use rc_types::{Entry, ServerId, Shared, TryClone};
use std::alloc::{AllocError, Global};
use std::collections::VecDeque;
use std::marker::Model;

/// A piece of the entries of a row, and the term that they get.
#[derive(Drop)]
pub(crate) struct JoinedRow {
    term: u32,
    entries: Shared<Entry>,
}

impl Model for JoinedRow {
    ghost use Rattle.std.specs.Prelude.{List, map};
    ghost use Rattle.rc_types.specs.declared.entries.Entry.{Entry};
    ghost use Rattle.rc_model.specs.Ownership.{under_term};

    ghost Value = { List Entry };

    ghost view = { λ s. map (under_term s.term) s.entries };
}

impl JoinedRow {
    /// How many entries it has.
    pub(crate) fn len(&self) -> usize
        ensures { result ≡ length self.now }
    {
        self.entries.len()
    }

    /// A copy of the entry at a place, under its term. Only memory can be refused (F1).
    fn copy_at(&self, alloc: Global, place: usize) -> Result<Option<Entry>, AllocError>
        ensures { IfOk result (λ entry. entry ≡ slice_get self.now place) }
    {
        let Some(entry) = self.entries.get(place) else {
            return Ok(None);
        };
        let mut copy = entry.try_clone(alloc)?;
        copy.term = self.term;
        Ok(Some(copy))
    }
}

/// The pieces of the rows of parts that joined: how many there were when `begin` was called, the place in the
/// first of them from which on they waited then, and the piece and its place from which on they wait now.
#[derive(Drop)]
pub(crate) struct Replay {
    pub(crate) rows: VecDeque<JoinedRow>,
    kept: usize,
    first: usize,
    pub(crate) row: usize,
    pub(crate) place: usize,
}

impl Model for Replay {
    ghost use Rattle.std.specs.Prelude.{take, drop};
    ghost use Rattle.rc_ownership.specs.Replay.{Waiting, waiting_from, IsReplay};

    ghost Value = { Waiting };

    ghost view = { λ s. record {
      entries = waiting_from s.place (drop s.row s.rows.items);
      before = waiting_from s.first (take s.kept s.rows.items);
    } };

    ghost invariant = { λ s. IsReplay s.rows.items s.kept s.first s.row s.place };
}

impl Replay {
    /// Nothing waits. It takes no memory until a part joins.
    pub(crate) fn new(alloc: Global) -> Replay
        ensures { result ≡ record { entries = []; before = [] } }
    {
        Replay {
            rows: VecDeque::new(alloc),
            kept: 0,
            first: 0,
            row: 0,
            place: 0,
        }
    }

    /// From here on `restore` goes back to now. The pieces that were replayed are let go.
    pub(crate) fn begin(&mut self)
        ensures { self.new ≡ record self.old { before = self.old.entries } }
    {
        self.kept = 0;
        self.first = 0;
        while self.row > 0 {
            self.rows.pop_front();
            self.row -= 1;
        }
        self.kept = self.rows.len();
        self.first = self.place;
    }

    /// Goes back to where `begin` was called.
    pub(crate) fn restore(&mut self)
        ensures { self.new ≡ record self.old { entries = self.old.before } }
    {
        self.rows.truncate(self.kept);
        self.row = 0;
        self.place = self.first;
    }

    /// Whether an entry waits.
    pub(crate) fn is_waiting(&self) -> bool
        ensures { result ≡ nat_lt 0 (length self.now.entries) }
    {
        self.row < self.rows.len()
    }

    /// A copy of the first entry that waits: it waits no more. Only memory can be refused (F1).
    pub(crate) fn next(&mut self, alloc: Global) -> Result<Option<Entry>, AllocError>
        ensures first { IfOk result (λ entry. entry ≡ slice_get self.old.entries 0) }
        ensures rest { OnOk result (self.new ≡ record self.old { entries = drop 1 self.old.entries }) }
        ensures err { OnErr result (self.new ≡ self.old) }
    {
        let Some(row) = self.rows.get(self.row) else {
            return Ok(None);
        };
        let count = row.len();
        let entry = row.copy_at(alloc, self.place)?;
        if self.place + 1 < count {
            self.place += 1;
            return Ok(entry);
        }
        self.place = 0;
        self.row += 1;
        Ok(entry)
    }

    /// The entries that came of these rows wait, under a term, after the others.
    pub(crate) fn join(
        &mut self,
        alloc: Global,
        term: u32,
        rows: &VecDeque<FetchedRow>,
    ) -> Result<(), AllocError>
        ensures ok { OnOk result (self.new ≡ record self.old {
          entries = self.old.entries ++
              map (under_term term) (entries_that_came rows.now.items);
        }) }
        ensures err { OnErr result (self.new ≡ self.old) }
    {
        let mut joined = joined_rows(alloc, term, rows)?;
        self.rows.append(&mut joined)?;
        Ok(())
    }
}

/// A part takes the entries of an awaited row. Once all its rows have come, their entries wait, and it
/// waits for no row any more. The answer is what it was before. Only memory can be refused (F1).
pub(crate) fn take_row(
    alloc: Global,
    part: &mut FetchedPart,
    replay: &mut Replay,
    seg: u16,
    from: ServerId,
    entries: &[Entry],
) -> Result<Before, AllocError>
    requires { list_any (is_awaited seg from) part.old.rows ≡ true }
    ensures part { OnOk result (part.new ≡ joined (part_with_row seg from entries.now part.old)) }
    ensures replay { OnOk result (replay.new ≡ record replay.old {
      entries = replay.old.entries ++
          joining (part_with_row seg from entries.now part.old);
    }) }
    ensures before { IfOk result (λ before. part_before before part.new ≡ part.old) }
    ensures same_part { OnErr result (part.new ≡ part.old) }
    ensures same_replay { OnErr result (replay.new ≡ replay.old) }
{
    let place = part.put_row(alloc, seg, from, entries)?;
    if !part.has_all() {
        return Ok(Before::Awaited(place));
    }
    if replay.join(alloc, part.term(), part.rows()).is_err() {
        part.await_again(place);
        return Err(AllocError);
    }
    Ok(Before::Whole(part.join(alloc, place)))
}

/// What came of these rows, shared and under a term; rows without an entry are left out.
fn joined_rows(
    alloc: Global,
    term: u32,
    rows: &VecDeque<FetchedRow>,
) -> Result<VecDeque<JoinedRow>, AllocError>
    ensures entries { IfOk result (λ joined. all_waiting joined.items ≡ map (under_term term)
        (entries_that_came rows.now.items)) }
    ensures none_empty { IfOk result (λ joined. NoneIsEmpty joined.items) }
{
    let mut joined = VecDeque::with_capacity(alloc, rows.len())?;
    for row in rows {
        push_row(&mut joined, term, row)?;
    }
    Ok(joined)
}

/// What came of a row goes last, piece by piece.
fn push_row(joined: &mut VecDeque<JoinedRow>, term: u32, row: &FetchedRow) -> Result<(), AllocError>
    ensures entries { OnOk result (all_waiting joined.new.items ≡ all_waiting joined.old.items ++
        map (under_term term) (unwrap_or row.now.came [])) }
    ensures none_empty { NoneIsEmpty joined.old.items → NoneIsEmpty joined.new.items }
{
    let Some(came) = row.came() else {
        return Ok(());
    };
    let (first, others) = came.parts();
    push_piece(joined, term, first)?;
    push_pieces(joined, term, others)?;
    Ok(())
}

/// A piece goes last, shared and under a term, if it has an entry.
fn push_piece(
    joined: &mut VecDeque<JoinedRow>,
    term: u32,
    piece: &Shared<Entry>,
) -> Result<(), AllocError>
    ensures entries { OnOk result (all_waiting joined.new.items ≡ all_waiting joined.old.items ++
        map (under_term term) piece.now) }
    ensures none_empty { NoneIsEmpty joined.old.items → NoneIsEmpty joined.new.items }
{
    if piece.len() > 0 {
        let entries = piece.share()?;
        joined.push_back(JoinedRow { term, entries })?;
    }
    Ok(())
}

/// These pieces go last.
fn push_pieces(
    joined: &mut VecDeque<JoinedRow>,
    term: u32,
    pieces: &[Shared<Entry>],
) -> Result<(), AllocError>
    ensures entries { OnOk result (all_waiting joined.new.items ≡ all_waiting joined.old.items ++
        map (under_term term) (all_waiting pieces.now)) }
    ensures none_empty { NoneIsEmpty joined.old.items → NoneIsEmpty joined.new.items }
{
    let mut rest = pieces;
    while let Some((piece, later)) = rest.split_first() {
        push_piece(joined, term, piece)?;
        rest = later;
    }
    Ok(())
}
