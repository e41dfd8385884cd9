//! One part of a crashed master's log, from its begin to its end, and how a change of it is undone.

ghost use Rattle.std.specs.Prelude.{◌≡◌, ◌<◌, true, nat_eq, length, [], IfOk, OnOk, OnErr};
ghost use Rattle.std.specs.List.{list_any};
ghost use Rattle.rc_model.specs.Ownership.{new_part, is_awaited, part_with_row, all_came};
ghost use Rattle.rc_model.specs.Ownership.{entries_that_came, is_complete, is_to_answer};
ghost use Rattle.rc_ownership.specs.Notes.{replayed_in};
ghost use Rattle.rc_ownership.specs.Parts.{part_before};
ghost use Rattle.rc_ownership.specs.declared.part.Before.TheVariants.{Awaited};

use crate::notes::Notes;
use crate::pieces::Pieces;
use crate::rows::{self, FetchedRow};
use rc_types::{Entry, Part, ServerId};
use std::alloc::{AllocError, Global};
use std::collections::VecDeque;
use std::marker::Model;
use std::mem;

/// What a part was before it changed.
#[derive(Drop)]
pub(crate) enum Before {
    /// Its row at this place had not come.
    Awaited(usize),
    /// It was this part, whose rows were all kept.
    Whole(FetchedPart),
    /// Its end wasn't told.
    Unanswered,
}

/// A part: its rows in order of segment until all have come, how many of them have not, how many
/// entries those that have come hold, and whether its end was told.
#[derive(Drop)]
pub(crate) struct FetchedPart {
    pub(crate) part: Part,
    rows: VecDeque<FetchedRow>,
    pub(crate) missing: usize,
    pub(crate) count: usize,
    pub(crate) answered: bool,
}

impl Model for FetchedPart {
    ghost use Rattle.rc_model.specs.Ownership.{PartState};
    ghost use Rattle.rc_ownership.specs.Rows.{size_of, AreCounted};

    ghost Value = { PartState };

    ghost view = { λ s. record {
      part = s.part;
      rows = s.rows.items;
      size = size_of s.rows.items s.count;
      answered = s.answered;
    } };

    ghost invariant = { λ s. AreCounted s.rows.items s.missing s.count };
}

impl FetchedPart {
    /// A part that waits for these rows.
    pub(crate) fn new(
        alloc: Global,
        part: Part,
        rows: &[(u16, ServerId)],
    ) -> Result<FetchedPart, AllocError>
        ensures { IfOk result (λ begun. begun ≡ new_part part rows.now) }
    {
        let ordered = rows::rows_in_order(alloc, rows)?;
        Ok(FetchedPart {
            part,
            missing: ordered.len(),
            rows: ordered,
            count: 0,
            answered: false,
        })
    }

    /// Its term.
    pub(crate) fn term(&self) -> u32
        ensures { result ≡ self.now.part.term }
    {
        self.part.term
    }

    /// Whether a row of this segment is awaited from this backup.
    pub(crate) fn awaits(&self, seg: u16, from: ServerId) -> bool
        ensures { result ≡ list_any (is_awaited seg from) self.now.rows }
    {
        rows::awaited_place(&self.rows, seg, from).is_some()
    }

    /// Takes the entries of the first such row, which is awaited: the answer is the row's place. Only
    /// memory can be refused (F1).
    pub(crate) fn put_row(
        &mut self,
        alloc: Global,
        seg: u16,
        from: ServerId,
        entries: &[Entry],
    ) -> Result<usize, AllocError>
        requires { list_any (is_awaited seg from) self.old.rows ≡ true }
        ensures ok { OnOk result (self.new ≡ part_with_row seg from entries.now self.old) }
        ensures before { IfOk result (λ place. part_before (Awaited place) self.new ≡ self.old) }
        ensures err { OnErr result (self.new ≡ self.old) }
    {
        let Some(place) = rows::awaited_place(&self.rows, seg, from) else {
            unreachable!();
        };
        let came = Pieces::from_entries(alloc, entries)?;
        let Some(count) = self.count.checked_add(entries.len()) else {
            return Err(AllocError);
        };
        self.rows[place].fill(came);
        self.missing -= 1;
        self.count = count;
        Ok(place)
    }

    /// The row at a place has not come, whatever came of it.
    pub(crate) fn await_again(&mut self, place: usize)
        ensures { self.new ≡ part_before (Awaited place) self.old }
    {
        if place >= self.rows.len() {
            return;
        }
        if let Some(came) = self.rows[place].empty() {
            self.missing += 1;
            self.count -= came.len();
        }
    }

    /// Whether it waits for no row.
    pub(crate) fn awaits_none(&self) -> bool
        ensures { result ≡ nat_eq (length self.now.rows) 0 }
    {
        self.rows.is_empty()
    }

    /// Whether all its rows have come.
    pub(crate) fn has_all(&self) -> bool
        ensures { result ≡ all_came self.now.rows }
    {
        self.missing == 0
    }

    /// Its rows.
    pub(crate) fn rows(&self) -> &VecDeque<FetchedRow>
        ensures { result.now.items ≡ self.now.rows }
    {
        &self.rows
    }

    /// Waits for no row any more. The answer is the part as it was before the row at this place came:
    /// its rows are moved there.
    pub(crate) fn join(&mut self, alloc: Global, place: usize) -> FetchedPart
        requires { 0 < length self.old.rows }
        ensures joined { self.new ≡ record self.old
            { rows = []; size = length (entries_that_came self.old.rows) } }
        ensures before { result ≡ part_before (Awaited place) self.old }
    {
        let joined = FetchedPart {
            part: self.part,
            rows: VecDeque::new(alloc),
            missing: 0,
            count: self.count,
            answered: self.answered,
        };
        let mut before = mem::replace(self, joined);
        before.await_again(place);
        before
    }

    /// Whether it is complete: it waits for no row, and as many of its own entries are durable as it had.
    pub(crate) fn is_complete(&self, notes: &Notes) -> bool
        ensures { result ≡ is_complete (replayed_in notes.now) self.now }
    {
        self.awaits_none() && self.count <= notes.count_replayed(self.part.term)
    }

    /// Whether it is complete and its end wasn't told.
    pub(crate) fn is_to_answer(&self, notes: &Notes) -> bool
        ensures { result ≡ is_to_answer (replayed_in notes.now) self.now }
    {
        self.is_complete(notes) && !self.answered
    }

    /// Its end is told.
    pub(crate) fn answer(&mut self)
        ensures { self.new ≡ record self.old { answered = true } }
    {
        self.answered = true;
    }

    /// Whether its end was told.
    pub(crate) fn is_answered(&self) -> bool
        ensures { result ≡ self.now.answered }
    {
        self.answered
    }

    /// It is what it was before a change.
    pub(crate) fn go_back(&mut self, before: Before)
        ensures { self.new ≡ part_before before self.old }
    {
        match before {
            Before::Awaited(place) => self.await_again(place),
            Before::Whole(part) => *self = part,
            Before::Unanswered => self.answered = false,
        }
    }
}
