//! The parts that were begun, the grants by which they are finished, and the replay.

ghost use Rattle.std.specs.Prelude.{◌≡◌, ◌++◌, ◌∷◌, [], true, false, nat_eq, nat_lt, length, slice_get};
ghost use Rattle.std.specs.Prelude.{OnOk, OnErr, IfOk, drop};
ghost use Rattle.std.specs.List.{position};
ghost use Rattle.rc_model.specs.Ownership as owning;
ghost use Rattle.rc_ownership.specs.Notes.{replayed_in};
ghost use Rattle.rc_ownership.specs.Parts.{who_fetched, awaiting_grant};
ghost use Rattle.rc_ownership.specs.Grants.{owner_of};
ghost use Rattle.rc_ownership.specs.Unfinished.{HoldOthers, IsDone};

use crate::grants::Grants;
use crate::notes::Notes;
use crate::part::{Before, FetchedPart};
use crate::replay::{self, Replay};
use crate::{touched, unfinished};
use indexmap::IndexMap;
use rc_types::{Entry, KeyRange, Part, ServerId};
use std::alloc::{AllocError, Global};
use std::marker::Model;

/// The parts by term, in the order in which they were begun, and the entries that wait; what changed
/// since `begin` was called, and how many parts there were then. Beside them what was granted; the places
/// of those parts that may be unfinished, how many of these places there were, and how many parts may have
/// been finished since places were last let go; and the same of those whose end may be untold. For the changes there
/// is room: also to note of each part whose end wasn't told that it is.
#[derive(Drop)]
pub(crate) struct Parts {
    pub(crate) begun: IndexMap<u32, FetchedPart>,
    kept: usize,
    touched: Vec<(u32, Before)>,
    grants: Grants,
    unfinished: Vec<usize>,
    kept_unfinished: usize,
    finished: usize,
    untold: Vec<usize>,
    kept_untold: usize,
    told: usize,
    pub(crate) replay: Replay,
}

impl Model for Parts {
    ghost use Rattle.std.specs.Prelude.{take};
    ghost use Rattle.std.specs.Prelude.{vec_capacity};
    ghost use Rattle.rc_ownership.specs.Parts.{Fetched, parts_in, undone, AreParts};

    ghost Value = { Fetched };

    ghost view = { λ s. record {
      grants = s.grants;
      parts = parts_in s.begun.entries;
      replay = s.replay.entries;
      parts_before = parts_in (undone s.touched.items (take s.kept s.begun.entries));
      replay_before =
          s.replay.before;
    } };

    ghost invariant = { λ s. AreParts s.begun.entries s.touched.items s.kept s.grants
        s.unfinished.items s.kept_unfinished s.untold.items s.kept_untold (vec_capacity s.touched) };
}

impl Parts {
    /// No parts. It takes no memory until one is begun.
    pub(crate) fn new(alloc: Global) -> Parts
        ensures { result ≡ record { grants = []; parts = []; replay = []; parts_before = []; replay_before = [] } }
    {
        Parts {
            begun: IndexMap::new(alloc),
            kept: 0,
            touched: Vec::new(alloc),
            grants: Grants::new(alloc),
            unfinished: Vec::new(alloc),
            kept_unfinished: 0,
            finished: 0,
            untold: Vec::new(alloc),
            kept_untold: 0,
            told: 0,
            replay: Replay::new(alloc),
        }
    }

    /// From here on `restore` goes back to now.
    pub(crate) fn begin(&mut self)
        ensures { self.new ≡ record self.old { parts_before = self.old.parts; replay_before = self.old.replay } }
    {
        unfinished::let_go_finished(
            &self.begun,
            &self.grants,
            &mut self.unfinished,
            &mut self.finished,
        );
        unfinished::let_go_told(&self.begun, &mut self.untold, &mut self.told);
        self.touched.clear();
        self.kept = self.begun.len();
        self.kept_unfinished = self.unfinished.len();
        self.kept_untold = self.untold.len();
        self.replay.begin();
    }

    /// What was granted.
    pub(crate) fn grants(&self) -> &Grants
        ensures { result.now ≡ self.now.grants }
    {
        &self.grants
    }

    /// Takes a granted range, unless one was granted under its term before. `restore` doesn't undo it.
    pub(crate) fn grant(&mut self, range: KeyRange, term: u32) -> Result<(), AllocError>
        ensures ok { OnOk result (self.new ≡ record self.old {
          grants = (owning.grant (record { range = range; term = term })
              (owner_of self.old.grants)).grants;
        }) }
        ensures err { OnErr result (self.new ≡ self.old) }
    {
        self.grants.grant(range, term)?;
        self.finished = self.finished.saturating_add(1);
        Ok(())
    }

    /// Goes back to where `begin` was called, but for the grants.
    pub(crate) fn restore(&mut self)
        ensures { self.new ≡ record self.old { parts = self.old.parts_before; replay = self.old.replay_before } }
    {
        touched::undo(&mut self.begun, &mut self.touched);
        self.begun.truncate(self.kept);
        self.unfinished.truncate(self.kept_unfinished);
        self.untold.truncate(self.kept_untold);
        self.replay.restore();
    }

    /// Whether a part was begun under the term.
    pub(crate) fn has_part(&self, term: u32) -> bool
        ensures { result ≡ owning.has_part (who_fetched self.now) term }
    {
        self.begun.contains_key(&term)
    }

    /// Begins a part under a term of which none was begun.
    pub(crate) fn begin_part(
        &mut self,
        alloc: Global,
        part: Part,
        rows: &[(u16, ServerId)],
    ) -> Result<(), AllocError>
        requires { owning.has_part (who_fetched self.old) part.term ≡ false }
        ensures ok { OnOk result (self.new ≡ record self.old {
          parts = self.old.parts ++
              owning.new_part part rows.now ∷ [];
        }) }
        ensures err { OnErr result (self.new ≡ self.old) }
    {
        let begun = FetchedPart::new(alloc, part, rows)?;
        self.unfinished.reserve(1)?;
        self.untold.reserve(1)?;
        self.touched.reserve(self.unfinished.len() + 1)?;
        let place = self.begun.len();
        self.begun.insert(part.term, begun)?;
        self.unfinished.push(place).unwrap();
        self.untold.push(place).unwrap();
        Ok(())
    }

    /// Whether a part under this term awaits this segment's row from this backup.
    pub(crate) fn awaits_data(&self, term: u32, seg: u16, from: ServerId) -> bool
        ensures { result ≡ owning.awaits_data term seg from (who_fetched self.now) }
    {
        match self.begun.get(&term) {
            Some(part) => part.awaits(seg, from),
            None => false,
        }
    }

    /// Takes the entries of an awaited row. Only memory can be refused (F1).
    pub(crate) fn put_data(
        &mut self,
        alloc: Global,
        term: u32,
        seg: u16,
        from: ServerId,
        entries: &[Entry],
    ) -> Result<(), AllocError>
        requires { owning.awaits_data term seg from (who_fetched self.old) ≡ true }
        ensures ok { OnOk result (self.new ≡ record self.old {
          parts = owning.data_in term seg from entries.now self.old.parts;
          replay = self.old.replay ++
              owning.replay_in term seg from entries.now self.old.parts;
        }) }
        ensures err { OnErr result (self.new ≡ self.old) }
    {
        self.touched.reserve(self.unfinished.len() + 1)?;
        let Some(part) = self.begun.get_mut(&term) else {
            unreachable!();
        };
        let before = replay::take_row(alloc, part, &mut self.replay, seg, from, entries)?;
        self.touched.push((term, before)).unwrap();
        Ok(())
    }

    /// Whether an entry waits to be appended.
    pub(crate) fn has_replay(&self) -> bool
        ensures { result ≡ nat_lt 0 (length self.now.replay) }
    {
        self.replay.is_waiting()
    }

    /// A copy of the first entry that waits: it waits no more. Only memory can be refused (F1).
    pub(crate) fn next_replay(&mut self, alloc: Global) -> Result<Option<Entry>, AllocError>
        ensures first { IfOk result (λ entry. entry ≡ slice_get self.old.replay 0) }
        ensures rest { OnOk result (self.new ≡ record self.old { replay = drop 1 self.old.replay }) }
        ensures err { OnErr result (self.new ≡ self.old) }
    {
        self.replay.next(alloc)
    }

    /// The places of the parts that may be unfinished, in order.
    pub(crate) fn unfinished(&self) -> &[usize]
        ensures { HoldOthers (IsDone (who_fetched self.now)) 0 result.now self.now.parts }
    {
        self.unfinished.as_slice()
    }

    /// The place of the part of this term.
    pub(crate) fn place_of(&self, term: u32) -> Option<usize>
        ensures { result ≡ position (λ state. nat_eq state.part.term term) self.now.parts }
    {
        self.begun.get_index_of(&term)
    }

    /// The term of the first complete part whose end wasn't told. It looks at those parts alone whose end may be
    /// untold.
    fn to_answer(&self, notes: &Notes) -> Option<u32>
        ensures { result ≡ owning.to_answer (replayed_in notes.now) (who_fetched self.now) }
    {
        let places = self.untold.as_slice();
        let Some(place) = unfinished::first_due(&self.begun, notes, places) else {
            return None;
        };
        match self.begun.get_index(place) {
            Some((_, part)) => Some(part.term()),
            None => None,
        }
    }

    /// The same term; the part's end counts as told from now on. It takes no memory: room to note the change
    /// was taken when the part was begun.
    pub(crate) fn complete(&mut self, notes: &Notes) -> Option<u32>
        ensures term { result ≡ owning.to_answer (replayed_in notes.now) (who_fetched self.old) }
        ensures answered { self.new ≡ record self.old {
          parts = owning.answered_in (replayed_in notes.now)
              self.old.parts;
        } }
    {
        let Some(term) = self.to_answer(notes) else {
            return None;
        };
        let Some(part) = self.begun.get_mut(&term) else {
            unreachable!();
        };
        part.answer();
        self.touched.push((term, Before::Unanswered)).unwrap();
        self.finished = self.finished.saturating_add(1);
        self.told = self.told.saturating_add(1);
        Some(term)
    }

    /// The terms of the complete parts that aren't granted yet, in the order in which the parts were
    /// begun. It looks at those parts alone that may be unfinished.
    pub(crate) fn awaiting_grant(
        &self,
        alloc: Global,
        notes: &Notes,
    ) -> Result<Vec<u32>, AllocError>
        ensures { IfOk result (λ terms. terms.items ≡ awaiting_grant (replayed_in notes.now)
            (who_fetched self.now) self.now.parts) }
    {
        let places = self.unfinished.as_slice();
        unfinished::awaiting_terms(alloc, &self.begun, notes, &self.grants, places)
    }
}
