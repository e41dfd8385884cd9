//! The notes of a log: its entries as they were appended, how many of them are durable, and the
//! tables by which versions are numbered and read, and dead segments found, without a walk over them.

ghost use Rattle.std.specs.Prelude.{◌≡◌, ℕ, ◌+◌, ◌-◌, ◌^◌, ◌<◌, ◌≤◌, ◌++◌, ◌∷◌, [], length, take, slice_get, OnOk};
ghost use Rattle.std.specs.Prelude.{OnErr, IfOk, true, ◌↔◌};
ghost use Rattle.std.specs.Option.{option_copied};

use crate::highs::{self, Slot};
use crate::{counts, groups, tops};
use indexmap::IndexMap;
use rc_types::{Entry, Shared, TryClone};
use std::alloc::{AllocError, Global};
use std::marker::Model;

/// The noted entries, of each whether the replay had handed it out, how many of them are durable, how many there were
/// and were durable when `begin` was called, the record highs of each slot, how many durable entries of each term the
/// replay had handed out, and the greatest version up to each entry.
#[derive(Drop)]
pub(crate) struct Notes {
    noted: Vec<Entry>,
    replayed: Vec<bool>,
    pub(crate) durable: usize,
    kept: usize,
    kept_durable: usize,
    highs: IndexMap<Slot, Vec<(usize, u64)>>,
    counts: IndexMap<u32, usize>,
    tops: Vec<u64>,
    /// Of each group of slots a place above those of its durable entries; none until the groups are watched.
    pub(crate) bounds: Vec<usize>,
}

impl Model for Notes {
    ghost use Rattle.std.specs.Prelude.{take};
    ghost use Rattle.rc_ownership.specs.Notes.{Noted, AreNotes};

    ghost Value = { Noted };

    ghost view = { λ s. record {
      noted = s.noted.items;
      replayed = s.replayed.items;
      durable = s.durable;
      noted_before = take s.kept s.noted.items;
      replayed_before = take s.kept s.replayed.items;
      durable_before = s.kept_durable;
    } };

    ghost invariant = { λ s. AreNotes s.noted.items s.replayed.items s.durable s.kept s.kept_durable s.highs
        s.counts s.tops.items s.bounds.items };
}

impl Notes {
    ghost use Rattle.rc_model.specs.Ownership.{count_under};
    ghost use Rattle.rc_model.specs.Versions.{next_version, greatest_version, read_of, is_outdated};
    ghost use Rattle.rc_ownership.specs.Highs.{highs_of};
    ghost use Rattle.rc_ownership.specs.Notes.{replayed_in};
    ghost use Rattle.rc_ownership.specs.Tops.{top_or, tops_of, LeaveRoom};

    /// No notes. It takes no memory until an entry is noted.
    pub(crate) fn new(alloc: Global) -> Notes
        ensures { result ≡ record {
          noted = [];
          replayed = [];
          durable = 0;
          noted_before = [];
          replayed_before = [];
          durable_before = 0;
        } }
    {
        Notes {
            noted: Vec::new(alloc),
            replayed: Vec::new(alloc),
            durable: 0,
            kept: 0,
            kept_durable: 0,
            highs: IndexMap::new(alloc),
            counts: IndexMap::new(alloc),
            tops: Vec::new(alloc),
            bounds: Vec::new(alloc),
        }
    }

    /// From here on `restore` goes back to now.
    pub(crate) fn begin(&mut self)
        ensures { self.new ≡ record self.old {
          noted_before = self.old.noted;
          replayed_before = self.old.replayed;
          durable_before = self.old.durable;
        } }
    {
        self.kept = self.noted.len();
        self.kept_durable = self.durable;
    }

    /// Goes back to where `begin` was called: the entries noted since are dropped one by one.
    pub(crate) fn restore(&mut self)
        ensures { self.new ≡ record self.old {
          noted = self.old.noted_before;
          replayed = self.old.replayed_before;
          durable = self.old.durable_before;
        } }
    {
        self.set_durable(self.kept_durable);
        while self.noted.len() > self.kept {
            self.drop_last();
        }
    }

    /// Drops the last entry, which was noted since `begin` was called and isn't durable.
    fn drop_last(&mut self)
        requires noted { length self.old.noted_before < length self.old.noted }
        requires undurable { self.old.durable < length self.old.noted }
        ensures { self.new ≡ record self.old {
          noted = take (length self.old.noted - 1) self.old.noted;
          replayed = take (length self.old.noted - 1) self.old.replayed;
        } }
    {
        let Some(entry) = self.noted.pop() else {
            return;
        };
        let slot = highs::slot_of(&entry);
        highs::drop_from(&mut self.highs, slot, self.noted.len());
        self.replayed.truncate(self.noted.len());
        self.tops.truncate(self.noted.len());
    }

    /// Notes an entry after the others, and whether the replay had handed it out. Only memory can be refused (F1).
    pub(crate) fn note(
        &mut self,
        alloc: Global,
        entry: &Entry,
        replayed: bool,
    ) -> Result<(), AllocError>
        ensures ok { OnOk result (self.new ≡ record self.old {
          noted = self.old.noted ++ entry.now ∷ [];
          replayed = self.old.replayed ++ replayed ∷ [];
        }) }
        ensures err { OnErr result (self.new ≡ self.old) }
    {
        let top = tops::higher(self.greatest(), entry.version);
        let copy = entry.try_clone(alloc)?;
        self.noted.reserve(1)?;
        self.replayed.reserve(1)?;
        self.tops.reserve(1)?;
        counts::know_term(&mut self.counts, entry.term)?;
        let slot = highs::slot_of(entry);
        highs::add_high(
            alloc,
            &mut self.highs,
            slot,
            self.noted.len(),
            entry.version,
        )?;
        self.tops.push(top).unwrap();
        self.replayed.push(replayed).unwrap();
        self.noted.push(copy).unwrap();
        Ok(())
    }

    /// The greatest version of all noted entries, 0 where there is none.
    fn greatest(&self) -> u64
        ensures { result ≡ top_or 0 (tops_of self.now.noted) }
    {
        tops::top_of(self.tops.as_slice())
    }

    /// Whether each noted entry leaves room for one more version in 64 bits. It takes no walk.
    pub(crate) fn leave_room(&self) -> bool
        ensures { (result ≡ true) ↔ LeaveRoom self.now.noted }
    {
        self.greatest() < u64::MAX
    }

    /// How many entries were noted.
    pub(crate) fn len(&self) -> usize
        ensures { result ≡ length self.now.noted }
    {
        self.noted.len()
    }

    /// Says that the first `count` noted entries are durable.
    pub(crate) fn set_durable(&mut self, count: usize)
        requires { count ≤ length self.old.noted }
        ensures { self.new ≡ record self.old { durable = count } }
    {
        if count < self.durable {
            self.lower_durable(count);
        } else {
            self.raise_durable(count);
        }
    }

    fn raise_durable(&mut self, count: usize)
        requires within { count ≤ length self.old.noted }
        requires risen { self.old.durable ≤ count }
        ensures { self.new ≡ record self.old { durable = count } }
    {
        let newly = &self.noted.as_slice()[self.durable..count];
        let marks = &self.replayed.as_slice()[self.durable..count];
        counts::count_up(&mut self.counts, newly, marks);
        groups::raise_bounds(&mut self.bounds, newly, count);
        self.durable = count;
    }

    fn lower_durable(&mut self, count: usize)
        requires { count ≤ self.old.durable }
        ensures { self.new ≡ record self.old { durable = count } }
    {
        let no_longer = &self.noted.as_slice()[count..self.durable];
        let marks = &self.replayed.as_slice()[count..self.durable];
        counts::count_down(&mut self.counts, no_longer, marks);
        self.durable = count;
    }

    /// The durable entry at a place, if there is one.
    fn durable_entry(&self, place: usize) -> Option<&Entry>
        ensures { option_copied result ≡ slice_get (take self.now.durable self.now.noted) place }
    {
        let durable = &self.noted.as_slice()[..self.durable];
        durable.get(place)
    }

    /// The record highs of a key under a term.
    pub(crate) fn highs(&self, term: u32, table: u32, key: u64) -> &[(usize, u64)]
        ensures { result.now ≡ highs_of term table key self.now.noted }
    {
        highs::highs_in(&self.highs, Slot { term, table, key })
    }

    /// The record highs of a key under a term that are durable.
    fn durable_highs(&self, term: u32, table: u32, key: u64) -> &[(usize, u64)]
        ensures { result.now ≡ highs_of term table key (take self.now.durable self.now.noted) }
    {
        highs::below(self.highs(term, table, key), self.durable)
    }

    /// The greatest version of a key under a term, 0 where there is none.
    pub(crate) fn greatest_version(&self, term: u32, table: u32, key: u64) -> u64
        ensures { result ≡ greatest_version term table key self.now.noted }
    {
        highs::last_version(self.highs(term, table, key))
    }

    /// The greatest durable version of a key under a term with its value, of equal versions the
    /// first in place; version 0 and no value where there is none. Only memory can be refused (F1).
    pub(crate) fn read(
        &self,
        alloc: Global,
        term: u32,
        table: u32,
        key: u64,
    ) -> Result<(u64, Option<Shared<u8>>), AllocError>
        ensures { IfOk result (λ found. read_of term table key (take self.now.durable self.now.noted) ≡ record
            { version = found.0; value = found.1 }) }
    {
        let Some((place, _)) = self.durable_highs(term, table, key).last() else {
            return Ok((0, None));
        };
        let Some(entry) = self.durable_entry(*place) else {
            return Ok((0, None));
        };
        let value = entry.value.try_clone(alloc)?;
        Ok((entry.version, value))
    }

    /// Whether a durable entry has a greater version of the entry's key under its term.
    pub(crate) fn is_outdated(&self, entry: &Entry) -> bool
        ensures { result ≡ is_outdated (take self.now.durable self.now.noted) entry.now }
    {
        let highs = self.durable_highs(entry.term, entry.table, entry.key);
        entry.version < highs::last_version(highs)
    }

    /// How many durable entries under a term the replay had handed out.
    pub(crate) fn count_replayed(&self, term: u32) -> usize
        ensures { result ≡ count_under term (replayed_in self.now) }
    {
        counts::count_in(&self.counts, term)
    }
}
