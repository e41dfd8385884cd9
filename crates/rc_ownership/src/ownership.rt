//! What a master owns, in one value.

ghost use Rattle.std.specs.Prelude.{◌≡◌, ◌<◌, ◌≤◌, ◌+◌, ◌^◌, [], length, not, nat_eq, nat_lt, slice_get};
ghost use Rattle.std.specs.Prelude.{OnOk, OnErr, IfOk, None, true, ◌↔◌, option_map, map, is_none, IfSome};
ghost use Rattle.std.specs.List.{position};
ghost use Rattle.rc_model.specs.Ownership.{owns_nothing};
ghost use Rattle.rc_model.specs.Ownership as owning;
ghost use Rattle.rc_model.specs.Versions as versions;
ghost use Rattle.rc_ownership.specs.Grants.{grants_in};
ghost use Rattle.rc_ownership.specs.Groups.{IsAliveAt, IsQuiet};
ghost use Rattle.rc_ownership.specs.Highs.{highs_of};
ghost use Rattle.rc_types.specs.Counts.{within_64_bits};
ghost use Rattle.rc_ownership.specs.Looks.{progress_of};
ghost use Rattle.rc_ownership.specs.Owner.{durable_of, replayed_of, kept_now, kept_nothing, was_handed, after_note};
ghost use Rattle.rc_ownership.specs.Owner.{after_handing};
ghost use Rattle.rc_ownership.specs.Parts.{awaiting_grant};
ghost use Rattle.rc_ownership.specs.Tops.{LeaveRoom};
ghost use Rattle.rc_ownership.specs.Unfinished.{HoldOthers, IsDone};

use crate::looks::PartProgress;
use crate::notes::Notes;
use crate::parts::Parts;
use indexmap::IndexMap;
use rc_types::{Entry, KeyRange, Part, ServerId, Shared};
use std::alloc::{AllocError, Global};
use std::marker::Model;

/// The ranges that a master was granted, the notes of its log, and the parts of crashed masters'
/// logs that it fetches and replays.
pub struct Ownership {
    notes: Notes,
    parts: Parts,
    handed: Option<u32>,
    kept_handed: Option<u32>,
}

impl Drop for Ownership {
    fn drop(self) {
        let Ownership {
            notes: _,
            parts: _,
            handed: _,
            kept_handed: _,
        } = self;
    }
}

impl Model for Ownership {
    ghost use Rattle.rc_ownership.specs.Owner.{Owner};

    ghost Value = { Owner };

    ghost view = { λ s. record {
      own = record { grants = s.parts.grants; parts = s.parts.parts; replay = s.parts.replay };
      handed = s.handed;
      noted = s.notes.noted;
      replayed = s.notes.replayed;
      durable = s.notes.durable;
      before = record {
        own = record {
          grants = s.parts.grants;
          parts = s.parts.parts_before;
          replay = s.parts.replay_before;
        };
        handed = s.kept_handed;
        noted = s.notes.noted_before;
        replayed = s.notes.replayed_before;
        durable = s.notes.durable_before;
      };
    } };
}

impl Ownership {
    /// What a new master owns: nothing. It takes no memory until something is taken in.
    pub fn new(alloc: Global) -> Ownership
        ensures { result ≡ record {
          own = owns_nothing;
          handed = None;
          noted = [];
          replayed = [];
          durable = 0;
          before = kept_nothing;
        } }
    {
        Ownership {
            notes: Notes::new(alloc),
            parts: Parts::new(alloc),
            handed: None,
            kept_handed: None,
        }
    }

    /// From here on `restore` goes back to now. What `restore` would have needed before is let go.
    pub fn begin(&mut self)
        ensures { self.new ≡ record self.old { before = kept_now self.old } }
    {
        self.notes.begin();
        self.parts.begin();
        self.kept_handed = self.handed;
    }

    /// Goes back to where `begin` was called last, or to nothing where it never was; but for the
    /// grants, which stay. It takes no memory, and as long as what was done since.
    pub fn restore(&mut self)
        ensures { self.new ≡ record self.old {
          own = self.old.before.own;
          handed = self.old.before.handed;
          noted = self.old.before.noted;
          replayed = self.old.before.replayed;
          durable = self.old.before.durable;
        } }
    {
        self.notes.restore();
        self.parts.restore();
        self.handed = self.kept_handed;
    }

    /// Takes a granted range, unless one was granted under its term before. This isn't undone: what
    /// `restore` goes back to has it too.
    ///
    /// # Errors
    ///
    /// - `OutOfMemory` (F1): memory was refused; nothing has changed.
    pub fn grant(&mut self, range: KeyRange, term: u32) -> Result<(), AllocError>
        ensures ok { OnOk result (self.new ≡ record self.old {
          own = owning.grant (record { range = range; term = term }) self.old.own;
          before = record self.old.before
              { own = owning.grant (record { range = range; term = term }) self.old.before.own };
        }) }
        ensures err { OnErr result (self.new ≡ self.old) }
    {
        self.parts.grant(range, term)?;
        Ok(())
    }

    /// The term of the first granted range that holds the point: by one look-up in an ordered table.
    pub fn term_of(&self, table: u32, key: u64) -> Option<u32>
        ensures { result ≡ owning.term_of self.now.own table key }
    {
        self.parts.grants().term_of(table, key)
    }

    /// Whether a range was granted under the term.
    pub(crate) fn owns_term(&self, term: u32) -> bool
        ensures { result ≡ owning.owns_term self.now.own term }
    {
        self.parts.grants().owns_term(term)
    }

    /// Whether any range was granted.
    pub fn has_grants(&self) -> bool
        ensures { result ≡ nat_lt 0 (length self.now.own.grants) }
    {
        !self.parts.grants().is_empty()
    }

    /// The granted ranges by term, in the order of granting. It takes no memory.
    pub fn grants(&self) -> &IndexMap<u32, KeyRange>
        ensures { grants_in result.now.entries ≡ self.now.own.grants }
    {
        self.parts.grants().ranges()
    }

    /// Whether an entry of this term was handed out, and none was noted since.
    fn was_handed(&self, term: u32) -> bool
        ensures { result ≡ was_handed self.now.handed term }
    {
        match self.handed {
            Some(handed) => handed == term,
            None => false,
        }
    }

    /// Notes an entry that was appended to the log, after those noted before. It is one of a part's own where
    /// `next_replay` handed out an entry of its term and nothing was noted since.
    ///
    /// # Errors
    ///
    /// - `OutOfMemory` (F1): memory was refused; nothing has changed.
    pub fn note(&mut self, alloc: Global, entry: &Entry) -> Result<(), AllocError>
        ensures ok { OnOk result (self.new ≡ after_note entry.now self.old) }
        ensures err { OnErr result (self.new ≡ self.old) }
    {
        let replayed = self.was_handed(entry.term);
        self.notes.note(alloc, entry, replayed)?;
        self.handed = None;
        Ok(())
    }

    /// Whether each noted entry leaves room for one more version in 64 bits, so that a write of any key can be
    /// numbered. It takes no memory, and its cost does not grow with the log.
    pub fn leaves_room(&self) -> bool
        ensures { (result ≡ true) ↔ LeaveRoom self.now.noted }
    {
        self.notes.leave_room()
    }

    /// How many entries were noted.
    pub fn count_noted(&self) -> usize
        ensures { result ≡ length self.now.noted }
    {
        self.notes.len()
    }

    /// Says that the first `count` noted entries are durable. It goes through those between the old
    /// count and the new one.
    pub fn set_durable(&mut self, count: usize)
        requires { count ≤ length self.old.noted }
        ensures { self.new ≡ record self.old { durable = count } }
    {
        self.notes.set_durable(count);
    }

    /// The record highs of a key under a term: the place, from 0, and the version of each noted entry
    /// whose version is above all earlier ones of that key and term: the first of them is one, whatever its version.
    pub fn highs(&self, term: u32, table: u32, key: u64) -> &[(usize, u64)]
        ensures { result.now ≡ highs_of term table key self.now.noted }
    {
        self.notes.highs(term, table, key)
    }

    /// Whether there is a version above all noted ones of a key under a term.
    pub fn has_next_version(&self, term: u32, table: u32, key: u64) -> bool
        ensures { result ≡ nat_lt (versions.next_version term table key self.now.noted) (2 ^ 64) }
    {
        self.notes.greatest_version(term, table, key) < u64::MAX
    }

    /// The version that the next write of a key under a term gets: one more than the greatest noted
    /// one, or 1.
    pub fn next_version(&self, term: u32, table: u32, key: u64) -> u64
        requires { versions.next_version term table key self.now.noted < 2 ^ 64 }
        ensures { result ≡ versions.next_version term table key self.now.noted }
    {
        self.notes.greatest_version(term, table, key) + 1
    }

    /// The greatest durable version of a key under a term with its value, of equal versions the first
    /// in place; version 0 and no value where there is none.
    ///
    /// # Errors
    ///
    /// - `OutOfMemory` (F1): the memory for the value was refused.
    pub fn read(
        &self,
        alloc: Global,
        term: u32,
        table: u32,
        key: u64,
    ) -> Result<(u64, Option<Shared<u8>>), AllocError>
        ensures { IfOk result (λ found. versions.read_of term table key
            (durable_of self.now) ≡ record { version = found.0; value = found.1 }) }
    {
        self.notes.read(alloc, term, table, key)
    }

    /// The first of these entries that has no greater version of its key under its term among the durable ones: from
    /// `start` on, and then from the first on.
    pub fn find_alive(&self, entries: &[(Entry, bool)], start: usize) -> Option<usize>
        ensures dead { is_none result ≡ versions.is_dead (durable_of self.now) (map (λ one. one.0) entries.now) }
        ensures alive { IfSome result (λ offset. IsAliveAt (durable_of self.now) entries.now offset) }
    {
        self.notes.find_alive(entries, start)
    }

    /// Whether each of these entries has a greater version of its key under its term among the durable ones. It takes
    /// no memory.
    pub fn is_dead(&self, entries: &[Entry]) -> bool
        ensures { result ≡ versions.is_dead (durable_of self.now) entries.now }
    {
        self.notes.are_outdated(entries)
    }

    /// Whether no entry of the group has become durable since so many entries were. It is no walk.
    pub fn is_quiet(&self, group: usize, count: usize) -> bool
        ensures { result ≡ true → IsQuiet (durable_of self.now) group count }
    {
        self.notes.is_quiet(group, count)
    }

    /// From here on `is_quiet` can tell, if there is memory for it.
    pub fn watch_groups(&mut self, alloc: Global)
        ensures { self.new ≡ self.old }
    {
        self.notes.watch_groups(alloc);
    }

    /// How many entries are durable.
    pub fn durable(&self) -> usize
        ensures { result ≡ length (durable_of self.now) }
    {
        self.notes.count_durable()
    }

    /// Whether the term is known: a part under it was begun, or a range was granted.
    pub fn knows_term(&self, term: u32) -> bool
        ensures { result ≡ owning.knows_term self.now.own term }
    {
        self.parts.has_part(term) || self.parts.grants().owns_term(term)
    }

    /// Begins a part: it waits for these rows, each a segment and the backup that holds it. The answer
    /// is `false`, and nothing changes, where its term is known.
    ///
    /// # Errors
    ///
    /// - `OutOfMemory` (F1): memory was refused; nothing has changed.
    pub fn begin_part(
        &mut self,
        alloc: Global,
        part: Part,
        rows: &[(u16, ServerId)],
    ) -> Result<bool, AllocError>
        ensures begun { IfOk result (λ begun. begun ≡ not (owning.knows_term self.old.own part.term)) }
        ensures ok { OnOk result (self.new ≡ record self.old { own = owning.begin_part part rows.now self.old.own }) }
        ensures err { OnErr result (self.new ≡ self.old) }
    {
        if self.knows_term(part.term) {
            return Ok(false);
        }
        self.parts.begin_part(alloc, part, rows)?;
        Ok(true)
    }

    /// Whether a part under this term awaits this segment's row from this backup.
    pub fn awaits_data(&self, term: u32, seg: u16, from: ServerId) -> bool
        ensures { result ≡ owning.awaits_data term seg from self.now.own }
    {
        self.parts.awaits_data(term, seg, from)
    }

    /// Takes the entries of an awaited row. Once all rows of a part have come, its entries, in order of
    /// segment and offset and under its term, join those that wait to be appended, at their end. The
    /// answer is `false`, and nothing changes, where no such row is awaited.
    ///
    /// # Errors
    ///
    /// - `OutOfMemory` (F1): memory was refused; nothing has changed.
    pub fn put_data(
        &mut self,
        alloc: Global,
        term: u32,
        seg: u16,
        from: ServerId,
        entries: &[Entry],
    ) -> Result<bool, AllocError>
        ensures put { IfOk result (λ put. put ≡ owning.awaits_data term seg from self.old.own) }
        ensures ok { OnOk result (self.new ≡ record self.old
            { own = owning.put_data term seg from entries.now self.old.own }) }
        ensures err { OnErr result (self.new ≡ self.old) }
    {
        if !self.awaits_data(term, seg, from) {
            return Ok(false);
        }
        self.parts.put_data(alloc, term, seg, from, entries)?;
        Ok(true)
    }

    /// How many parts were ever begun, also those that have long been granted.
    pub fn count_parts(&self) -> usize
        ensures { result ≡ length self.now.own.parts }
    {
        self.parts.count()
    }

    /// How far the part of this number has come; parts are numbered from 0 in the order in which they were begun.
    /// It takes no memory, and its cost does not grow with the part.
    pub fn part(&self, number: usize) -> Option<PartProgress>
        ensures { result ≡ option_map (progress_of (replayed_of self.now)) (slice_get self.now.own.parts number) }
    {
        self.parts.progress(number, &self.notes)
    }

    /// The place of the part of this term among the parts in the order in which they were begun: by one look-up. It
    /// takes no memory.
    pub fn place_of(&self, term: u32) -> Option<usize>
        ensures { result ≡ position (λ state. nat_eq state.part.term term) self.now.own.parts }
    {
        self.parts.place_of(term)
    }

    /// The places of the parts that may be unfinished, in rising order, so that nobody has to go over all that were
    /// ever begun. Of each part at another place the end was told, the term is granted, and no row is awaited. Which
    /// parts are finished is looked at by `begin` alone. It takes no memory.
    pub fn unfinished(&self) -> &[usize]
        ensures { HoldOthers (IsDone self.now.own) 0 result.now self.now.own.parts }
    {
        self.parts.unfinished()
    }

    /// How many entries wait to be appended, or the greatest number where more do. It goes over the rows of which
    /// any wait, and takes no memory.
    pub fn count_replay(&self) -> usize
        ensures { result ≡ within_64_bits (length self.now.own.replay) }
    {
        self.parts.count_replay()
    }

    /// Whether an entry waits to be appended.
    pub fn has_replay(&self) -> bool
        ensures { result ≡ nat_lt 0 (length self.now.own.replay) }
    {
        self.parts.has_replay()
    }

    /// A copy of the first entry that waits, under the term of its part: it waits no more. It is the part's own once
    /// it is noted, before anything else is noted or handed out.
    ///
    /// # Errors
    ///
    /// - `OutOfMemory` (F1): memory was refused; nothing has changed.
    pub fn next_replay(&mut self, alloc: Global) -> Result<Option<Entry>, AllocError>
        ensures first { IfOk result (λ entry. entry ≡ slice_get self.old.own.replay 0) }
        ensures rest { OnOk result (self.new ≡ after_handing self.old) }
        ensures err { OnErr result (self.new ≡ self.old) }
    {
        let entry = self.parts.next_replay(alloc)?;
        if let Some(first) = &entry {
            self.handed = Some(first.term);
        }
        Ok(entry)
    }

    /// The term of the first begun part that is complete and whose end wasn't told: its rows have all
    /// come, and as many of its own entries are durable as they held. Its own are those that `next_replay` handed out
    /// and that were noted next. Its end counts as told from now on. It takes no memory: `begin_part` and `put_data`
    /// have taken what `restore` needs.
    pub fn complete(&mut self) -> Option<u32>
        ensures term { result ≡ owning.to_answer (replayed_of self.old) self.old.own }
        ensures answered { self.new ≡ record self.old
            { own = owning.after_answer (replayed_of self.old) self.old.own } }
    {
        self.parts.complete(&self.notes)
    }

    /// The terms of the complete parts that aren't granted yet, in the order in which the parts were
    /// begun: the end of each is told again when the timer goes off.
    ///
    /// # Errors
    ///
    /// - `OutOfMemory` (F1): the memory for the list was refused.
    pub fn awaiting_grant(&self, alloc: Global) -> Result<Vec<u32>, AllocError>
        ensures { IfOk result (λ terms. terms.items ≡ awaiting_grant (replayed_of self.now) self.now.own
            self.now.own.parts) }
    {
        let terms = self.parts.awaiting_grant(alloc, &self.notes)?;
        Ok(terms)
    }
}
