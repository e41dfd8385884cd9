//! How much of the log is durable.

ghost use Rattle.std.specs.Prelude.{◌≡◌, ◌+◌, ◌*◌, ◌^◌, ◌<◌, ◌≤◌, ◌++◌, ℕ, true, false, length, map, IfOk, IfSome};
ghost use Rattle.std.specs.Prelude.{OnOk};
ghost use Rattle.rc_types.specs.declared.limits.TheConstants.{MAX_SEGMENT};
ghost use Rattle.rc_model.specs.Log.{durable_now, has_segment, places_in};
ghost use Rattle.rc_model.specs.FollowUps.{first_open, new_durable};
ghost use Rattle.rc_headroll.specs.Counts.{with_counted};
ghost use Rattle.rc_headroll.specs.LogData.{log_of, before_of};
ghost use Rattle.rc_headroll.specs.Soundness.{entries_to};
ghost use Rattle.rc_headroll.specs.Places.{log_place};

use crate::log::LogHead;
use rc_types::Entry;
use std::alloc::{AllocError, Global};

/// How many places have become durable, and how many had when a step began.
#[derive(Clone, Copy)]
pub struct Counted {
    /// Now.
    pub now: usize,
    /// When the step began.
    pub before: usize,
}

/// The shut segments at the front of a log.
#[derive(Clone, Copy)]
pub(crate) struct ShutFront {
    /// How many they are.
    pub(crate) segments: usize,
    /// How many entries they have.
    pub(crate) entries: usize,
}

impl LogHead {
    /// The shut segments at the front, up to the first open one. Those that were passed before are not
    /// gone over again.
    fn shut_front(&self) -> ShutFront
        ensures known { result.segments ≤ (log_of self.now).head }
        ensures shut { (seg : ℕ) → 0 < seg → seg ≤ result.segments → ((log_of self.now).segments seg).shut ≡ true }
        ensures ends { result.segments < (log_of self.now).head →
            ((log_of self.now).segments (result.segments + 1)).shut ≡ false }
        ensures entries { result.entries ≡ entries_to (log_of self.now).segments result.segments }
        ensures few { result.entries ≤ MAX_SEGMENT * result.segments }
    {
        let mut entries = self.passed_entries;
        for place in self.passed..self.segments.len() {
            let segment = &self.segments[place];
            if !segment.is_shut() {
                return ShutFront {
                    segments: place,
                    entries,
                };
            }
            entries += segment.len();
        }
        ShutFront {
            segments: self.segments.len(),
            entries,
        }
    }

    /// How many places are durable at this moment: those of the shut segments at the front, and of the
    /// first open one what all its members have.
    pub fn durable_now(&self) -> usize
        ensures { result ≡ durable_now (log_of self.now) }
    {
        let front = self.shut_front();
        if front.segments == self.segments.len() {
            return front.entries;
        }
        front.entries + self.segments[front.segments].durable_len()
    }

    /// The first segment that isn't shut.
    pub fn first_open(&self) -> Option<u16>
        ensures first { result ≡ first_open (log_of self.now) }
        ensures known { IfSome result (λ seg. has_segment (log_of self.now) seg ≡ true) }
    {
        let front = self.shut_front();
        if front.segments == self.segments.len() {
            return None;
        }
        Some(front.segments as u16 + 1)
    }

    /// The places that have become durable, in order: those that are durable at this moment, without
    /// those that were kept before. Segments that were passed are not gone over again.
    pub fn newly_durable(&self, alloc: Global) -> Result<Vec<Place<'_>>, AllocError>
        ensures { IfOk result (λ places. map log_place places.items ≡ new_durable (log_of self.now)) }
    {
        let now = self.durable_now();
        let mut before = self.passed_entries;
        let mut places = Vec::new(alloc);
        for place in self.passed..self.segments.len() {
            let entries = self.segments[place].entries();
            let end = now.saturating_sub(before).min(entries.len());
            let start = self.durable.saturating_sub(before).min(end);
            add_places(&mut places, place as u16 + 1, start, &entries[start..end])?;
            before += entries.len();
        }
        Ok(places)
    }

    /// How many places have become durable, counted from the log's first one, by what `stored`, `committed_at` and
    /// `advance` have noted. Members that are lost later take nothing of it back.
    pub fn durable(&self) -> usize
        ensures { result ≡ self.now.counted.now }
    {
        self.counted.now
    }

    /// What is durable at this moment is counted, besides what was counted before.
    pub(crate) fn count_durable(&mut self)
        ensures log { log_of self.new ≡ log_of self.old }
        ensures before { before_of self.new ≡ before_of self.old }
        ensures counted { self.new.counted ≡ with_counted (durable_now (log_of self.old)) self.old.counted }
    {
        let now = self.durable_now();
        if self.counted.now < now {
            self.counted.now = now;
        }
    }

    /// How many of the durable places were gone over: from here on `newly_durable` begins.
    pub fn passed_on(&self) -> usize
        ensures { result ≡ self.now.durable }
    {
        self.durable
    }

    /// The durable places were gone over, up to those that are durable at this moment: they are for good.
    pub fn keep_durable(&mut self)
        requires { self.old.durable ≤ durable_now (log_of self.old) }
        ensures state { log_of self.new ≡ record (log_of self.old) { durable = durable_now (log_of self.old) } }
        ensures before { before_of self.new ≡ before_of self.old }
        ensures counted { self.new.counted ≡ self.old.counted }
    {
        let front = self.shut_front();
        self.durable = self.durable_now();
        self.passed = front.segments;
        self.passed_entries = front.entries;
    }
}

/// A place of a log, and what stands there.
#[derive(Clone, Copy)]
pub struct Place<'a> {
    /// The segment.
    pub seg: u16,
    /// How many entries of the segment stand before it.
    pub offset: usize,
    /// The entry.
    pub entry: &'a Entry,
    /// Whether a client wrote it.
    pub client: bool,
}

/// Adds the places of a segment's entries, of which the first stands at `offset`.
fn add_places<'a>(
    places: &mut Vec<Place<'a>>,
    seg: u16,
    offset: usize,
    entries: &'a [(Entry, bool)],
) -> Result<(), AllocError>
    requires { offset + length entries.now < 2 ^ 64 }
    ensures { OnOk result (map log_place places.new.items ≡ map log_place places.old.items ++
        places_in seg offset entries.now) }
{
    let mut at = offset;
    for (entry, client) in entries {
        places.push(Place {
            seg,
            offset: at,
            entry,
            client: *client,
        })?;
        at += 1;
    }
    Ok(())
}
