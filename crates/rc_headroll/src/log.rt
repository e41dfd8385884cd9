//! The log.

ghost use Rattle.std.specs.Prelude.{◌≡◌, ◌⊎◌, ◌≤◌, ◌<◌, true, Some, None, Ok, Err, length, nat_lt, All};
ghost use Rattle.std.specs.Prelude.{if◌then◌else◌, OnOk, OnErr, IfOk, IfErr};
ghost use Rattle.std.specs.Option.{option_copied};

use crate::alive::AliveEntry;
use crate::before::Before;
use crate::durable::Counted;
use crate::watch::Watch;
use rc_config::{Segment, heads};
use rc_types::{Phase, ServerId};
use std::alloc::Global;
use std::marker::Model;

/// A master's log: its segments, of which the newest is the head, how much of it is durable, and how much of that was
/// gone over: `durable` is the latter, as in the definitions, and `counted` the former.
/// "The master" in `docs/PROTOCOL.md` has the rules.
pub struct LogHead {
    pub(crate) own: ServerId,
    pub(crate) factor: u8,
    pub(crate) size: u16,
    /// All segments, of which the first is segment 1. At most the last two are not shut.
    pub(crate) segments: Vec<Segment>,
    pub(crate) phase: Phase,
    pub(crate) durable: usize,
    /// How many places have become durable.
    pub(crate) counted: Counted,
    /// How many segments, from the first on, are shut and wholly durable: nobody goes over them again.
    pub(crate) passed: usize,
    /// How many entries these have.
    pub(crate) passed_entries: usize,
    /// Where the log goes back to.
    pub(crate) before: Before,
    /// Which segments the timer goes over.
    pub(crate) watch: Watch,
    /// Of each segment, by its number, an entry that isn't outdated, where one was found.
    pub(crate) alive: Vec<Option<AliveEntry>>,
    /// Whether the head's digest is known to have all that the old head's has.
    pub(crate) whole: bool,
}

impl Drop for LogHead {
    fn drop(self) {
        let LogHead {
            own: _,
            factor: _,
            size: _,
            segments: _,
            phase: _,
            durable: _,
            counted: _,
            passed: _,
            passed_entries: _,
            before: _,
            watch: _,
            alive: _,
            whole: _,
        } = self;
    }
}

impl Model for LogHead {
    ghost use Rattle.rc_headroll.specs.LogData.{LogData};

    ghost Value = { LogData };

    ghost use Rattle.std.specs.Prelude.{length, ◌≤◌};
    ghost use Rattle.rc_headroll.specs.Soundness.{IsSoundLog, IsWatchedLog, IsKnownWhole};
    ghost use Rattle.rc_headroll.specs.Alive.{AreFound};

    ghost view = { λ l. record {
      own = l.own;
      factor = l.factor;
      size = l.size;
      segments = l.segments.items;
      phase = l.phase;
      durable = l.durable;
      counted = l.counted;
      mark = l.before.mark;
      watch = l.watch;
    } };

    ghost invariant = { λ l. IsSoundLog (record {
      own = l.own;
      factor = l.factor;
      size = l.size;
      segments = l.segments.items;
      phase = l.phase;
      durable = l.durable;
      counted = l.counted;
      mark = l.before.mark;
      watch = l.watch;
    }) l.passed l.passed_entries × IsWatchedLog (record {
      own = l.own;
      factor = l.factor;
      size = l.size;
      segments = l.segments.items;
      phase = l.phase;
      durable = l.durable;
      counted = l.counted;
      mark = l.before.mark;
      watch = l.watch;
    }) × (length l.segments.items ≤ l.before.room)
        × AreFound l.segments.items l.alive.items × IsKnownWhole l.segments.items l.whole };
}

impl LogHead {
    ghost use Rattle.rc_model.specs.Log.{new_log, head_of, old_head_of, has_segment, has_old_head, is_opening};
    ghost use Rattle.rc_model.specs.Log.{is_closing, is_writing};
    ghost use Rattle.rc_model.specs.Heads.{is_full};
    ghost use Rattle.rc_headroll.specs.Counts.{counted_anew};
    ghost use Rattle.rc_headroll.specs.LogData.{log_of, before_of};
    ghost use Rattle.rc_headroll.specs.Soundness.{IsKnown};
    ghost use Rattle.rc_types.specs.declared.limits.TheConstants.{MAX_FACTOR, MAX_SEGMENT, LAST_SEGMENT};

    /// The log of this server before its first head, with `factor` replicas of each segment and
    /// `size` entries in each. It takes no memory.
    pub fn new(alloc: Global, own: ServerId, factor: u8, size: u16) -> LogHead
        requires factor { factor ≤ MAX_FACTOR }
        requires size { size ≤ MAX_SEGMENT }
        ensures log { log_of result ≡ new_log own factor size }
        ensures before { before_of result ≡ new_log own factor size }
        ensures counted { result.counted ≡ counted_anew 0 }
    {
        LogHead {
            own,
            factor,
            size,
            segments: Vec::new(alloc),
            phase: Phase::Opening,
            durable: 0,
            counted: Counted { now: 0, before: 0 },
            passed: 0,
            passed_entries: 0,
            before: Before::new(alloc),
            watch: Watch::new(alloc),
            alive: Vec::new(alloc),
            whole: false,
        }
    }

    /// Whose log it is.
    pub fn own(&self) -> ServerId
        ensures { result ≡ self.now.own }
    {
        self.own
    }

    /// What is done with the head. Before the first head it is `Opening`.
    pub fn phase(&self) -> Phase
        ensures { result ≡ self.now.phase }
    {
        self.phase
    }

    /// Whether the head takes entries, if it has room.
    pub fn is_writing(&self) -> bool
        ensures { result ≡ is_writing self.now.phase }
    {
        match self.phase {
            Phase::Writing => true,
            Phase::Opening | Phase::Closing => false,
        }
    }

    /// The number of the newest segment, 0 before the first.
    pub fn head(&self) -> u16
        ensures { result ≡ (log_of self.now).head }
    {
        self.segments.len() as u16
    }

    /// The segment of this number, if there is one.
    pub fn segment(&self, seg: u16) -> Option<&Segment>
        ensures { option_copied result ≡ (if has_segment (log_of self.now) seg
            then Some ((log_of self.now).segments seg) else None) }
    {
        if !self.has(seg) {
            return None;
        }
        Some(&self.segments[usize::from(seg) - 1])
    }

    /// Whether there is a segment of this number.
    pub fn has(&self, seg: u16) -> bool
        ensures { result ≡ has_segment (log_of self.now) seg }
    {
        0 < seg && usize::from(seg) <= self.segments.len()
    }

    /// The newest segment.
    pub fn newest(&self) -> &Segment
        requires { 0 < (log_of self.now).head }
        ensures newest { result.now ≡ head_of (log_of self.now) }
        ensures known { All (IsKnown (log_of self.now).head) result.now.digest }
    {
        heads::newest(self.segments.as_slice())
    }

    /// The segment before the newest one.
    pub fn previous(&self) -> &Segment
        requires { 1 < (log_of self.now).head }
        ensures previous { result.now ≡ old_head_of (log_of self.now) }
        ensures known { All (IsKnown (log_of self.now).head) result.now.digest }
    {
        heads::previous(self.segments.as_slice())
    }

    /// Whether the head takes no further entry.
    pub fn is_full(&self) -> bool
        ensures { result ≡ is_full (log_of self.now) }
    {
        usize::from(self.size) <= self.head_len()
    }

    /// How many entries the newest segment has, 0 before the first.
    pub(crate) fn head_len(&self) -> usize
        ensures { result ≡ length (head_of (log_of self.now)).entries }
    {
        if self.segments.is_empty() {
            return 0;
        }
        self.newest().len()
    }
}
