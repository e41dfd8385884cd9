//! Where a log goes back to.

ghost use Rattle.std.specs.Prelude.{◌≡◌, ◌+◌, ◌^◌, ◌<◌, ◌≤◌, Some, length, OnOk};
ghost use Rattle.std.specs.Option.{option_copied};
ghost use Rattle.rc_config.specs.States.{state_of};
ghost use Rattle.rc_headroll.specs.Before.{first_mark, mark_of, state_at, kept_of, with_kept};
ghost use Rattle.rc_headroll.specs.Before.{segments_before, others_back, other_back, one_back};
ghost use Rattle.rc_config.specs.Lists.{segment_at};

use crate::others::Others;
use rc_config::{Segment, SegmentState};
use rc_types::Phase;
use std::alloc::{AllocError, Global};
use std::marker::Model;

/// Where a log goes back to: how it was when a step began. The newest segment and the one before it are
/// kept at once, and others when they are first changed. Room for these was taken when the segments were opened.
#[derive(Drop)]
pub(crate) struct Before {
    head: usize,
    phase: Phase,
    durable: usize,
    passed: usize,
    passed_entries: usize,
    newest: Option<SegmentState>,
    previous: Option<SegmentState>,
    others: Others,
}

impl Model for Before {
    ghost use Rattle.std.specs.Prelude.{◌≤◌};
    ghost use Rattle.rc_headroll.specs.Before.{WayBack};

    ghost Value = { WayBack };

    ghost view = { λ b. record {
      mark = record {
        head = b.head;
        phase = b.phase;
        durable = b.durable;
        passed = b.passed;
        passed_entries = b.passed_entries;
        newest = b.newest;
        previous = b.previous;
        others = b.others.kept;
      };
      room = b.others.room;
    } };

    ghost invariant = { λ b. b.head ≤ b.others.room };
}

impl Before {
    /// Where a log with no segment goes back to. It takes no memory.
    pub(crate) fn new(alloc: Global) -> Before
        ensures { result.mark ≡ first_mark }
    {
        Before {
            head: 0,
            phase: Phase::Opening,
            durable: 0,
            passed: 0,
            passed_entries: 0,
            newest: None,
            previous: None,
            others: Others::new(alloc),
        }
    }

    /// How many segments there were.
    pub(crate) fn head(&self) -> usize
        ensures { result ≡ self.now.mark.head }
    {
        self.head
    }

    /// The phase that the log was in.
    pub(crate) fn phase(&self) -> Phase
        ensures { result ≡ self.now.mark.phase }
    {
        self.phase
    }

    /// How many places were durable.
    pub(crate) fn durable(&self) -> usize
        ensures { result ≡ self.now.mark.durable }
    {
        self.durable
    }

    /// How many segments had been passed.
    pub(crate) fn passed(&self) -> usize
        ensures { result ≡ self.now.mark.passed }
    {
        self.passed
    }

    /// How many entries those have.
    pub(crate) fn passed_entries(&self) -> usize
        ensures { result ≡ self.now.mark.passed_entries }
    {
        self.passed_entries
    }

    /// What was kept of a segment.
    pub(crate) fn kept(&self, seg: u16) -> Option<&SegmentState>
        ensures { option_copied result ≡ kept_of self.now.mark seg }
    {
        if usize::from(seg) == self.head {
            return self.newest.as_ref();
        }
        if usize::from(seg) + 1 == self.head {
            return self.previous.as_ref();
        }
        self.others.get(seg)
    }

    /// From here on there is room for so many segments. Where memory is refused, there is as much as before.
    pub(crate) fn make_room(&mut self, segments: usize) -> Result<(), AllocError>
        ensures mark { self.new.mark ≡ self.old.mark }
        ensures made { OnOk result (segments ≤ self.new.room) }
        ensures grows { self.old.room ≤ self.new.room }
    {
        self.others.make_room(segments)
    }

    /// Keeps how a segment is now, unless something was kept before, or it is one of the last two, or
    /// newer. It takes no memory.
    pub(crate) fn keep(&mut self, seg: u16, segment: &Segment)
        ensures mark { self.new.mark ≡ with_kept seg (state_of segment.now) self.old.mark }
        ensures room { self.new.room ≡ self.old.room }
    {
        if usize::from(seg) + 1 < self.head && self.others.get(seg).is_none() {
            self.others.add(seg, segment.state());
        }
    }

    /// From here on `put_back` goes back to now. It costs as much as was kept since it was last called.
    pub(crate) fn begin(
        &mut self,
        segments: &[Segment],
        phase: Phase,
        durable: usize,
        passed: usize,
        passed_entries: usize,
    )
        requires { length segments.now ≤ self.old.room }
        ensures mark { self.new.mark ≡ mark_of segments.now phase durable passed passed_entries }
        ensures room { self.new.room ≡ self.old.room }
    {
        self.head = segments.len();
        self.phase = phase;
        self.durable = durable;
        self.passed = passed;
        self.passed_entries = passed_entries;
        self.newest = state_at(segments, 1);
        self.previous = state_at(segments, 2);
        self.others.clear();
    }

    /// Puts all segments back as they were.
    pub(crate) fn put_back(&mut self, segments: &mut [Segment])
        requires { length segments.old ≡ self.old.mark.head }
        ensures back { segment_at segments.new ≡ segments_before self.old.mark (segment_at segments.old) }
        ensures room { self.new.room ≡ self.old.room }
    {
        put_others_back(&mut self.others, self.head, segments);
        put_kept_back(segments, self.head, &self.newest);
        put_kept_back(segments, self.head.saturating_sub(1), &self.previous);
    }
}

/// How the segment is that stands so many places before the end, if there is one.
fn state_at(segments: &[Segment], back: usize) -> Option<SegmentState>
    requires { 0 < back }
    ensures { result ≡ state_at segments.now back }
{
    if segments.len() < back {
        return None;
    }
    Some(segments[segments.len() - back].state())
}

/// Puts back those of the others that are not among the last two.
fn put_others_back(others: &mut Others, head: usize, segments: &mut [Segment])
    requires { head ≤ length segments.old }
    ensures back { segment_at segments.new ≡ others_back head others.old.kept (segment_at segments.old) }
    ensures room { others.new.room ≡ others.old.room }
{
    while let Some((seg, state)) = others.pop() {
        put_other_back(segments, head, usize::from(seg), &state);
    }
}

/// Puts a segment back that is not among the last two.
fn put_other_back(segments: &mut [Segment], head: usize, seg: usize, state: &SegmentState)
    requires few { head ≤ length segments.old }
    requires small { seg + 1 < 2 ^ 64 }
    ensures { segment_at segments.new ≡ other_back head seg state.now (segment_at segments.old) }
{
    if 0 < seg && seg + 1 < head {
        put_one_back(segments, seg, state);
    }
}

/// Puts a segment back of which something was kept.
fn put_kept_back(segments: &mut [Segment], seg: usize, kept: &Option<SegmentState>)
    requires { seg ≤ length segments.old }
    ensures { segment_at segments.new ≡ one_back seg kept.now (segment_at segments.old) }
{
    if let Some(state) = kept {
        put_one_back(segments, seg, state);
    }
}

/// Puts a segment back, if the number is of one.
fn put_one_back(segments: &mut [Segment], seg: usize, state: &SegmentState)
    requires { seg ≤ length segments.old }
    ensures { segment_at segments.new ≡ one_back seg (Some state.now) (segment_at segments.old) }
{
    if 0 < seg {
        segments[seg - 1].put_back(state);
    }
}
