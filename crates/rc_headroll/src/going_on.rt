//! The log goes on: a new head is placed, the old one closed, and the new one writes.

ghost use Rattle.std.specs.Prelude.{◌≡◌, ◌<◌, ◌∷◌, [], true, length, filter, not, nat_eq, slice_index_or, is_some};
ghost use Rattle.std.specs.Prelude.{unwrap_or, IfOk};
ghost use Rattle.std.specs.List.{list_any};
ghost use Rattle.rc_model.specs.Log.{head_of, old_head_of, has_segment, with_segment, durable_now};
ghost use Rattle.rc_model.specs.Heads.{shuts, with_shut, may_start, may_close, may_write, starts, closes_old};
ghost use Rattle.rc_model.specs.Heads.{left_out, with_freed, writes_on};
ghost use Rattle.rc_model.specs.FollowUps.{close_is_due, close_marked};
ghost use Rattle.rc_headroll.specs.Advancing.{advanced, advances, next_phase};
ghost use Rattle.rc_headroll.specs.Before.{IsKept};
ghost use Rattle.rc_headroll.specs.Counts.{with_counted};
ghost use Rattle.rc_headroll.specs.LogData.{log_of, before_of};

use crate::log::LogHead;
use crate::opening::has_number;
use rc_config::heads;
use rc_types::Phase;
use std::alloc::{AllocError, Global};

impl LogHead {
    /// Marks the old head shut where it is closed on all its members, under a committed epoch. Then the first of these
    /// is done that may be: the first head writes, since it is placed on all its members under a committed epoch; the
    /// old head is to be closed, since the new one is placed on all its members; the new head writes, since the old one
    /// is shut and the new one is placed on all its members under a committed epoch, and the segments that its digest
    /// leaves out are freed. The answer says whether one was done. What has become durable is counted. It takes no
    /// memory.
    pub fn advance(&mut self) -> bool
        ensures advances { result ≡ advances (log_of self.old) }
        ensures state { log_of self.new ≡ advanced (log_of self.old) }
        ensures before { before_of self.new ≡ before_of self.old }
        ensures counted { self.new.counted ≡ with_counted (durable_now (log_of self.new)) self.old.counted }
    {
        self.mark_shut();
        let goes_on = self.go_on();
        self.count_durable();
        goes_on
    }

    /// The first of the three ways in which the phase goes on, if one may be.
    fn go_on(&mut self) -> bool
        ensures advances { result ≡ is_some (next_phase (log_of self.old)) }
        ensures state { log_of self.new ≡ unwrap_or (next_phase (log_of self.old)) (log_of self.old) }
        ensures before { before_of self.new ≡ before_of self.old }
        ensures counted { self.new.counted ≡ self.old.counted }
    {
        if self.may_start() {
            self.start();
        } else if self.may_close() {
            self.close_old();
        } else if self.may_write() {
            self.write_on();
        } else {
            return false;
        }
        true
    }

    /// Whether the old head is closed on all its members, under a committed epoch.
    fn shuts(&self) -> bool
        ensures { result ≡ shuts (log_of self.now) }
    {
        heads::shuts(self.segments.as_slice())
    }

    /// Marks the old head shut where it is closed on all its members, under a committed epoch.
    pub fn mark_shut(&mut self)
        ensures state { log_of self.new ≡ with_shut (log_of self.old) }
        ensures before { before_of self.new ≡ before_of self.old }
        ensures counted { self.new.counted ≡ self.old.counted }
    {
        if self.shuts() {
            let old = self.segments.len() - 2;
            self.segments[old].mark_shut();
        }
    }

    /// Whether the first head can write: it is placed on all its members, under a committed epoch.
    fn may_start(&self) -> bool
        ensures { result ≡ may_start (log_of self.now) }
    {
        heads::may_start(self.phase, self.segments.as_slice())
    }

    /// The first head writes.
    fn start(&mut self)
        requires { may_start (log_of self.old) ≡ true }
        ensures state { log_of self.new ≡ starts (log_of self.old) }
        ensures before { before_of self.new ≡ before_of self.old }
        ensures counted { self.new.counted ≡ self.old.counted }
    {
        self.phase = Phase::Writing;
    }

    /// Whether the old head can be closed: the new one is placed on all its members.
    fn may_close(&self) -> bool
        ensures { result ≡ may_close (log_of self.now) }
    {
        heads::may_close(self.phase, self.segments.as_slice())
    }

    /// The old head is being closed.
    fn close_old(&mut self)
        requires { may_close (log_of self.old) ≡ true }
        ensures state { log_of self.new ≡ closes_old (log_of self.old) }
        ensures before { before_of self.new ≡ before_of self.old }
        ensures counted { self.new.counted ≡ self.old.counted }
    {
        self.phase = Phase::Closing;
    }

    /// Whether a Close is to be sent to members of the old head: their epoch is committed, and to some of
    /// them none was sent under it.
    pub fn close_is_due(&self) -> bool
        ensures { result ≡ close_is_due (log_of self.now) }
    {
        heads::close_is_due(self.phase, self.segments.as_slice())
    }

    /// Marks that a Close was sent to each of the old head's members.
    pub fn mark_close_sent(&mut self)
        requires { close_is_due (log_of self.old) ≡ true }
        ensures state { log_of self.new ≡ close_marked (log_of self.old) }
        ensures before { before_of self.new ≡ before_of self.old }
        ensures counted { self.new.counted ≡ self.old.counted }
    {
        let old = self.segments.len() - 2;
        self.segments[old].mark_close_sent();
    }

    /// Marks that a Commit of the present epoch of a segment was sent. It takes no memory.
    pub fn mark_commit_sent(&mut self, seg: u16)
        requires { has_segment (log_of self.old) seg ≡ true }
        ensures marked { log_of self.new ≡ with_segment seg
            (record ((log_of self.old).segments seg) { commit_sent = true }) (log_of self.old) }
        ensures before { before_of self.new ≡ before_of self.old }
        ensures counted { self.new.counted ≡ self.old.counted }
    {
        self.keep(seg);
        self.mark_commit(seg);
    }

    /// Marks that a Commit was sent of a segment that is kept.
    fn mark_commit(&mut self, seg: u16)
        requires has { has_segment (log_of self.old) seg ≡ true }
        requires kept { IsKept self.old.mark seg }
        ensures marked { log_of self.new ≡ with_segment seg
            (record ((log_of self.old).segments seg) { commit_sent = true }) (log_of self.old) }
        ensures before { before_of self.new ≡ before_of self.old }
        ensures counted { self.new.counted ≡ self.old.counted }
    {
        self.segments[usize::from(seg) - 1].mark_commit_sent();
    }

    /// Whether the new head can write: the old one is shut, and the new one is placed on all its
    /// members, under a committed epoch.
    fn may_write(&self) -> bool
        ensures { result ≡ may_write (log_of self.now) }
    {
        heads::may_write(self.phase, self.segments.as_slice())
    }

    /// The segments that the old head's digest has and the new one's lacks.
    pub fn left_out(&self, alloc: Global) -> Result<Vec<u16>, AllocError>
        ensures { IfOk result (λ segs. segs.items ≡ left_out (log_of self.now)) }
    {
        if self.whole {
            return Ok(Vec::new(alloc));
        }
        if self.segments.len() < 2 {
            return Ok(Vec::new(alloc));
        }
        lacking(alloc, self.previous().digest(), self.newest().digest())
    }

    /// The new head writes, and the segments that its digest leaves out are freed.
    fn write_on(&mut self)
        requires { may_write (log_of self.old) ≡ true }
        ensures written { log_of self.new ≡ writes_on (log_of self.old) }
        ensures before { before_of self.new ≡ before_of self.old }
        ensures counted { self.new.counted ≡ self.old.counted }
    {
        self.begin_writing();
        self.free_left_out();
    }

    /// The new head writes.
    fn begin_writing(&mut self)
        requires { may_write (log_of self.old) ≡ true }
        ensures writing { log_of self.new ≡ starts (log_of self.old) }
        ensures before { before_of self.new ≡ before_of self.old }
        ensures counted { self.new.counted ≡ self.old.counted }
    {
        self.phase = Phase::Writing;
    }

    /// Frees the segments that the head's digest leaves out: none, where it has all of the old head's.
    fn free_left_out(&mut self)
        requires { 1 < (log_of self.old).head }
        ensures freed { log_of self.new ≡ with_freed (left_out (log_of self.old)) (log_of self.old) }
        ensures before { before_of self.new ≡ before_of self.old }
        ensures counted { self.new.counted ≡ self.old.counted }
    {
        if self.whole {
            return;
        }
        self.free_each();
    }

    /// Frees the segments that the head's digest leaves out. It goes over the old head's digest once, and over the
    /// head's once more for each that this lacks.
    fn free_each(&mut self)
        requires { 1 < (log_of self.old).head }
        ensures freed { log_of self.new ≡ with_freed (left_out (log_of self.old)) (log_of self.old) }
        ensures before { before_of self.new ≡ before_of self.old }
        ensures counted { self.new.counted ≡ self.old.counted }
    {
        let count = self.previous().digest().len();
        let mut place = 0;
        for index in 0..count {
            if self.stands(index, place) {
                place += 1;
            } else {
                self.free_if_left_out(index);
            }
        }
    }

    /// Whether the number at `index` of the old head's digest stands at `place` of the head's.
    fn stands(&self, index: usize, place: usize) -> bool
        requires more { 1 < (log_of self.now).head }
        requires within { index < length (old_head_of (log_of self.now)).digest }
        ensures within { result ≡ true → place < length (head_of (log_of self.now)).digest }
        ensures among { result ≡ true →
            list_any (nat_eq (slice_index_or (old_head_of (log_of self.now)).digest index 0))
            (head_of (log_of self.now)).digest ≡ true }
    {
        stands_at(
            self.newest().digest(),
            place,
            self.previous().digest()[index],
        )
    }

    /// Frees the segment at this place of the old head's digest, if the head's digest leaves it out.
    fn free_if_left_out(&mut self, index: usize)
        requires more { 1 < (log_of self.old).head }
        requires within { index < length (old_head_of (log_of self.old)).digest }
        ensures freed { log_of self.new ≡
            with_freed (filter (λ seg. not (list_any (nat_eq seg) (head_of (log_of self.old)).digest))
            (slice_index_or (old_head_of (log_of self.old)).digest index 0 ∷ [])) (log_of self.old) }
        ensures before { before_of self.new ≡ before_of self.old }
        ensures counted { self.new.counted ≡ self.old.counted }
    {
        let seg = self.previous().digest()[index];
        if !has_number(self.newest().digest(), seg) {
            self.free(seg);
        }
    }

    /// Marks a segment freed.
    fn free(&mut self, seg: u16)
        requires { has_segment (log_of self.old) seg ≡ true }
        ensures freed { log_of self.new ≡
            with_segment seg (record ((log_of self.old).segments seg) { freed = true }) (log_of self.old) }
        ensures before { before_of self.new ≡ before_of self.old }
        ensures counted { self.new.counted ≡ self.old.counted }
    {
        self.keep(seg);
        self.mark_freed(seg);
    }

    /// Marks a segment freed that is kept.
    fn mark_freed(&mut self, seg: u16)
        requires has { has_segment (log_of self.old) seg ≡ true }
        requires kept { IsKept self.old.mark seg }
        ensures freed { log_of self.new ≡
            with_segment seg (record ((log_of self.old).segments seg) { freed = true }) (log_of self.old) }
        ensures before { before_of self.new ≡ before_of self.old }
        ensures counted { self.new.counted ≡ self.old.counted }
    {
        self.segments[usize::from(seg) - 1].mark_freed();
    }
}

/// Those of the numbers that the others lack. Where the others are these without some, it goes over them once, and once
/// more for each that they lack.
fn lacking(alloc: Global, numbers: &[u16], others: &[u16]) -> Result<Vec<u16>, AllocError>
    ensures { IfOk result (λ rest. rest.items ≡ filter (λ seg. not (list_any (nat_eq seg) others.now)) numbers.now) }
{
    let mut rest = Vec::new(alloc);
    let mut place = 0;
    for number in numbers {
        if stands_at(others, place, *number) {
            place += 1;
        } else if !has_number(others, *number) {
            rest.push(*number)?;
        }
    }
    Ok(rest)
}

/// Whether the number stands at this place of these.
fn stands_at(numbers: &[u16], place: usize, number: u16) -> bool
    ensures within { result ≡ true → place < length numbers.now }
    ensures among { result ≡ true → list_any (nat_eq number) numbers.now ≡ true }
{
    match numbers.get(place) {
        Some(other) => number == *other,
        None => false,
    }
}
