//! Which segments the timer and a new server list go over.

ghost use Rattle.std.specs.Prelude.{◌≡◌, ◌<◌, ◌≤◌, ℕ, true, false, OnOk, OnErr, IfOk, IfSome};
ghost use Rattle.rc_model.specs.Log.{has_segment};
ghost use Rattle.rc_headroll.specs.LogData.{log_of, before_of};
ghost use Rattle.rc_headroll.specs.Soundness.{IsRoused};
ghost use Rattle.rc_config.specs.Resting.{wants_nothing};
ghost use Rattle.rc_headroll.specs.Watching.{is_awake, is_on_file};

use crate::log::LogHead;
use rc_serverlist::ServerList;
use std::alloc::AllocError;

impl LogHead {
    /// The next segment after this one that may want something of the timer: that is open, or under an
    /// epoch that isn't committed, or that was not freed and has a member which has told nothing, or which is lost and
    /// may be replaced. Each one that is passed over wants nothing.
    pub fn next_awake(&self, done: u16) -> Option<u16>
        ensures later { IfSome result (λ seg. done < seg) }
        ensures known { IfSome result (λ seg. has_segment (log_of self.now) seg ≡ true) }
        ensures others { (other : ℕ) → done < other → other ≤ (log_of self.now).head →
            IfSome result (λ seg. other < seg) → wants_nothing ((log_of self.now).segments other) ≡ true }
        ensures asleep { (other : ℕ) → done < other → other ≤ (log_of self.now).head →
            IfSome result (λ seg. other < seg) → is_awake self.now.watch other ≡ false }
    {
        let seg = self.watch.next(done)?;
        if !self.has(seg) {
            return None;
        }
        Some(seg)
    }

    /// From here on the timer goes over the segment.
    pub(crate) fn wake(&mut self, seg: u16) -> Result<(), AllocError>
        ensures log { log_of self.new ≡ log_of self.old }
        ensures before { before_of self.new ≡ before_of self.old }
        ensures counted { self.new.counted ≡ self.old.counted }
        ensures awake { OnOk result (is_awake self.new.watch seg ≡ true) }
        ensures others { (other : ℕ) → is_awake self.old.watch other ≡ true → is_awake self.new.watch other ≡ true }
    {
        self.watch.wake(seg)
    }

    /// From here on the timer goes over each segment that was not freed and has a member which is lost or
    /// which the list shows crashed, but for those whose lost members nobody of the list can replace. It looks at the
    /// ids of members that are on file, once, and at no other segment than those of which a member has crashed, and,
    /// where the list is another one, those that were stuck. Where memory is refused, the log is as it was.
    pub fn rouse(&mut self, servers: &ServerList) -> Result<(), AllocError>
        ensures log { log_of self.new ≡ log_of self.old }
        ensures before { before_of self.new ≡ before_of self.old }
        ensures counted { self.new.counted ≡ self.old.counted }
        ensures roused { OnOk result (IsRoused servers.now self.new) }
    {
        self.watch.wake_crashed(servers)
    }

    /// Lets each segment go that wants nothing, of those that the timer goes over. A step comes to it only at
    /// its beginning. Where memory is refused, the log is as it was.
    pub fn rest(&mut self) -> Result<(), AllocError>
        requires { before_of self.old ≡ log_of self.old }
        ensures log { log_of self.new ≡ log_of self.old }
        ensures before { before_of self.new ≡ before_of self.old }
        ensures counted { self.new.counted ≡ self.old.counted }
    {
        self.rest_after(0)
    }

    /// Lets those go that want nothing, of the last three segments: one that was shut when the last step ended is
    /// among them, save where that step opened several heads. Where memory is refused, the log is as it was.
    pub fn rest_newest(&mut self) -> Result<(), AllocError>
        requires { before_of self.old ≡ log_of self.old }
        ensures log { log_of self.new ≡ log_of self.old }
        ensures before { before_of self.new ≡ before_of self.old }
        ensures counted { self.new.counted ≡ self.old.counted }
    {
        self.rest_after(self.head().saturating_sub(3))
    }

    /// Lets those go that want nothing, of the segments after this one.
    fn rest_after(&mut self, seg: u16) -> Result<(), AllocError>
        requires { before_of self.old ≡ log_of self.old }
        ensures log { log_of self.new ≡ log_of self.old }
        ensures before { before_of self.new ≡ before_of self.old }
        ensures counted { self.new.counted ≡ self.old.counted }
    {
        let mut done = seg;
        while let Some(seg) = self.next_awake(done) {
            self.let_go(seg)?;
            done = seg;
        }
        Ok(())
    }

    /// Files a segment and lets it go, if it wants nothing and a list that concerns it finds it again.
    fn let_go(&mut self, seg: u16) -> Result<(), AllocError>
        requires known { has_segment (log_of self.old) seg ≡ true }
        requires same { before_of self.old ≡ log_of self.old }
        ensures log { log_of self.new ≡ log_of self.old }
        ensures before { before_of self.new ≡ before_of self.old }
        ensures counted { self.new.counted ≡ self.old.counted }
    {
        if !self.segments[usize::from(seg) - 1].wants_nothing() {
            return Ok(());
        }
        if self.file(seg)? {
            self.pass_over(seg);
        }
        Ok(())
    }

    /// Files a segment, if it wasn't freed: under each of its members, or as one that is stuck. The answer says whether
    /// it may be passed over, if it wants nothing. Where memory is refused, the log is as it was.
    fn file(&mut self, seg: u16) -> Result<bool, AllocError>
        requires { has_segment (log_of self.old) seg ≡ true }
        ensures log { log_of self.new ≡ log_of self.old }
        ensures before { before_of self.new ≡ before_of self.old }
        ensures counted { self.new.counted ≡ self.old.counted }
        ensures filed { IfOk result (λ filed. filed ≡ true →
            is_on_file self.new.own self.new.watch seg ((log_of self.new).segments seg) ≡ true) }
    {
        let segment = &self.segments[usize::from(seg) - 1];
        if segment.is_freed() {
            return Ok(true);
        }
        self.watch.file(self.own, seg, segment.config())
    }

    /// From here on the timer passes over a segment that wants nothing and is on file.
    fn pass_over(&mut self, seg: u16)
        requires same { before_of self.old ≡ log_of self.old }
        requires nothing { wants_nothing ((log_of self.old).segments seg) ≡ true }
        requires filed { is_on_file self.old.own self.old.watch seg ((log_of self.old).segments seg) ≡ true }
        ensures log { log_of self.new ≡ log_of self.old }
        ensures before { before_of self.new ≡ before_of self.old }
        ensures counted { self.new.counted ≡ self.old.counted }
    {
        self.watch.let_go(seg);
    }
}
