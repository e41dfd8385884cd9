//! The log goes back to where a step began.

ghost use Rattle.std.specs.Prelude.{◌≡◌, true};
ghost use Rattle.rc_model.specs.Log.{has_segment};
ghost use Rattle.std.specs.List.{list_any};
ghost use Rattle.rc_model.specs.Ids.{same_id};
ghost use Rattle.rc_model.specs.MasterTick.{stood};
ghost use Rattle.rc_headroll.specs.Before.{IsKept};
ghost use Rattle.rc_headroll.specs.Counts.{counted_anew};
ghost use Rattle.rc_headroll.specs.LogData.{log_of, before_of};

use crate::durable::Counted;
use crate::log::LogHead;
use rc_config::Config;
use rc_types::ServerId;

impl LogHead {
    /// From here on `restore` goes back to now. It takes no memory.
    pub fn begin(&mut self)
        ensures log { log_of self.new ≡ log_of self.old }
        ensures before { before_of self.new ≡ log_of self.old }
        ensures counted { self.new.counted ≡ counted_anew self.old.counted.now }
    {
        self.begin_log();
        self.count_from(self.counted.now);
    }

    /// So many places have become durable, as when the step began.
    fn count_from(&mut self, count: usize)
        ensures log { log_of self.new ≡ log_of self.old }
        ensures before { before_of self.new ≡ before_of self.old }
        ensures counted { self.new.counted ≡ counted_anew count }
    {
        self.counted = Counted {
            now: count,
            before: count,
        };
    }

    /// From here on `restore_log` goes back to now.
    fn begin_log(&mut self)
        ensures log { log_of self.new ≡ log_of self.old }
        ensures before { before_of self.new ≡ log_of self.old }
        ensures counted { self.new.counted ≡ self.old.counted }
    {
        self.before.begin(
            self.segments.as_slice(),
            self.phase,
            self.durable,
            self.passed,
            self.passed_entries,
        );
    }

    /// The log becomes as it was at the last `begin`, or as `new` made it. It takes no memory.
    pub fn restore(&mut self)
        ensures log { log_of self.new ≡ before_of self.old }
        ensures before { before_of self.new ≡ before_of self.old }
        ensures counted { self.new.counted ≡ counted_anew self.old.counted.before }
    {
        self.restore_log();
        self.count_from(self.counted.before);
    }

    /// The log becomes as it was, but for what is counted.
    fn restore_log(&mut self)
        ensures log { log_of self.new ≡ before_of self.old }
        ensures before { before_of self.new ≡ before_of self.old }
        ensures counted { self.new.counted ≡ self.old.counted }
    {
        self.alive.clear();
        self.whole = false;
        self.segments.truncate(self.before.head());
        self.phase = self.before.phase();
        self.durable = self.before.durable();
        self.passed = self.before.passed();
        self.passed_entries = self.before.passed_entries();
        self.before.put_back(self.segments.as_mut_slice());
        self.before.begin(
            self.segments.as_slice(),
            self.phase,
            self.durable,
            self.passed,
            self.passed_entries,
        );
    }

    /// Whether the id was a member of the segment under its present epoch at the last `begin`.
    pub fn stood(&self, seg: u16, id: ServerId) -> bool
        ensures { result ≡ stood (before_of self.now) (log_of self.now) seg id }
    {
        if seg == 0 || self.before.head() < usize::from(seg) {
            return false;
        }
        let now = self.segments[usize::from(seg) - 1].config();
        match self.before.kept(seg) {
            None => has_member(now, id),
            Some(state) => state.config.epoch() == now.epoch() && has_member(&state.config, id),
        }
    }

    /// Keeps how a segment is now, so that `restore` can put it back. It comes before each change of a
    /// segment that need not be one of the last two. It takes no memory: room was taken when the segment was opened.
    pub(crate) fn keep(&mut self, seg: u16)
        requires { has_segment (log_of self.old) seg ≡ true }
        ensures log { log_of self.new ≡ log_of self.old }
        ensures before { before_of self.new ≡ before_of self.old }
        ensures counted { self.new.counted ≡ self.old.counted }
        ensures kept { IsKept self.new.mark seg }
        ensures watch { self.new.watch ≡ self.old.watch }
    {
        self.before.keep(seg, &self.segments[usize::from(seg) - 1]);
    }
}

/// Whether the id is that of a member.
fn has_member(config: &Config, id: ServerId) -> bool
    ensures { result ≡ list_any (λ member. same_id id member.id) config.now.members }
{
    config.members().iter().any(|member| id == member.id)
}
