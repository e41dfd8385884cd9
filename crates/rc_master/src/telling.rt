//! What members, the coordinator and other backups tell a master.

ghost use Rattle.std.specs.Prelude.{◌≡◌, OnOk};
ghost use Rattle.rc_model.specs.Heads.{stored, commit_noted};
ghost use Rattle.rc_model.specs.Ownership.{put_data};
ghost use Rattle.rc_model.specs.Master.{with_log};
ghost use Rattle.rc_headroll.specs.LogData.{log_of};
ghost use Rattle.rc_master.specs.View.{state_view, before_step, IsNoted};

use crate::state::State;
use rc_types::{Entry, ServerId};
use std::alloc::AllocError;

impl State {
    /// What a member stores of a segment. It takes no memory.
    pub(crate) fn take_stored(
        &mut self,
        from: ServerId,
        seg: u16,
        epoch: u16,
        len: usize,
        closed: bool,
    )
        requires noted { IsNoted self.old }
        ensures state { state_view self.new ≡ with_log (state_view self.old)
            (stored seg from epoch len closed (log_of self.old.log)) }
        ensures noted { IsNoted self.new }
        ensures before { before_step self.new ≡ before_step self.old }
    {
        self.log.stored(seg, from, epoch, len, closed);
    }

    /// An epoch of a segment is committed. It takes no memory.
    pub(crate) fn take_committed(&mut self, seg: u16, epoch: u16)
        requires noted { IsNoted self.old }
        ensures state { state_view self.new ≡ with_log (state_view self.old)
            (commit_noted seg epoch (log_of self.old.log)) }
        ensures noted { IsNoted self.new }
        ensures before { before_step self.new ≡ before_step self.old }
    {
        self.log.committed_at(seg, epoch);
    }

    /// The entries of a row of a crashed master's log.
    pub(crate) fn take_data(
        &mut self,
        from: ServerId,
        seg: u16,
        term: u32,
        entries: &[Entry],
    ) -> Result<(), AllocError>
        requires noted { IsNoted self.old }
        ensures state { OnOk result (state_view self.new ≡
            record (state_view self.old) { ownership = put_data term seg from entries.now self.old.ownership.own }) }
        ensures noted { OnOk result (IsNoted self.new) }
        ensures before { before_step self.new ≡ before_step self.old }
    {
        self.ownership
            .put_data(self.alloc, term, seg, from, entries)?;
        Ok(())
    }
}
