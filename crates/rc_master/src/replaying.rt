//! Entries of crashed masters' logs are appended anew, and the end of a part is told.

ghost use Rattle.std.specs.Prelude.{◌≡◌, ◌++◌, true, IfOk, OnOk};
ghost use Rattle.rc_model.specs.Log.{is_writing};
ghost use Rattle.rc_model.specs.FollowUps.{follows_data, follows_replay};
ghost use Rattle.rc_master.specs.Rules.{did, or_still, full_replays};
ghost use Rattle.rc_master.specs.View.{state_view, before_step, IsNoted};

use crate::state::State;
use crate::told_parts::tell_part;
use rc_types::{Fault, Message};
use std::alloc::AllocError;

impl State {
    /// The first entry that waits is appended, where the head writes; a full head is rolled, where that
    /// can be.
    pub(crate) fn follow_data(&mut self, sent: &mut Vec<Message>) -> Result<bool, AllocError>
        requires noted { IsNoted self.old }
        ensures applied { IfOk result (λ applied. applied ≡ did (follows_data (state_view self.old))) }
        ensures state { OnOk result
            (state_view self.new ≡ (or_still (state_view self.old) (follows_data (state_view self.old))).0) }
        ensures sends { OnOk result (sent.new.items ≡ sent.old.items ++
            (or_still (state_view self.old) (follows_data (state_view self.old))).1) }
        ensures noted { OnOk result (IsNoted self.new) }
        ensures before { before_step self.new ≡ before_step self.old }
    {
        if !self.log.is_writing() || !self.ownership.has_replay() {
            return Ok(false);
        }
        if self.log.is_full() {
            return self.roll_for_replay(sent);
        }
        let Some(entry) = self.ownership.next_replay(self.alloc)? else {
            return Ok(false);
        };
        self.append(entry, false, sent)?;
        Ok(true)
    }

    /// The head is full: a roll begins, if it can.
    fn roll_for_replay(&mut self, sent: &mut Vec<Message>) -> Result<bool, AllocError>
        requires noted { IsNoted self.old }
        requires writing { is_writing self.old.log.phase ≡ true }
        ensures applied { IfOk result (λ applied. applied ≡ did (full_replays (state_view self.old))) }
        ensures state { OnOk result
            (state_view self.new ≡ (or_still (state_view self.old) (full_replays (state_view self.old))).0) }
        ensures sends { OnOk result (sent.new.items ≡ sent.old.items ++
            (or_still (state_view self.old) (full_replays (state_view self.old))).1) }
        ensures noted { OnOk result (IsNoted self.new) }
        ensures before { before_step self.new ≡ before_step self.old }
    {
        match self.roll(sent) {
            Ok(()) => Ok(true),
            Err(Fault::OutOfMemory) => Err(AllocError),
            Err(_) => Ok(false),
        }
    }

    /// The end of the first part that is complete is told, once.
    pub(crate) fn follow_replay(&mut self, sent: &mut Vec<Message>) -> Result<bool, AllocError>
        requires noted { IsNoted self.old }
        ensures applied { IfOk result (λ applied. applied ≡ did (follows_replay (state_view self.old))) }
        ensures state { OnOk result
            (state_view self.new ≡ (or_still (state_view self.old) (follows_replay (state_view self.old))).0) }
        ensures sends { OnOk result (sent.new.items ≡ sent.old.items ++
            (or_still (state_view self.old) (follows_replay (state_view self.old))).1) }
        ensures noted { OnOk result (IsNoted self.new) }
        ensures before { before_step self.new ≡ before_step self.old }
    {
        let own = self.log.own();
        tell_part(own, &mut self.ownership, self.tasks.as_slice(), sent)
    }
}
