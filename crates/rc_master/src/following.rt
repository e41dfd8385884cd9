//! The rules that a master follows up each input with, but for the replay's.

ghost use Rattle.std.specs.Prelude.{◌≡◌, ◌++◌, true, false, IfOk, OnOk};
ghost use Rattle.rc_model.specs.Log.{has_segment};
ghost use Rattle.rc_model.specs.Heads.{left_out};
ghost use Rattle.rc_model.specs.FollowUps.{follows_closing, wants_commit, follows_change, follows_stored, follow_up};
ghost use Rattle.rc_model.specs.FollowUps.{marks_shut, close_is_due, frees_segments, goes_on};
ghost use Rattle.rc_headroll.specs.LogData.{log_of};
ghost use Rattle.rc_master.specs.Rules.{did, or_still, does, settled, follows_phase, follows_rest};
ghost use Rattle.rc_master.specs.Rules.{tells_phase, tells_ready};
ghost use Rattle.rc_master.specs.Quiet.{IsQuiet};
ghost use Rattle.rc_master.specs.View.{state_view, before_step, IsNoted};

use crate::acknowledging::acknowledge;
use crate::closing::{add_closes, add_frees};
use crate::single::{commit, ready};
use crate::state::State;
use rc_types::{Message, Phase};
use std::alloc::AllocError;

/// A rule that a master follows up with, of those that come after the rules of the phase.
#[derive(Clone, Copy)]
enum Rule {
    Change,
    Stored,
    Data,
    Replay,
}

/// Each of them, in the order in which they are tried.
const RULES: [Rule; 4] = [Rule::Change, Rule::Stored, Rule::Data, Rule::Replay];

impl State {
    /// What is shut is marked, and the phase goes on, if it may. The first head writes, once it is placed
    /// on all its members: the master is ready. The old head is to be closed, once the new one is placed on
    /// all its members. The new head writes, once the old one is shut and the new one is placed under a
    /// committed epoch: segments that its digest leaves out are freed.
    fn follow_phase(&mut self, sent: &mut Vec<Message>) -> Result<bool, AllocError>
        requires noted { IsNoted self.old }
        ensures applied { IfOk result (λ applied. applied ≡ did (follows_phase (marks_shut (state_view self.old)))) }
        ensures state { OnOk result
            (state_view self.new ≡ (or_still (marks_shut (state_view self.old))
            (follows_phase (marks_shut (state_view self.old)))).0) }
        ensures sends { OnOk result (sent.new.items ≡ sent.old.items ++
            (or_still (marks_shut (state_view self.old)) (follows_phase (marks_shut (state_view self.old)))).1) }
        ensures noted { OnOk result (IsNoted self.new) }
        ensures before { before_step self.new ≡ before_step self.old }
    {
        let was = self.log.phase();
        if !self.log.advance() {
            return Ok(false);
        }
        self.tell_phase(was, sent)?;
        Ok(true)
    }

    /// Tells what comes of it that the phase has gone on from this one.
    fn tell_phase(&self, was: Phase, sent: &mut Vec<Message>) -> Result<(), AllocError>
        ensures { OnOk result (sent.new.items ≡ sent.old.items ++ tells_phase was (log_of self.now.log)) }
    {
        match was {
            Phase::Opening => self.tell_ready(sent),
            Phase::Closing => self.tell_freed(sent),
            Phase::Writing => Ok(()),
        }
    }

    /// Tells that the master is ready, if its first head writes.
    fn tell_ready(&self, sent: &mut Vec<Message>) -> Result<(), AllocError>
        ensures { OnOk result (sent.new.items ≡ sent.old.items ++ tells_ready (log_of self.now.log)) }
    {
        if self.log.is_writing() {
            sent.push(ready(self.log.own()))?;
        }
        Ok(())
    }

    /// Frees the segments that the head's digest leaves out, at their members.
    fn tell_freed(&self, sent: &mut Vec<Message>) -> Result<(), AllocError>
        ensures { OnOk result (sent.new.items ≡ sent.old.items ++
            frees_segments (log_of self.now.log) (left_out (log_of self.now.log))) }
    {
        let freed = self.log.left_out(self.alloc)?;
        add_frees(&self.log, freed.as_slice(), sent)
    }

    /// Close goes to each old member, once under each committed epoch.
    fn follow_closing(&mut self, sent: &mut Vec<Message>) -> Result<bool, AllocError>
        requires noted { IsNoted self.old }
        ensures applied { IfOk result (λ applied. applied ≡ did (follows_closing (state_view self.old))) }
        ensures state { OnOk result
            (state_view self.new ≡ (or_still (state_view self.old) (follows_closing (state_view self.old))).0) }
        ensures sends { OnOk result (sent.new.items ≡ sent.old.items ++
            (or_still (state_view self.old) (follows_closing (state_view self.old))).1) }
        ensures noted { OnOk result (IsNoted self.new) }
        ensures before { before_step self.new ≡ before_step self.old }
    {
        if !self.log.close_is_due() {
            return Ok(false);
        }
        add_closes(&self.log, sent)?;
        self.log.mark_close_sent();
        Ok(true)
    }

    /// Commit of the first segment that isn't shut, where its members have changed and all have it.
    fn follow_change(&mut self, sent: &mut Vec<Message>) -> Result<bool, AllocError>
        requires noted { IsNoted self.old }
        ensures applied { IfOk result (λ applied. applied ≡ did (follows_change (state_view self.old))) }
        ensures state { OnOk result
            (state_view self.new ≡ (or_still (state_view self.old) (follows_change (state_view self.old))).0) }
        ensures sends { OnOk result (sent.new.items ≡ sent.old.items ++
            (or_still (state_view self.old) (follows_change (state_view self.old))).1) }
        ensures noted { OnOk result (IsNoted self.new) }
        ensures before { before_step self.new ≡ before_step self.old }
    {
        let Some(seg) = self.log.first_open() else {
            return Ok(false);
        };
        if !self.wants_commit(seg) {
            return Ok(false);
        }
        sent.push(commit(&self.log, seg))?;
        self.log.mark_commit_sent(seg);
        Ok(true)
    }

    /// Whether a Commit of this segment's epoch is to be sent.
    fn wants_commit(&self, seg: u16) -> bool
        requires { has_segment (log_of self.now.log) seg ≡ true }
        ensures { result ≡ wants_commit ((log_of self.now.log).segments seg) }
    {
        match self.log.segment(seg) {
            Some(segment) => segment.wants_commit(),
            None => false,
        }
    }

    /// What all members have is durable for good, and each client's write there is acknowledged.
    fn follow_stored(&mut self, sent: &mut Vec<Message>) -> Result<bool, AllocError>
        requires noted { IsNoted self.old }
        ensures applied { IfOk result (λ applied. applied ≡ did (follows_stored (state_view self.old))) }
        ensures state { OnOk result
            (state_view self.new ≡ (or_still (state_view self.old) (follows_stored (state_view self.old))).0) }
        ensures sends { OnOk result (sent.new.items ≡ sent.old.items ++
            (or_still (state_view self.old) (follows_stored (state_view self.old))).1) }
        ensures noted { OnOk result (IsNoted self.new) }
        ensures before { before_step self.new ≡ before_step self.old }
    {
        if self.log.passed_on() >= self.log.durable_now() {
            return Ok(false);
        }
        acknowledge(self.alloc, &mut self.log, &mut self.ownership, sent)?;
        Ok(true)
    }

    /// The first rule that applies is made, after what has become shut was marked. The answer says
    /// whether one did. Where a Close is due, no rule before that one applies, and it comes before the
    /// last of the phase's rules.
    fn follow_up(&mut self, sent: &mut Vec<Message>) -> Result<bool, AllocError>
        requires noted { IsNoted self.old }
        ensures applied { IfOk result (λ applied. applied ≡ did (follow_up (marks_shut (state_view self.old)))) }
        ensures state { OnOk result
            (state_view self.new ≡ (or_still (marks_shut (state_view self.old))
            (follow_up (marks_shut (state_view self.old)))).0) }
        ensures sends { OnOk result (sent.new.items ≡ sent.old.items ++
            (or_still (marks_shut (state_view self.old)) (follow_up (marks_shut (state_view self.old)))).1) }
        ensures noted { OnOk result (IsNoted self.new) }
        ensures before { before_step self.new ≡ before_step self.old }
    {
        if self.log.close_is_due() {
            self.follow_due(sent)
        } else {
            self.follow_undue(sent)
        }
    }

    /// The first rule that applies where a Close is due: after the mark that one.
    fn follow_due(&mut self, sent: &mut Vec<Message>) -> Result<bool, AllocError>
        requires noted { IsNoted self.old }
        requires due { close_is_due (log_of self.old.log) ≡ true }
        ensures applied { IfOk result (λ applied. applied ≡ did (follow_up (marks_shut (state_view self.old)))) }
        ensures state { OnOk result
            (state_view self.new ≡ (or_still (marks_shut (state_view self.old))
            (follow_up (marks_shut (state_view self.old)))).0) }
        ensures sends { OnOk result (sent.new.items ≡ sent.old.items ++
            (or_still (marks_shut (state_view self.old)) (follow_up (marks_shut (state_view self.old)))).1) }
        ensures noted { OnOk result (IsNoted self.new) }
        ensures before { before_step self.new ≡ before_step self.old }
    {
        self.log.mark_shut();
        self.follow_closing(sent)
    }

    /// The first rule that applies where no Close is due: after the mark one of the phase, or else another.
    fn follow_undue(&mut self, sent: &mut Vec<Message>) -> Result<bool, AllocError>
        requires noted { IsNoted self.old }
        requires undue { close_is_due (log_of self.old.log) ≡ false }
        ensures applied { IfOk result (λ applied. applied ≡ did (follow_up (marks_shut (state_view self.old)))) }
        ensures state { OnOk result
            (state_view self.new ≡ (or_still (marks_shut (state_view self.old))
            (follow_up (marks_shut (state_view self.old)))).0) }
        ensures sends { OnOk result (sent.new.items ≡ sent.old.items ++
            (or_still (marks_shut (state_view self.old)) (follow_up (marks_shut (state_view self.old)))).1) }
        ensures noted { OnOk result (IsNoted self.new) }
        ensures before { before_step self.new ≡ before_step self.old }
    {
        if self.follow_phase(sent)? {
            return Ok(true);
        }
        self.follow_first(sent)
    }

    /// The first that applies of the rules after those of the phase.
    fn follow_first(&mut self, sent: &mut Vec<Message>) -> Result<bool, AllocError>
        requires noted { IsNoted self.old }
        ensures applied { IfOk result (λ applied. applied ≡ did (follows_rest (state_view self.old))) }
        ensures state { OnOk result
            (state_view self.new ≡ (or_still (state_view self.old) (follows_rest (state_view self.old))).0) }
        ensures sends { OnOk result (sent.new.items ≡ sent.old.items ++
            (or_still (state_view self.old) (follows_rest (state_view self.old))).1) }
        ensures noted { OnOk result (IsNoted self.new) }
        ensures before { before_step self.new ≡ before_step self.old }
    {
        for rule in &RULES {
            if self.follow(*rule, sent)? {
                return Ok(true);
            }
        }
        Ok(false)
    }

    /// One rule, if it applies.
    fn follow(&mut self, rule: Rule, sent: &mut Vec<Message>) -> Result<bool, AllocError>
        requires noted { IsNoted self.old }
        ensures applied { IfOk result (λ applied. applied ≡ did (does rule (state_view self.old))) }
        ensures state { OnOk result
            (state_view self.new ≡ (or_still (state_view self.old) (does rule (state_view self.old))).0) }
        ensures sends { OnOk result (sent.new.items ≡ sent.old.items ++
            (or_still (state_view self.old) (does rule (state_view self.old))).1) }
        ensures noted { OnOk result (IsNoted self.new) }
        ensures before { before_step self.new ≡ before_step self.old }
    {
        match rule {
            Rule::Change => self.follow_change(sent),
            Rule::Stored => self.follow_stored(sent),
            Rule::Data => self.follow_data(sent),
            Rule::Replay => self.follow_replay(sent),
        }
    }

    /// The rules, until none applies. A deposed master follows none.
    pub(crate) fn go_on(&mut self, sent: &mut Vec<Message>) -> Result<(), AllocError>
        requires noted { IsNoted self.old }
        ensures state { OnOk result (state_view self.new ≡ (goes_on (state_view self.old)).0) }
        ensures sends { OnOk result (sent.new.items ≡ sent.old.items ++ (goes_on (state_view self.old)).1) }
        ensures noted { OnOk result (IsNoted self.new) }
        ensures quiet { OnOk result (IsQuiet (state_view self.new)) }
        ensures before { before_step self.new ≡ before_step self.old }
    {
        if self.deposed {
            return Ok(());
        }
        self.settle(sent)
    }

    /// The rules, until none applies.
    fn settle(&mut self, sent: &mut Vec<Message>) -> Result<(), AllocError>
        requires noted { IsNoted self.old }
        ensures state { OnOk result (state_view self.new ≡ (settled (state_view self.old)).0) }
        ensures sends { OnOk result (sent.new.items ≡ sent.old.items ++ (settled (state_view self.old)).1) }
        ensures noted { OnOk result (IsNoted self.new) }
        ensures before { before_step self.new ≡ before_step self.old }
    {
        'rules: while self.follow_up(sent)? {}
        Ok(())
    }
}
