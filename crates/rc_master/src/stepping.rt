//! A step: an input, and then the rules until none applies. Where memory is refused, the master goes
//! back to where the step began.

ghost use Rattle.std.specs.Prelude.{◌≡◌, ◌++◌, [], true, false, OnOk, OnErr};
ghost use Rattle.rc_model.specs.ListRules.{then_does};
ghost use Rattle.rc_model.specs.FollowUps.{goes_on};
ghost use Rattle.rc_model.specs.MasterStep.{master_takes_first, deposed_takes, master_takes, master_ticks};
ghost use Rattle.rc_model.specs.MasterTick.{reminds, ticks};
ghost use Rattle.rc_headroll.specs.LogData.{before_of};
ghost use Rattle.rc_master.specs.Numbers.{HasVersions};
ghost use Rattle.rc_master.specs.Quiet.{IsQuiet, is_quiet_message};
ghost use Rattle.rc_master.specs.View.{state_view, now_of, before_step, IsNoted, IsAtStart};

use crate::single::{enlist, refusal};
use crate::state::State;
use crate::timer::add_reminders;
use rc_types::{Addr, Body, Code, Fault, Message};
use std::alloc::AllocError;

impl State {
    /// A step begins.
    fn begin(&mut self)
        requires noted { IsNoted self.old }
        ensures now { now_of self.new ≡ now_of self.old }
        ensures before { before_step self.new ≡ now_of self.old }
        ensures start { IsAtStart self.new }
        ensures noted { IsNoted self.new }
    {
        self.log.begin();
        self.ownership.begin();
        self.earlier = None;
        self.kept = self.tasks.len();
    }

    /// Goes back to where the step began. It takes no memory.
    fn restore(&mut self)
        ensures { now_of self.new ≡ before_step self.old }
    {
        self.log.restore();
        self.ownership.restore();
        self.tasks.truncate(self.kept);
        if let Some(earlier) = self.earlier.take() {
            self.known = earlier;
        }
    }

    /// Takes a message, before the rules that follow up.
    fn take_first(
        &mut self,
        from: Addr,
        body: &Body,
        sent: &mut Vec<Message>,
    ) -> Result<(), AllocError>
        requires noted { IsNoted self.old }
        requires versions { HasVersions (state_view self.old) }
        requires start { IsAtStart self.old }
        requires other { is_quiet_message from body.now ≡ false }
        ensures state { OnOk result (state_view self.new ≡ (master_takes_first (state_view self.old) from body.now).0) }
        ensures sends { OnOk result (sent.new.items ≡ sent.old.items ++
            (master_takes_first (state_view self.old) from body.now).1) }
        ensures noted { OnOk result (IsNoted self.new) }
        ensures before { before_step self.new ≡ before_step self.old }
    {
        match (from, body) {
            (_, Body::Write { table, key, value }) => self.write(*table, *key, value, sent),
            (_, Body::Read { table, key }) => self.read(*table, *key, sent),
            (_, Body::List { version, rows }) => self.take_list(*version, rows.as_slice(), sent),
            (
                Addr::Server(id),
                Body::Stored {
                    seg,
                    epoch,
                    len,
                    closed,
                },
            ) => {
                self.take_stored(id, *seg, *epoch, *len, *closed);
                Ok(())
            }
            (_, Body::CommitOk { seg, epoch }) => {
                self.take_committed(*seg, *epoch);
                Ok(())
            }
            (
                _,
                Body::Plan {
                    attempt,
                    master,
                    head: _,
                    rows,
                    parts,
                },
            ) => self.take_plan(*attempt, *master, rows, parts.as_slice(), sent),
            (
                Addr::Server(id),
                Body::Data {
                    attempt: _,
                    seg,
                    term,
                    entries,
                },
            ) => self.take_data(id, *seg, *term, entries.as_slice()),
            _ => Ok(()),
        }
    }

    /// Takes a message and follows up. Where memory is refused, the state is any.
    fn try_take(
        &mut self,
        from: Addr,
        body: &Body,
        sent: &mut Vec<Message>,
    ) -> Result<(), AllocError>
        requires noted { IsNoted self.old }
        requires versions { HasVersions (state_view self.old) }
        requires start { IsAtStart self.old }
        requires other { is_quiet_message from body.now ≡ false }
        ensures state { OnOk result
            (state_view self.new ≡ (then_does (master_takes_first (state_view self.old) from body.now) goes_on).0) }
        ensures sends { OnOk result (sent.new.items ≡ sent.old.items ++
            (then_does (master_takes_first (state_view self.old) from body.now) goes_on).1) }
        ensures unsent { OnErr result (sent.new.items ≡ sent.old.items) }
        ensures noted { OnOk result (IsNoted self.new) }
        ensures quiet { OnOk result (IsQuiet (state_view self.new)) }
        ensures before { before_step self.new ≡ before_step self.old }
    {
        let mut messages = Vec::new(self.alloc);
        self.log.rest_newest()?;
        self.take_first(from, body, &mut messages)?;
        self.go_on(&mut messages)?;
        sent.append(&mut messages)?;
        Ok(())
    }

    /// Takes a message that rules may follow. Where memory is refused, nothing has changed.
    fn take_or_restore(
        &mut self,
        from: Addr,
        body: &Body,
        sent: &mut Vec<Message>,
    ) -> Result<(), AllocError>
        requires noted { IsNoted self.old }
        requires quiet { IsQuiet (state_view self.old) }
        requires versions { HasVersions (state_view self.old) }
        requires other { is_quiet_message from body.now ≡ false }
        ensures state { OnOk result
            (state_view self.new ≡ (then_does (master_takes_first (state_view self.old) from body.now) goes_on).0) }
        ensures sends { OnOk result (sent.new.items ≡ sent.old.items ++
            (then_does (master_takes_first (state_view self.old) from body.now) goes_on).1) }
        ensures err { OnErr result (state_view self.new ≡ state_view self.old) }
        ensures unsent { OnErr result (sent.new.items ≡ sent.old.items) }
        ensures noted { IsNoted self.new }
        ensures quiet { IsQuiet (state_view self.new) }
    {
        self.begin();
        if let Err(fault) = self.try_take(from, body, sent) {
            self.restore();
            return Err(fault);
        }
        Ok(())
    }

    /// Takes a message that no rule follows: a refusal by the coordinator, or a grant. Where memory is
    /// refused, nothing has changed.
    fn take_quiet(&mut self, from: Addr, body: &Body) -> Result<(), AllocError>
        requires noted { IsNoted self.old }
        requires quiet { IsQuiet (state_view self.old) }
        requires of_these { is_quiet_message from body.now ≡ true }
        ensures state { OnOk result (state_view self.new ≡ (master_takes_first (state_view self.old) from body.now).0) }
        ensures silent { (master_takes_first (state_view self.old) from body.now).1 ≡ [] }
        ensures err { OnErr result (state_view self.new ≡ state_view self.old) }
        ensures noted { IsNoted self.new }
        ensures quiet { IsQuiet (state_view self.new) }
    {
        match (from, body) {
            (_, Body::Own { range, term, .. }) => self.ownership.grant(*range, *term),
            (Addr::Coordinator, Body::Refused { code }) => {
                if let Code::Deposed = code {
                    self.deposed = true;
                }
                Ok(())
            }
            _ => Ok(()),
        }
    }

    /// Takes a message where the master is deposed: clients are refused (F5), and nothing else happens.
    fn take_deposed(&self, body: &Body, sent: &mut Vec<Message>) -> Result<(), AllocError>
        ensures sends { OnOk result (sent.new.items ≡ sent.old.items ++
            (deposed_takes (state_view self.now) body.now).1) }
        ensures state { (deposed_takes (state_view self.now) body.now).0 ≡ state_view self.now }
        ensures unsent { OnErr result (sent.new.items ≡ sent.old.items) }
    {
        match body {
            Body::Write { .. } | Body::Read { .. } => {
                sent.push(refusal(self.log.own(), Fault::Deposed))?;
                Ok(())
            }
            _ => Ok(()),
        }
    }

    /// Takes a message. Where memory is refused, nothing has changed.
    pub(crate) fn take(
        &mut self,
        from: Addr,
        body: &Body,
        sent: &mut Vec<Message>,
    ) -> Result<(), AllocError>
        requires noted { IsNoted self.old }
        requires quiet { IsQuiet (state_view self.old) }
        requires versions { HasVersions (state_view self.old) }
        ensures state { OnOk result (state_view self.new ≡ (master_takes (state_view self.old) from body.now).0) }
        ensures sends { OnOk result (sent.new.items ≡ sent.old.items ++
            (master_takes (state_view self.old) from body.now).1) }
        ensures err { OnErr result (state_view self.new ≡ state_view self.old) }
        ensures unsent { OnErr result (sent.new.items ≡ sent.old.items) }
        ensures noted { IsNoted self.new }
        ensures quiet { IsQuiet (state_view self.new) }
    {
        if self.deposed {
            return self.take_deposed(body, sent);
        }
        if is_quiet_message(from, body) {
            return self.take_quiet(from, body);
        }
        self.take_or_restore(from, body, sent)
    }

    /// Takes the timer, before the rules that follow up: a master that isn't up by its list enlists;
    /// another obeys its list anew, and says again what was not answered.
    fn tick_first(&mut self, sent: &mut Vec<Message>) -> Result<(), AllocError>
        requires noted { IsNoted self.old }
        requires start { IsAtStart self.old }
        ensures state { OnOk result (state_view self.new ≡ (ticks (state_view self.old)).0) }
        ensures sends { OnOk result (sent.new.items ≡ sent.old.items ++ (ticks (state_view self.old)).1) }
        ensures noted { OnOk result (IsNoted self.new) }
        ensures before { before_step self.new ≡ before_step self.old }
    {
        if !self.known.is_up(self.log.own()) {
            sent.push(enlist(self.log.own()))?;
            return Ok(());
        }
        self.log.rest()?;
        self.obey_list(sent)?;
        self.remind(sent)
    }

    /// Says again what was not answered, but for what the list rules have just sent.
    fn remind(&self, sent: &mut Vec<Message>) -> Result<(), AllocError>
        requires noted { IsNoted self.now }
        ensures { OnOk result (sent.new.items ≡ sent.old.items ++
            (reminds (before_of self.now.log) (state_view self.now)).1) }
    {
        add_reminders(
            self.alloc,
            &self.log,
            &self.ownership,
            self.tasks.as_slice(),
            sent,
        )?;
        Ok(())
    }

    /// Takes the timer and follows up. Where memory is refused, the state is any.
    fn try_tick(&mut self, sent: &mut Vec<Message>) -> Result<(), AllocError>
        requires noted { IsNoted self.old }
        requires start { IsAtStart self.old }
        ensures state { OnOk result (state_view self.new ≡ (then_does (ticks (state_view self.old)) goes_on).0) }
        ensures sends { OnOk result (sent.new.items ≡ sent.old.items ++
            (then_does (ticks (state_view self.old)) goes_on).1) }
        ensures unsent { OnErr result (sent.new.items ≡ sent.old.items) }
        ensures noted { OnOk result (IsNoted self.new) }
        ensures quiet { OnOk result (IsQuiet (state_view self.new)) }
        ensures before { before_step self.new ≡ before_step self.old }
    {
        let mut messages = Vec::new(self.alloc);
        self.tick_first(&mut messages)?;
        self.go_on(&mut messages)?;
        sent.append(&mut messages)?;
        Ok(())
    }

    /// Takes the timer. Where memory is refused, nothing has changed.
    pub(crate) fn tick(&mut self, sent: &mut Vec<Message>) -> Result<(), AllocError>
        requires noted { IsNoted self.old }
        requires quiet { IsQuiet (state_view self.old) }
        ensures state { OnOk result (state_view self.new ≡ (master_ticks (state_view self.old)).0) }
        ensures sends { OnOk result (sent.new.items ≡ sent.old.items ++ (master_ticks (state_view self.old)).1) }
        ensures err { OnErr result (state_view self.new ≡ state_view self.old) }
        ensures unsent { OnErr result (sent.new.items ≡ sent.old.items) }
        ensures noted { IsNoted self.new }
        ensures quiet { IsQuiet (state_view self.new) }
    {
        if self.deposed {
            return Ok(());
        }
        self.begin();
        if let Err(fault) = self.try_tick(sent) {
            self.restore();
            return Err(fault);
        }
        Ok(())
    }
}

/// Whether no rule follows this message: a refusal by the coordinator, or a grant.
fn is_quiet_message(from: Addr, body: &Body) -> bool
    ensures { result ≡ is_quiet_message from body.now }
{
    match (from, body) {
        (Addr::Coordinator, Body::Refused { .. }) => true,
        (_, Body::Own { .. }) => true,
        _ => false,
    }
}
