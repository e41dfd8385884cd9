//! Attempts to recover a master: what backups answer is kept, and the log is chosen when that is decided.

ghost use Rattle.std.specs.Prelude.{◌≡◌, ◌⊎◌, ◌+◌, ◌^◌, ◌<◌, ◌≤◌, ◌++◌, ◌∷◌, [], length, true, Some, IfOk};
ghost use Rattle.std.specs.Prelude.{OnOk, OnErr, IfErr};
ghost use Rattle.rc_types.specs.declared.faults.Fault.TheVariants.{OutOfMemory};
ghost use Rattle.rc_model.specs.Messages.{coordinator_refuses};
ghost use Rattle.rc_model.specs.Tablets.{tablets_of};
ghost use Rattle.rc_model.specs.Attempts.{Attempt as Attempted, is_gathering, gives_parts};
ghost use Rattle.rc_model.specs.Coordinator.{attempt_at};
ghost use Rattle.rc_model.specs.Deciding.{keeps_answer, decides, decides_on, ready_ids};
ghost use Rattle.rc_coordinator.specs.View.{book_of, state_view};
ghost use Rattle.rc_coordinator.specs.Steps.{HasNumbers};

use crate::notices;
use crate::plans::{self, Choice};
use crate::state::State;
use rc_attempts::least::least_of;
use rc_attempts::{Decision, GivenPart};
use rc_digestpick::pick;
use rc_types::{Fault, Message, Row, Seq, ServerId, TryClone};
use std::alloc::{AllocError, Allocator};

impl<A: Allocator + Clone> State<A> {
    /// Takes the answer of a backup. It is kept where its attempt is current, nothing is decided on it, and it has no
    /// answer of the sender.
    pub(crate) fn keep_answer(
        &mut self,
        from: ServerId,
        number: u32,
        rows: &Seq<Row>,
    ) -> Result<(), AllocError>
        ensures state { OnOk result (state_view self.new ≡ keeps_answer (state_view self.old) from number rows.now) }
        ensures err { OnErr result (book_of self.new ≡ book_of self.old) }
    {
        let Some(attempt) = self.recoveries.attempt(number) else {
            return Ok(());
        };
        if self.recoveries.current_number(attempt.master()) != number
            || !attempt.is_gathering()
            || attempt.has_answered(from)
        {
            return Ok(());
        }
        let rows = rows.try_clone(self.alloc)?;
        self.recoveries.keep(number, from, rows)
    }

    /// Takes a Decide, or refuses it to the outside (F8, F9, F10, F11).
    pub(crate) fn decide(
        &mut self,
        master: ServerId,
        sent: &mut Vec<Message>,
    ) -> Result<(), AllocError>
        requires { HasNumbers (state_view self.old) }
        ensures state { OnOk result (state_view self.new ≡ (decides (state_view self.old) master).0) }
        ensures sends { OnOk result (sent.new.items ≡ sent.old.items ++ (decides (state_view self.old) master).1) }
        ensures err { OnErr result (book_of self.new ≡ book_of self.old) }
        ensures unsent { OnErr result (sent.new.items ≡ sent.old.items) }
    {
        match self.choose(master) {
            Ok(choice) => self.decide_on(choice, sent),
            Err(Fault::OutOfMemory) => Err(AllocError),
            Err(fault) => {
                sent.push(notices::refusal(fault))?;
                Ok(())
            }
        }
    }

    /// The servers that are up and ready, in order. Only memory can be refused (F1).
    fn ready_ids(&self) -> Result<Vec<ServerId>, AllocError>
        ensures { IfOk result (λ ids. ids.items ≡ ready_ids (state_view self.now)) }
    {
        let mut ids = self.servers.up(self.alloc)?;
        ids.retain(|id| self.ready.has(*id));
        Ok(ids)
    }

    /// What a Decide comes to, or why it is refused.
    fn choose(&self, master: ServerId) -> Result<Choice, Fault>
        requires { HasNumbers (state_view self.now) }
        ensures place { IfOk result (λ choice. (0 < choice.number) ×
            (choice.number ≤ length (state_view self.now).attempts)) }
        ensures gathers { IfOk result (λ choice. (attempt : Attempted) →
            attempt_at (state_view self.now) choice.number ≡ Some attempt → is_gathering attempt ≡ true) }
        ensures few { IfOk result (λ choice. length choice.decision.parts ≤ length (state_view self.now).tablets) }
        ensures master { IfOk result (λ choice. (attempt : Attempted) →
            attempt_at (state_view self.now) choice.number ≡ Some attempt → choice.master ≡ attempt.master) }
        ensures chosen { IfOk result (λ choice. (attempt : Attempted) →
            attempt_at (state_view self.now) choice.number ≡ Some attempt →
            decides (state_view self.now) master ≡ decides_on (state_view self.now) choice.number attempt
            choice.decision choice.ids.items) }
        ensures refused { IfErr result (λ fault. (fault ≡ OutOfMemory) ⊎
            (decides (state_view self.now) master ≡ (state_view self.now, coordinator_refuses fault ∷ []))) }
    {
        let number = self.recoveries.current_number(master);
        let Some(attempt) = self.recoveries.attempt(number) else {
            return Err(Fault::StaleAttempt);
        };
        if !attempt.is_gathering() {
            return Err(Fault::StaleAttempt);
        }
        let least = least_of(&self.least, master);
        let plan = pick(self.alloc, least, attempt.replies())?;
        let ids = self.ready_ids()?;
        if ids.is_empty() {
            return Err(Fault::NotReady);
        }
        let master = attempt.master();
        let parts = self.parts(master, number - 1, &ids)?;
        Ok(Choice {
            number,
            master,
            decision: Decision::new(plan, parts),
            ids,
        })
    }

    /// The parts of a master's tablets, given to these ids in turn from this place on.
    fn parts(
        &self,
        master: ServerId,
        first: u32,
        ids: &[ServerId],
    ) -> Result<Vec<GivenPart>, AllocError>
        requires numbers { HasNumbers (state_view self.now) }
        requires someone { 0 < length ids.now }
        ensures ok { IfOk result (λ parts. parts.items ≡ gives_parts ids.now first
            ((state_view self.now).last_term + 1) (tablets_of master (state_view self.now).tablets)) }
        ensures few { IfOk result (λ parts. length parts.items ≤ length (state_view self.now).tablets) }
    {
        let tablets = self.tablets.tablets_of(self.alloc, master)?;
        plans::give_parts(self.alloc, ids, first, self.last_term + 1, &tablets)
    }

    /// Sends the plan, and keeps the decision.
    fn decide_on(&mut self, choice: Choice, sent: &mut Vec<Message>) -> Result<(), AllocError>
        requires place { (0 < choice.number) × (choice.number ≤ length (state_view self.old).attempts) }
        requires gathers { (attempt : Attempted) → attempt_at (state_view self.old) choice.number ≡ Some attempt →
            is_gathering attempt ≡ true }
        requires terms { (state_view self.old).last_term + length choice.decision.parts < 2 ^ 32 }
        ensures state { OnOk result ((attempt : Attempted) →
            attempt_at (state_view self.old) choice.number ≡ Some attempt →
            state_view self.new ≡ (decides_on (state_view self.old) choice.number attempt choice.decision
            choice.ids.items).0) }
        ensures sends { OnOk result ((attempt : Attempted) → choice.master ≡ attempt.master →
            sent.new.items ≡ sent.old.items ++
            (decides_on (state_view self.old) choice.number attempt choice.decision choice.ids.items).1) }
        ensures err { OnErr result (book_of self.new ≡ book_of self.old) }
        ensures unsent { OnErr result (sent.new.items ≡ sent.old.items) }
    {
        let Choice {
            number,
            master,
            decision,
            ids,
        } = choice;
        let mut messages = plans::plan_messages(self.alloc, number, master, &decision, &ids)?;
        sent.append(&mut messages)?;
        self.last_term += decision.parts_len() as u32;
        self.recoveries.decide(number, decision);
        Ok(())
    }
}
