//! What the coordinator asks for again when its timer goes off.

ghost use Rattle.std.specs.Prelude.{◌≡◌, ◌++◌, filter, IfOk, OnOk, OnErr};
ghost use Rattle.rc_model.specs.ServerList.{up};
ghost use Rattle.rc_model.specs.Coordinator.{attempt_at};
ghost use Rattle.rc_model.specs.CoordinatorStep.{has_open_part, asks_again, asks_again_of, coordinator_ticks};
ghost use Rattle.rc_coordinator.specs.View.{book_of, state_view};
ghost use Rattle.rc_coordinator.specs.Steps.{HasNumbers};
ghost use Rattle.rc_coordinator.specs.Asked.{asks_of, asks_of_all};

use crate::state::State;
use crate::{notices, plans};
use rc_attempts::{Attempt, Decision};
use rc_types::{Message, ServerId};
use std::alloc::{AllocError, Allocator};

impl<A: Allocator + Clone> State<A> {
    /// Takes the timer: the list goes out again, and then what each current attempt waits for.
    pub(crate) fn tick(&mut self, sent: &mut Vec<Message>) -> Result<(), AllocError>
        requires { HasNumbers (state_view self.old) }
        ensures same { book_of self.new ≡ book_of self.old }
        ensures sends { OnOk result (sent.new.items ≡ sent.old.items ++ coordinator_ticks (state_view self.old)) }
        ensures unsent { OnErr result (sent.new.items ≡ sent.old.items) }
    {
        self.recoveries.pass_over_quiet();
        let ids = self.servers.up(self.alloc)?;
        let mut messages = notices::list_to_each(self.alloc, &mut self.servers, &ids)?;
        self.ask_all_again(&ids, &mut messages)?;
        sent.append(&mut messages)?;
        Ok(())
    }

    /// Adds what each current attempt waits for. Where memory is refused (F1), some may have been
    /// added.
    fn ask_all_again(&self, ids: &[ServerId], messages: &mut Vec<Message>) -> Result<(), AllocError>
        requires { ids.now ≡ up (state_view self.now).servers }
        ensures { OnOk result (messages.new.items ≡ messages.old.items ++ asks_again_of (state_view self.now) 1
            (state_view self.now).attempts) }
    {
        self.ask_each(self.recoveries.asked(), ids, messages)
    }

    /// Adds what the attempts of these numbers wait for. Where memory is refused (F1), some may have been added.
    fn ask_each(
        &self,
        numbers: &[u32],
        ids: &[ServerId],
        messages: &mut Vec<Message>,
    ) -> Result<(), AllocError>
        requires { ids.now ≡ up (state_view self.now).servers }
        ensures { OnOk result (messages.new.items ≡
            messages.old.items ++ asks_of_all (state_view self.now) numbers.now) }
    {
        for number in numbers {
            self.ask_if_current(*number, ids, messages)?;
        }
        Ok(())
    }

    /// Adds what the attempt of this number waits for, where it is its master's current one. Where memory is refused
    /// (F1), some may have been added.
    fn ask_if_current(
        &self,
        number: u32,
        ids: &[ServerId],
        messages: &mut Vec<Message>,
    ) -> Result<(), AllocError>
        requires { ids.now ≡ up (state_view self.now).servers }
        ensures { OnOk result (messages.new.items ≡ messages.old.items ++ asks_of (state_view self.now) number
            (attempt_at (state_view self.now) number)) }
    {
        match self.recoveries.attempt(number) {
            Some(attempt) if self.recoveries.current_number(attempt.master()) == number => {
                self.ask_again(number, attempt, ids, messages)
            }
            _ => Ok(()),
        }
    }

    /// Adds what an attempt waits for. Where memory is refused (F1), some may have been added.
    fn ask_again(
        &self,
        number: u32,
        attempt: &Attempt,
        ids: &[ServerId],
        messages: &mut Vec<Message>,
    ) -> Result<(), AllocError>
        requires { ids.now ≡ up (state_view self.now).servers }
        ensures { OnOk result (messages.new.items ≡ messages.old.items ++ asks_again (state_view self.now) number
            attempt.now attempt.now.decided) }
    {
        match attempt.decided() {
            Some(decision) => {
                let open = self.open_ids(decision, ids)?;
                let master = attempt.master();
                let mut plans = plans::plan_messages(self.alloc, number, master, decision, &open)?;
                messages.append(&mut plans)?;
                Ok(())
            }
            None => notices::gather_again(number, attempt, ids, messages),
        }
    }

    /// Those of these ids that have a part whose term isn't granted.
    fn open_ids(&self, decision: &Decision, ids: &[ServerId]) -> Result<Vec<ServerId>, AllocError>
        ensures { IfOk result (λ those. those.items ≡ filter (has_open_part (state_view self.now) decision.now)
            ids.now) }
    {
        let mut open = Vec::new(self.alloc);
        for id in ids {
            if self.has_open_part(decision, *id) {
                open.push(*id)?;
            }
        }
        Ok(open)
    }

    /// Whether the id has a part whose term isn't granted.
    fn has_open_part(&self, decision: &Decision, id: ServerId) -> bool
        ensures { result ≡ has_open_part (state_view self.now) decision.now id }
    {
        for given in decision.parts() {
            if id == given.to && !self.recoveries.is_granted(given.part.term) {
                return true;
            }
        }
        false
    }
}
