//! What a seat does at the journal, while nobody else is there.

ghost use Rattle.std.specs.Prelude.{◌≡◌, ◌⊎◌, true, is_some, length, IfOk, IfErr, OnOk, OnErr};
ghost use Rattle.rc_types.specs.declared.faults.Fault.TheVariants.{OutOfMemory, BadEvent};
ghost use Rattle.rc_types.specs.declared.limits.TheConstants.{MAX_EVENTS};
ghost use Rattle.rc_wire.specs.SeatCalls.{Covers, having_seen, Later, Fetches, Commits};

use crate::journal::Journal;
use crate::names::Naming;
use crate::offer::{Offer, keep, put};
use crate::seat::Seat;
use crate::stepping::copy_of;
use rc_types::Fault;
use std::alloc::AllocError;

impl<N: Naming> Seat<N> {
    /// The seat sees the whole history of the journal. Nothing else of it changes.
    pub fn see(&mut self, journal: &mut Journal<N>)
        ensures journal { journal.new ≡ journal.old }
        ensures seat { self.new ≡ having_seen self.old journal.old }
        ensures covers { Covers N.wire.setup journal.old self.old }
    {
        journal.look(&mut self.token);
    }

    /// The seat sees the whole history, and holds the message of this number, if that was sent. Else what
    /// was held stays, and the answer is false.
    ///
    /// # Errors
    ///
    /// `OutOfMemory` (F1): the memory for a copy of the message was refused. The seat is as before.
    pub(crate) fn hold(
        &mut self,
        journal: &mut Journal<N>,
        number: usize,
    ) -> Result<bool, AllocError>
        ensures ok { IfOk result (λ found. Fetches N.wire.setup self.old number found self.new) }
        ensures seen { OnOk result (self.new.seen ≡ journal.old) }
        ensures journal { journal.new ≡ journal.old }
        ensures err { OnErr result (self.new ≡ self.old) }
    {
        let copy = copy_of(self.alloc, journal.message(number))?;
        self.see(journal);
        match copy {
            Some(message) => {
                keep(&mut self.held, number, message);
                Ok(true)
            }
            None => Ok(false),
        }
    }

    /// The pending step is added to the journal, as its last event, whose number is the answer. The seat
    /// has then seen the whole history.
    ///
    /// # Errors
    ///
    /// `BadEvent` (F18): 200,000 events have happened. `OutOfMemory` (F1): memory was refused. After either
    /// the journal is as before, and the step stays pending and can be committed again; the seat may have
    /// seen more.
    pub(crate) fn commit_into(&mut self, journal: &mut Journal<N>) -> Result<usize, Fault>
        requires { is_some self.old.pending ≡ true }
        ensures ok { IfOk result (λ number. Commits N.wire.setup self.old number self.new) }
        ensures journal { OnOk result (journal.new ≡ self.new.seen) }
        ensures last { IfOk result (λ number. number ≡ length journal.old) }
        ensures err { OnErr result (Later self.old self.new) }
        ensures unchanged { OnErr result (journal.new ≡ journal.old) }
        ensures fault { IfErr result (λ fault. (fault ≡ OutOfMemory) ⊎ (fault ≡ BadEvent)) }
        ensures limit { result ≡ Err BadEvent → length self.new.seen ≡ MAX_EVENTS }
    {
        self.see(journal);
        let Some(Offer { event, messages }) = self.pending.take() else {
            unreachable!();
        };
        match journal.push(&mut self.token, event, messages) {
            Ok(number) => Ok(number),
            Err((event, messages, fault)) => {
                put(&mut self.pending, Offer { event, messages });
                Err(fault)
            }
        }
    }
}
