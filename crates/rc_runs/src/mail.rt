//! The mail of a run: which messages are still to be delivered.

ghost use Rattle.std.specs.Prelude.{◌≡◌, ◌<◌, ◌++◌, ◌∷◌, [], ℕ, List, length, IfOk, OnOk};
ghost use Rattle.rc_types.specs.declared.events.Event.{Event};
ghost use Rattle.rc_types.specs.declared.events.Event.TheVariants.{Deliver};
ghost use Rattle.rc_types.specs.declared.messages.Message.{Message};
ghost use Rattle.rc_runs.specs.Settling.{due_from};
ghost use Rattle.rc_runs.specs.Letters.{no_letters, Waits, HasNoted};

use crate::marks::Marks;
use crate::passing::Passing;
use rc_types::Message;
use std::alloc::{AllocError, Global};
use std::marker::Model;

/// Which messages are still to be delivered, of those noted so far. It is seen as its marks and the numbers
/// that wait; `Waits` says that they fit what has happened and what was sent.
pub struct Mail {
    marks: Marks,
}

impl Drop for Mail {
    fn drop(self) {
        let Mail { marks: _ } = self;
    }
}

impl Model for Mail {
    ghost use Rattle.rc_runs.specs.Letters.{Letters};

    ghost Value = { Letters };

    ghost view = { λ mail. record { delivered = mail.marks.delivered.items; waiting = mail.marks.lines.items } };
}

impl Mail {
    /// None is noted yet. It takes no memory.
    pub fn new(alloc: Global) -> Mail
        ensures { result ≡ no_letters }
    {
        Mail {
            marks: Marks::new(alloc),
        }
    }

    /// A copy. Only memory can be refused (F1).
    pub fn try_clone(&self) -> Result<Mail, AllocError>
        ensures { IfOk result (λ copy. copy ≡ self.now) }
    {
        Ok(Mail {
            marks: self.marks.try_clone()?,
        })
    }

    /// The least number from `from` on of a message that the pass delivers.
    pub(crate) fn next_due(&self, passing: &Passing, sent: &[Message], from: usize) -> Option<usize>
        ensures { (events : List Event) → Waits events sent.now self.now →
            result ≡ due_from passing.now events sent.now from }
    {
        self.marks.next_due(passing, sent, from)
    }

    /// Notes all messages sent. Where memory is refused, some of them may be noted.
    pub fn note(&mut self, sent: &[Message]) -> Result<(), AllocError>
        ensures all { OnOk result (HasNoted sent.now self.new) }
        ensures kept { (events : List Event) → Waits events sent.now self.old → Waits events sent.now self.new }
    {
        self.marks.note(sent)
    }

    /// An event has delivered the message of this number, which is noted; and more may have been sent.
    pub(crate) fn deliver(&mut self, number: usize)
        requires { number < length self.old.delivered }
        ensures { (events : List Event) (sent more : List Message) → Waits events sent self.old →
            Waits (events ++ Deliver number ∷ []) (sent ++ more) self.new }
    {
        self.marks.deliver(number);
    }

    /// What was delivered waits no longer.
    pub(crate) fn tidy(&mut self)
        ensures { (events : List Event) (sent : List Message) → Waits events sent self.old →
            Waits events sent self.new }
    {
        self.marks.tidy();
    }
}
