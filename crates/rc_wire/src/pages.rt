//! What a journal is stored in.

ghost use Rattle.std.specs.Prelude.{◌≡◌, ◌+◌, ◌<◌, ◌≤◌, ◌^◌, ◌++◌, ◌∷◌, [], length, vec_len, vec_capacity, IfOk, OnOk};
ghost use Rattle.rc_wire.specs.Index.{lists_of, IsIndex};
ghost use Rattle.rc_wire.specs.Pages.{HasRoom};
ghost use Rattle.rc_types.specs.declared.ids.TheConstants.{NODE_NUMBERS};

use crate::index::Index;
use rc_types::{Event, Message};
use std::alloc::{AllocError, Global};

/// All events, all messages that they sent, and the numbers of those to each node.
#[derive(Drop)]
pub(crate) struct Pages {
    pub(crate) events: Vec<Event>,
    pub(crate) messages: Vec<Message>,
    pub(crate) index: Index,
}

impl Pages {
    /// Nothing has happened.
    pub(crate) fn new(alloc: Global) -> Result<Pages, AllocError>
        ensures events { IfOk result (λ made. made.events.items ≡ []) }
        ensures messages { IfOk result (λ made. made.messages.items ≡ []) }
        ensures index { IfOk result (λ made. IsIndex (lists_of made.index) []) }
    {
        let index = Index::new(alloc)?;
        Ok(Pages {
            events: Vec::new(alloc),
            messages: Vec::new(alloc),
            index,
        })
    }

    /// Makes room for one more event and the messages that it sends. All stays as it is.
    ///
    /// # Errors
    ///
    /// Memory was refused.
    pub(crate) fn reserve(&mut self, messages: &[Message]) -> Result<(), AllocError>
        requires { length (lists_of self.old.index) ≡ NODE_NUMBERS }
        ensures events { self.new.events.items ≡ self.old.events.items }
        ensures messages { self.new.messages.items ≡ self.old.messages.items }
        ensures index { lists_of self.new.index ≡ lists_of self.old.index }
        ensures room { OnOk result (HasRoom self.new messages.now) }
    {
        self.events.reserve(1)?;
        self.messages.reserve(messages.len())?;
        self.index.reserve(messages)
    }

    /// Adds the event and its messages, and answers the event's number.
    pub(crate) fn add(&mut self, event: Event, messages: Vec<Message>) -> usize
        requires index { IsIndex (lists_of self.old.index) self.old.messages.items }
        requires room { HasRoom self.old messages.items }
        ensures number { result ≡ length self.old.events.items }
        ensures events { self.new.events.items ≡ self.old.events.items ++ event ∷ [] }
        ensures messages { self.new.messages.items ≡ self.old.messages.items ++ messages.items }
        ensures index { IsIndex (lists_of self.new.index) self.new.messages.items }
    {
        let mut messages = messages;
        let number = self.events.len();
        self.index.note(self.messages.len(), &messages);
        self.messages.append(&mut messages).unwrap();
        self.events.push(event).unwrap();
        number
    }
}
