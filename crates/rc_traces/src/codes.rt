//! Messages are kept as their codes while they are read, since these take less room beside the text and what its reader
//! needs. They are messages again once the reader is gone.

ghost use Rattle.std.specs.Prelude.{◌≡◌, ◌≢◌, ◌+◌, [], List, IfOk, OnOk, Err};
ghost use Rattle.rc_types.specs.declared.messages.Message.{Message as SpecMessage};
ghost use Rattle.rc_codec.specs.declared.faults.DecodeFault.TheVariants.{Malformed};
ghost use Rattle.rc_traces.specs.Codes.{codes_of, and_code};

use rc_codec::{DecodeFault, decode_message, encode_message};
use rc_types::Message;
use std::alloc::{AllocError, Global};
use std::marker::Model;

/// The codes of messages, one after the other.
#[derive(Drop)]
pub(crate) struct Codes {
    bytes: Vec<u8>,
    /// How many messages they are.
    count: usize,
}

impl Model for Codes {
    ghost use Rattle.std.specs.Prelude.{◌≤◌, length};
    ghost use Rattle.rc_traces.specs.Codes.{CodesView};

    ghost Value = { CodesView };

    ghost view = { λ c. record { bytes = c.bytes.items; count = c.count } };

    ghost invariant = { λ c. c.count ≤ length c.bytes.items };
}

impl Codes {
    /// The codes of no message.
    pub(crate) fn new(alloc: Global) -> Codes
        ensures { result ≡ codes_of [] }
    {
        Codes {
            bytes: Vec::new(alloc),
            count: 0,
        }
    }

    /// Adds the code of a message at the end.
    pub(crate) fn add(&mut self, message: &Message) -> Result<(), AllocError>
        ensures ok { OnOk result (self.new ≡ and_code self.old message.now) }
    {
        encode_message(message, &mut self.bytes)?;
        self.count += 1;
        Ok(())
    }

    /// The place of the next item of the list: 2 for the first.
    pub(crate) fn next_place(&self) -> usize
        ensures { result ≡ 2 + self.now.count }
    {
        2 + self.count
    }

    /// The messages whose codes these are.
    ///
    /// # Errors
    ///
    /// `OutOfMemory` where memory was refused; `Malformed` where they are the codes of no messages.
    pub(crate) fn decoded(&self, alloc: Global) -> Result<Vec<Message>, DecodeFault>
        ensures ok { (all : List SpecMessage) → self.now ≡ codes_of all →
            IfOk result (λ messages. messages.items ≡ all) }
        ensures good { (all : List SpecMessage) → self.now ≡ codes_of all → result ≢ Err Malformed }
    {
        let mut messages = Vec::with_capacity(alloc, self.count)?;
        let mut rest = self.bytes.as_slice();
        for _ in 0..self.count {
            let (message, taken) = decode_message(alloc, rest)?;
            messages.push(message)?;
            let (_, later) = rest.split_at(taken);
            rest = later;
        }
        Ok(messages)
    }
}
