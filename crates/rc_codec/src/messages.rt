//! Messages.

use crate::coded::{Put, Take};
use crate::faults::DecodeFault;
use rc_types::{Addr, Body, Message};
use std::alloc::{AllocError, Global};

impl Put for Message {
    ghost use Rattle.rc_codec.specs.Bodies.{message_code};

    ghost code = { message_code };

    fn put(&self, out: &mut Vec<u8>) -> Result<(), AllocError> {
        (self.from, self.to, &self.body).put(out)
    }
}

impl Take for Message {
    ghost use Rattle.rc_codec.specs.Bodies.{message_at};

    ghost read = { message_at };

    fn take(alloc: Global, bytes: &[u8]) -> Result<(Message, &[u8]), DecodeFault> {
        let ((from, to, body), rest) = <(Addr, Addr, Body)>::take(alloc, bytes)?;
        Ok((Message { from, to, body }, rest))
    }
}
