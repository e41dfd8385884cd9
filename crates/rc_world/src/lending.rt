//! A message is taken out of the list while it is delivered, and put back, so that it need not be
//! copied.

ghost use Rattle.std.specs.Prelude.{◌≡◌, ◌<◌, length, slice_set};
ghost use Rattle.rc_world.specs.Lending.{nothing, message_at};

use rc_types::{Addr, Body, Message};
use std::mem;

/// To whom the message of this number goes.
pub(crate) fn address(sent: &[Message], number: usize) -> Addr
    requires { number < length sent.now }
    ensures { result ≡ (message_at sent.now number).to }
{
    sent[number].to
}

/// Takes the message of this number out. Until it is put back, another stands in its place.
pub(crate) fn lend(sent: &mut Vec<Message>, number: usize) -> Message
    requires { number < length sent.old.items }
    ensures message { result ≡ message_at sent.old.items number }
    ensures left { sent.new.items ≡ slice_set sent.old.items number nothing }
{
    mem::replace(&mut sent[number], nothing())
}

/// Puts the message of this number back.
pub(crate) fn put_back(sent: &mut Vec<Message>, number: usize, message: Message)
    requires { number < length sent.old.items }
    ensures { sent.new.items ≡ slice_set sent.old.items number message }
{
    sent[number] = message;
}

/// What stands in the place of a message that was taken out. It takes no memory.
fn nothing() -> Message
    ensures { result ≡ nothing }
{
    Message {
        from: Addr::Outside,
        to: Addr::Outside,
        body: Body::Enlist,
    }
}
