//! The messages of each server.

ghost use Rattle.std.specs.Prelude.{◌≡◌, None, OnOk, IfOk};
ghost use Rattle.std.specs.BTreeMap.{get};
ghost use Rattle.rc_audit.specs.Places.{id_order};
ghost use Rattle.rc_audit.specs.Senders.{AddsMessage, AreSenders, NotesSender};

use rc_types::{Addr, Message, ServerId};
use std::alloc::{AllocError, Global};
use std::collections::BTreeMap;

/// The messages of one server, in the order in which they were sent.
#[derive(Drop)]
pub struct Sent<'a> {
    /// The messages.
    pub messages: Vec<&'a Message>,
}

/// The messages of each server that sent one.
pub type Senders<'a> = BTreeMap<ServerId, Sent<'a>>;

/// Notes the first message of this server.
fn note_first<'a>(
    alloc: Global,
    senders: &mut Senders<'a>,
    master: ServerId,
    message: &'a Message,
) -> Result<(), AllocError>
    requires { get id_order senders.old master ≡ None }
    ensures { OnOk result (NotesSender senders.old senders.new master message.now) }
{
    let messages = vec![in alloc; message]?;
    senders.insert(master, Sent { messages })?;
    Ok(())
}

/// Notes one more message of this server.
fn note_sent<'a>(
    alloc: Global,
    senders: &mut Senders<'a>,
    master: ServerId,
    message: &'a Message,
) -> Result<(), AllocError>
    ensures { OnOk result (NotesSender senders.old senders.new master message.now) }
{
    match senders.get_mut(&master) {
        Some(sent) => {
            sent.messages.push(message)?;
            Ok(())
        }
        None => note_first(alloc, senders, master, message),
    }
}

/// Notes this message, where a server has sent it.
fn note_message<'a>(
    alloc: Global,
    senders: &mut Senders<'a>,
    message: &'a Message,
) -> Result<(), AllocError>
    ensures { OnOk result (AddsMessage senders.old senders.new message.now) }
{
    match message.from {
        Addr::Server(master) => note_sent(alloc, senders, master, message),
        _ => Ok(()),
    }
}

/// The messages of each server, of all of these.
pub fn senders_in<'a>(alloc: Global, messages: &'a [Message]) -> Result<Senders<'a>, AllocError>
    ensures { IfOk result (λ senders. AreSenders senders messages.now) }
{
    let mut senders = BTreeMap::new(alloc);
    for message in messages {
        note_message(alloc, &mut senders, message)?;
    }
    Ok(senders)
}
