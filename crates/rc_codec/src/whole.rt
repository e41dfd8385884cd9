//! Messages and events as a whole, behind the version of the format.

ghost use Rattle.std.specs.Prelude.{◌≡◌, ◌++◌, ◌∷◌, IfOk, IfErr, OnOk, OnErr};
ghost use Rattle.rc_codec.specs.Claims.{IsFront, DecodesFront, BeginsWithNone};
ghost use Rattle.rc_codec.specs.Parts.{Begins};
ghost use Rattle.rc_codec.specs.Reading.{Gives};
ghost use Rattle.rc_codec.specs.Fields.{versioned_at};
ghost use Rattle.rc_codec.specs.Bodies.{coded_message};
ghost use Rattle.rc_codec.specs.Events.{coded_event};
ghost use Rattle.rc_codec.specs.declared.faults.DecodeFault.TheVariants.{Malformed};

use crate::coded::{Put, Take};
use crate::faults::DecodeFault;
use rc_types::{Event, Message};
use std::alloc::{AllocError, Global};

/// Adds the bytes of a message at the end of `out`.
///
/// # Errors
///
/// Memory was refused; `out` is as before.
pub fn encode_message(message: &Message, out: &mut Vec<u8>) -> Result<(), AllocError>
    ensures ok { OnOk result (out.new.items ≡ out.old.items ++ coded_message message.now) }
    ensures err { OnErr result (out.new.items ≡ out.old.items) }
{
    put_whole(message, out)
}

/// The message that the bytes begin with, and how many of them it takes. Others may follow.
///
/// # Errors
///
/// `Malformed` where the bytes begin with no message; `OutOfMemory` where memory was refused.
pub fn decode_message(alloc: Global, bytes: &[u8]) -> Result<(Message, usize), DecodeFault>
    ensures decoded { IfOk result (λ found. IsFront (coded_message found.0) found.1 bytes.now) }
    ensures again { DecodesFront coded_message bytes.now result }
    ensures refused { IfErr result (λ fault. fault ≡ Malformed → BeginsWithNone coded_message bytes.now) }
{
    match take_whole::<Message>(alloc, bytes) {
        Ok((message, rest)) => Ok((message, bytes.len() - rest.len())),
        Err(fault) => Err(fault),
    }
}

/// Adds the bytes of an event at the end of `out`.
///
/// # Errors
///
/// Memory was refused; `out` is as before.
pub fn encode_event(event: &Event, out: &mut Vec<u8>) -> Result<(), AllocError>
    ensures ok { OnOk result (out.new.items ≡ out.old.items ++ coded_event event.now) }
    ensures err { OnErr result (out.new.items ≡ out.old.items) }
{
    put_whole(event, out)
}

/// The event that the bytes begin with, and how many of them it takes. Others may follow.
///
/// # Errors
///
/// `Malformed` where the bytes begin with no event; `OutOfMemory` where memory was refused.
pub fn decode_event(alloc: Global, bytes: &[u8]) -> Result<(Event, usize), DecodeFault>
    ensures decoded { IfOk result (λ found. IsFront (coded_event found.0) found.1 bytes.now) }
    ensures again { DecodesFront coded_event bytes.now result }
    ensures refused { IfErr result (λ fault. fault ≡ Malformed → BeginsWithNone coded_event bytes.now) }
{
    match take_whole::<Event>(alloc, bytes) {
        Ok((event, rest)) => Ok((event, bytes.len() - rest.len())),
        Err(fault) => Err(fault),
    }
}

/// The version, and what follows it; all or nothing.
#[tactic(auto, unfolding(crate::specs::Parts::Begins))]
fn put_whole<T: Put>(whole: &T, out: &mut Vec<u8>) -> Result<(), AllocError>
    ensures ok { OnOk result (out.new.items ≡ out.old.items ++ 1 ∷ T.code whole.now) }
    ensures err { OnErr result (out.new.items ≡ out.old.items) }
{
    let length = out.len();
    match put_version(whole, out) {
        Ok(()) => Ok(()),
        Err(fault) => {
            out.truncate(length);
            Err(fault)
        }
    }
}

/// The version, and what follows it.
fn put_version<T: Put>(whole: &T, out: &mut Vec<u8>) -> Result<(), AllocError>
    ensures ok { OnOk result (out.new.items ≡ out.old.items ++ 1 ∷ T.code whole.now) }
    ensures err { OnErr result (Begins out.old.items out.new.items) }
{
    (1u8, whole).put(out)
}

/// What follows the version, and the bytes after it.
fn take_whole<T: Take + Drop>(alloc: Global, bytes: &[u8]) -> Result<(T, &[u8]), DecodeFault>
    ensures { Gives (λ x. (x.0, x.1.now)) result (versioned_at T.read bytes.now) }
{
    match bytes {
        [1, rest @ ..] => T::take(alloc, rest),
        _ => Err(DecodeFault::Malformed),
    }
}
