//! What a step has answered.

use crate::replicas::Replica;
use rc_types::{Body, Code, Kind, Message};

/// What was stored, as a backup answers it.
pub(crate) fn stored_in(answer: &[Message]) -> Option<Replica> {
    let mut sent = answer.iter();
    sent.find_map(|message| Replica::told_in(&message.body))
}

/// The number of the code with which it was refused; 0 where it was not.
pub(crate) fn refusal_in(answer: &[Message]) -> u8 {
    let code = answer.iter().find_map(|message| match &message.body {
        Body::Refused { code } => Some(code.number()),
        _ => None,
    });
    code.unwrap_or(0)
}

/// Whether it was refused with this code.
pub(crate) fn is_refused(answer: &[Message], code: Code) -> bool {
    refusal_in(answer) == code.number()
}

/// How many messages of this kind were sent.
pub(crate) fn count_of(answer: &[Message], kind: Kind) -> usize {
    let sent = answer.iter();
    sent.filter(|message| Kind::of(&message.body) == kind)
        .count()
}

/// Whether a segment was placed.
pub(crate) fn places(answer: &[Message], wanted: u16) -> bool {
    let mut sent = answer.iter();
    sent.any(|message| matches!(&message.body, Body::Place { seg, .. } if *seg == wanted))
}

/// The version that was read, if one was.
pub(crate) fn version_read(answer: &[Message]) -> Option<u64> {
    answer.iter().find_map(|message| match &message.body {
        Body::ReadOk { version, .. } => Some(*version),
        _ => None,
    })
}
