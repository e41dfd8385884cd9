//! The operations of a history: its events, two and two.

ghost use Rattle.std.specs.Prelude.{◌≡◌, None, nat_lt, if◌then◌else◌, slice_get, option_and_then, option_map};
ghost use Rattle.rc_clients.specs.Operations as spec;

use crate::events::{ClientEvent, Request};
use rc_types::Shared;

/// What an operation is.
#[derive(Clone, Copy, PartialEq)]
pub enum Kind {
    /// A write.
    Write,
    /// A read.
    Read,
}

impl Kind {
    /// Whether the request is of this kind.
    fn is_of(self, request: &Request) -> bool
        ensures { result ≡ spec.asks_for self request.now }
    {
        match (self, request) {
            (Kind::Write, Request::Write(_)) | (Kind::Read, Request::Read) => true,
            _ => false,
        }
    }
}

/// An operation that was answered.
#[derive(Clone, Copy)]
pub struct Operation {
    /// Whether it writes or reads.
    pub kind: Kind,
    /// The table.
    pub table: u32,
    /// The key in it.
    pub key: u64,
    /// The version that was written or shown.
    pub version: u64,
    /// The moment of its invocation.
    pub invocation: usize,
    /// The moment of its response.
    pub response: usize,
}

/// The operation that the event at this moment answers, if it answers one whose invocation stands before it.
#[tactic(auto, unfolding(crate::specs::Operations::operation_at))]
pub(crate) fn operation_at(history: &[ClientEvent], moment: usize) -> Option<Operation>
    ensures { result ≡ spec.operation_at history.now moment }
{
    match history.get(moment)? {
        ClientEvent::Written {
            invocation,
            version,
        } => answered(history, Kind::Write, *invocation, moment, *version),
        ClientEvent::Shown {
            invocation,
            version,
            ..
        } => answered(history, Kind::Read, *invocation, moment, *version),
        _ => None,
    }
}

/// The operation of this kind and of this invocation, if that stands before the response, which tells this version.
fn answered(
    history: &[ClientEvent],
    kind: Kind,
    invocation: usize,
    response: usize,
    version: u64,
) -> Option<Operation>
    ensures { result ≡ spec.answered history.now kind invocation response version }
{
    if invocation >= response {
        return None;
    }
    match history.get(invocation)? {
        ClientEvent::Invoked {
            table,
            key,
            request,
        } if kind.is_of(request) => Some(Operation {
            kind,
            table: *table,
            key: *key,
            version,
            invocation,
            response,
        }),
        _ => None,
    }
}

/// What an operation wrote or showed.
#[tactic(auto, unfolding(crate::specs::Operations::value_of))]
pub(crate) fn value_of<'a>(history: &'a [ClientEvent], operation: &Operation) -> Option<&'a [u8]>
    ensures { option_map (λ s. s.now) result ≡ spec.value_of history.now operation.now }
{
    let moment = match operation.kind {
        Kind::Write => operation.invocation,
        Kind::Read => operation.response,
    };
    value_in(history.get(moment)?)
}

/// What an event writes or shows.
fn value_in(event: &ClientEvent) -> Option<&[u8]>
    ensures { option_map (λ s. s.now) result ≡ spec.value_in event.now }
{
    match event {
        ClientEvent::Invoked {
            request: Request::Write(value),
            ..
        } => bytes_of(value),
        ClientEvent::Shown { value, .. } => bytes_of(value),
        _ => None,
    }
}

/// The bytes of a value.
pub(crate) fn bytes_of(value: &Option<Shared<u8>>) -> Option<&[u8]>
    ensures { option_map (λ s. s.now) result ≡ value.now }
{
    match value {
        Some(value) => Some(value.as_slice()),
        None => None,
    }
}
