//! The history of the messages that were sent in a run, by the definitions of `rc_promises`. A write of the history
//! is an entry when it was first sent, with the request that it comes of; a Write that was delivered twice may be the
//! request of two of them. A read is a ReadOk that is confirmed; other reads, and refusals, are no operations.

use crate::births::{Birth, Births};
use crate::events::{ClientEvent, Request};
use crate::reads::{Read, Reads};
use rc_types::{Addr, Body, Message, ServerId, Shared};
use std::alloc::{AllocError, Global};

/// The history of a run.
#[derive(Drop)]
pub struct History {
    /// Its events.
    pub events: Vec<ClientEvent>,
    /// Of each event, the number of the message that it is.
    pub times: Vec<usize>,
    /// How many messages were sent.
    pub end: usize,
}

/// An event of an operation, before all of them are put in order.
#[derive(Clone, Copy)]
struct Mark {
    /// The number of the message.
    time: usize,
    /// Which operation it is an event of.
    operation: usize,
    /// Whether it is the response.
    is_response: bool,
}

/// An operation: a write or a read.
#[derive(Clone, Copy)]
enum Found<'a> {
    Write(Birth<'a>),
    Read(Read<'a>),
}

/// The history of these messages.
///
/// For n messages with e entries this takes O((n + e) log (n + e)) steps.
///
/// # Errors
///
/// Only memory can be refused.
pub fn history_of(alloc: Global, messages: &[Message]) -> Result<History, AllocError> {
    let found = operations_in(alloc, messages)?;
    let mut marks = Vec::new(alloc);
    for (number, operation) in found.iter().enumerate() {
        add_marks(&mut marks, number, operation)?;
    }
    marks.sort_by_key(|mark: &Mark| (mark.time, mark.operation))?;
    let mut moments = Vec::new(alloc);
    moments.resize(found.len(), 0)?;
    let mut history = History {
        events: Vec::new(alloc),
        times: Vec::new(alloc),
        end: messages.len(),
    };
    for mark in &marks {
        history.add(found.as_slice(), &mut moments, *mark)?;
    }
    Ok(history)
}

impl History {
    /// Adds an event.
    fn add(
        &mut self,
        found: &[Found<'_>],
        moments: &mut Vec<usize>,
        mark: Mark,
    ) -> Result<(), AllocError> {
        let Some(operation) = found.get(mark.operation) else {
            return Ok(());
        };
        let event = if mark.is_response {
            let invocation = moments.get(mark.operation).copied().unwrap_or(0);
            response_of(operation, invocation)?
        } else {
            if mark.operation < moments.len() {
                moments[mark.operation] = self.events.len();
            }
            invocation_of(operation)?
        };
        self.events.push(event)?;
        self.times.push(mark.time)?;
        Ok(())
    }
}

/// Adds the events of an operation.
fn add_marks(marks: &mut Vec<Mark>, operation: usize, found: &Found<'_>) -> Result<(), AllocError> {
    let (invocation, response) = match found {
        Found::Write(birth) => (birth.invocation, birth.response),
        Found::Read(read) => (read.invocation, Some(read.response)),
    };
    marks.push(Mark {
        time: invocation,
        operation,
        is_response: false,
    })?;
    if let Some(time) = response {
        marks.push(Mark {
            time,
            operation,
            is_response: true,
        })?;
    }
    Ok(())
}

/// The invocation of an operation.
fn invocation_of(found: &Found<'_>) -> Result<ClientEvent, AllocError> {
    Ok(match found {
        Found::Write(birth) => ClientEvent::Invoked {
            table: birth.table,
            key: birth.key,
            request: Request::Write(shared(birth.value)?),
        },
        Found::Read(read) => ClientEvent::Invoked {
            table: read.table,
            key: read.key,
            request: Request::Read,
        },
    })
}

/// Its response.
fn response_of(found: &Found<'_>, invocation: usize) -> Result<ClientEvent, AllocError> {
    Ok(match found {
        Found::Write(birth) => ClientEvent::Written {
            invocation,
            version: birth.version,
        },
        Found::Read(read) => ClientEvent::Shown {
            invocation,
            version: read.version,
            value: shared(read.value)?,
        },
    })
}

/// One more owner of a value.
fn shared(value: &Option<Shared<u8>>) -> Result<Option<Shared<u8>>, AllocError> {
    match value {
        Some(value) => Ok(Some(value.share()?)),
        None => Ok(None),
    }
}

/// The operations in these messages.
fn operations_in<'a>(alloc: Global, messages: &'a [Message]) -> Result<Vec<Found<'a>>, AllocError> {
    let mut births = Births::new(alloc);
    let mut reads = Reads::new(alloc);
    for (number, message) in messages.iter().enumerate() {
        match (message.from, message.to) {
            (Addr::Outside, Addr::Server(to)) => {
                note_request(alloc, &mut births, &mut reads, number, to, &message.body)?
            }
            (Addr::Server(from), _) => {
                note_sent(&mut births, &mut reads, number, from, &message.body)?
            }
            _ => {}
        }
    }
    let mut found = Vec::new(alloc);
    births.forget_requests()?;
    for birth in births.all() {
        found.push(Found::Write(*birth))?;
    }
    for read in reads.all() {
        if births.confirms(read.master, read.response) {
            found.push(Found::Read(*read))?;
        }
    }
    Ok(found)
}

/// Notes what a client asks of a server.
fn note_request<'a>(
    alloc: Global,
    births: &mut Births<'a>,
    reads: &mut Reads<'a>,
    number: usize,
    to: ServerId,
    body: &'a Body,
) -> Result<(), AllocError> {
    match body {
        Body::Write { table, key, value } => births.ask(alloc, number, to, *table, *key, value),
        Body::Read { table, key } => reads.ask(number, to, *table, *key),
        _ => Ok(()),
    }
}

/// Notes what a server has sent.
fn note_sent<'a>(
    births: &mut Births<'a>,
    reads: &mut Reads<'a>,
    number: usize,
    from: ServerId,
    body: &'a Body,
) -> Result<(), AllocError> {
    match body {
        Body::Place { seg, entries, .. } => {
            births.send(number, from, *seg, 0, entries.as_slice())
        }
        Body::Append {
            seg,
            offset,
            entries,
        } => births.send(number, from, *seg, *offset, entries.as_slice()),
        Body::WriteOk { seg, offset, .. } => { births.acknowledge(number, from, *seg, *offset) }
        Body::ReadOk {
            table,
            key,
            version,
            value,
        } => reads.answer(number, from, *table, *key, *version, value),
        _ => Ok(()),
    }
}
