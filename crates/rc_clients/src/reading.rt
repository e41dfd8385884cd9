//! A history is read from JSON lines, one event a line.

use crate::events::{ClientEvent, Request};
use crate::lines::{Call, LineFault, Said, Stage, said_by};
use crate::operations::Kind;
use rc_types::Shared;
use std::alloc::{AllocError, AllocFailed, Global};
use std::collections::BTreeMap;

/// A history that was read, and the line of each of its events.
#[derive(Drop)]
pub struct ReadHistory {
    /// Its events.
    pub events: Vec<ClientEvent>,
    /// Of each event, the number of its line, counted from 1.
    pub lines: Vec<usize>,
}

/// Why no history was read.
#[derive(Drop)]
pub enum HistoryFault {
    /// Memory was refused (F1).
    OutOfMemory,
    /// This line is wrong (F17).
    BadLine(usize, LineFault),
}

impl From<AllocError> for HistoryFault {
    ghost from_gives = { λ _ _. Unit {0} };

    fn from(_: AllocError) -> HistoryFault {
        HistoryFault::OutOfMemory
    }
}

impl<T: Drop> From<AllocFailed<T>> for HistoryFault {
    ghost from_gives = { λ _ _. Unit {0} };

    fn from(_: AllocFailed<T>) -> HistoryFault {
        HistoryFault::OutOfMemory
    }
}

/// An operation that waits for its response.
#[derive(Clone, Copy)]
struct Open {
    call: Call,
    moment: usize,
}

/// The history that these bytes say. Empty lines are passed over.
///
/// # Errors
///
/// F1 where memory was refused; F17 with the number of the first line that is wrong.
pub fn read_history(alloc: Global, bytes: &[u8]) -> Result<ReadHistory, HistoryFault> {
    let mut history = ReadHistory {
        events: Vec::new(alloc),
        lines: Vec::new(alloc),
    };
    let mut open = BTreeMap::new(alloc);
    let mut number = 0usize;
    for line in bytes.split(|byte| *byte == b'\n') {
        number = number.saturating_add(1);
        if line.iter().all(|byte| byte.is_ascii_whitespace()) {
            continue;
        }
        let said = match said_by(alloc, line) {
            Ok(said) => said,
            Err(LineFault::OutOfMemory) => return Err(HistoryFault::OutOfMemory),
            Err(fault) => return Err(HistoryFault::BadLine(number, fault)),
        };
        history.take(&mut open, number, said)?;
    }
    Ok(history)
}

impl ReadHistory {
    /// Takes what a line says.
    fn take(
        &mut self,
        open: &mut BTreeMap<u64, Open>,
        number: usize,
        said: Said,
    ) -> Result<(), HistoryFault> {
        let waits = open.get(&said.process).copied();
        match (said.stage, waits) {
            (Stage::Invoke, Some(_)) => Err(HistoryFault::BadLine(number, LineFault::Busy)),
            (Stage::Invoke, None) => self.invoke(open, number, said),
            (_, None) => Err(HistoryFault::BadLine(number, LineFault::Idle)),
            (_, Some(waits)) => {
                if !is_of(&said.call, &waits.call) {
                    return Err(HistoryFault::BadLine(number, LineFault::Other));
                }
                let _ = open.remove(&said.process);
                self.answer(number, waits.moment, said)
            }
        }
    }

    /// Takes an invocation.
    fn invoke(
        &mut self,
        open: &mut BTreeMap<u64, Open>,
        number: usize,
        said: Said,
    ) -> Result<(), HistoryFault> {
        let moment = self.events.len();
        let call = said.call;
        open.insert(said.process, Open { call, moment })?;
        let request = match call.kind {
            Kind::Write => Request::Write(said.value),
            Kind::Read => Request::Read,
        };
        self.add(
            number,
            ClientEvent::Invoked {
                table: call.table,
                key: call.key,
                request,
            },
        )
    }

    /// Takes a response to the invocation at this moment; what is not known answers nothing.
    fn answer(&mut self, number: usize, invocation: usize, said: Said) -> Result<(), HistoryFault> {
        let event = match said.stage {
            Stage::Invoke | Stage::Info => return Ok(()),
            Stage::Fail => ClientEvent::Failed { invocation },
            Stage::Ok => {
                let Some(version) = said.version else {
                    return Err(HistoryFault::BadLine(number, LineFault::NoVersion));
                };
                match said.call.kind {
                    Kind::Write => {
                        if !self.wrote(invocation, &said.value) {
                            return Err(HistoryFault::BadLine(number, LineFault::Other));
                        }
                        ClientEvent::Written {
                            invocation,
                            version,
                        }
                    }
                    Kind::Read => ClientEvent::Shown {
                        invocation,
                        version,
                        value: said.value,
                    },
                }
            }
        };
        self.add(number, event)
    }

    /// Whether the write that was invoked at this moment is one of this value.
    fn wrote(&self, invocation: usize, value: &Option<Shared<u8>>) -> bool {
        match self.events.get(invocation) {
            Some(
                ClientEvent::Invoked {
                    request: Request::Write(asked),
                    ..
                },
            ) => asked == value,
            _ => false,
        }
    }

    /// Adds an event.
    fn add(&mut self, number: usize, event: ClientEvent) -> Result<(), HistoryFault> {
        self.events.push(event)?;
        self.lines.push(number)?;
        Ok(())
    }
}

/// Whether both do the same to one key.
fn is_of(said: &Call, asked: &Call) -> bool {
    said.kind == asked.kind && said.table == asked.table && said.key == asked.key
}
