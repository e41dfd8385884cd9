//! A history as JSON lines: one event a line, in order of time.

use crate::events::{ClientEvent, Request};
use crate::messages::History;
use rc_types::Shared;
use std::alloc::{AllocError, Global};
use std::fmt::Write;

/// Whose operation it is, and where the invocation stands.
#[derive(Clone, Copy)]
struct Told {
    /// The number of the process: each operation has one of its own.
    process: usize,
    /// The moment of its invocation.
    invocation: usize,
    /// Whether it was answered.
    is_answered: bool,
}

/// The history as JSON lines. "Histories of clients" in `docs/FORMATS.md` has the members. A write that was never
/// answered has a line `info` at the end.
///
/// # Errors
///
/// Only memory can be refused.
pub fn history_text(alloc: Global, history: &History) -> Result<String, AllocError> {
    let mut text = String::new(alloc);
    let mut operations = Vec::new(alloc);
    let mut places = Vec::new(alloc);
    for (moment, event) in history.events.iter().enumerate() {
        let time = history.times.get(moment).copied().unwrap_or(0);
        let place = match event {
            ClientEvent::Invoked { .. } => {
                let process = operations.len();
                operations.push(Told {
                    process,
                    invocation: moment,
                    is_answered: false,
                })?;
                process
            }
            ClientEvent::Written { invocation, .. }
            | ClientEvent::Shown { invocation, .. }
            | ClientEvent::Failed { invocation } => {
                places.get(*invocation).copied().unwrap_or(0)
            }
        };
        places.push(place)?;
        if place < operations.len() {
            let told = &mut operations[place];
            if told.invocation != moment {
                told.is_answered = true;
            }
            add_line(&mut text, history, *told, moment, time, event)?;
        }
    }
    add_unanswered(&mut text, history, operations.as_slice())?;
    Ok(text)
}

/// Adds the lines of the operations that were never answered.
fn add_unanswered(
    text: &mut String,
    history: &History,
    operations: &[Told],
) -> Result<(), AllocError> {
    let mut index = history.events.len();
    for told in operations {
        if told.is_answered {
            continue;
        }
        begin(text, index, history.end, told.process, "info")?;
        add_call(text, history.events.get(told.invocation))?;
        text.push_str("}\n")?;
        index = index.saturating_add(1);
    }
    Ok(())
}

/// Adds the line of an event.
fn add_line(
    text: &mut String,
    history: &History,
    told: Told,
    moment: usize,
    time: usize,
    event: &ClientEvent,
) -> Result<(), AllocError> {
    let kind = match event {
        ClientEvent::Invoked { .. } => "invoke",
        ClientEvent::Written { .. } | ClientEvent::Shown { .. } => "ok",
        ClientEvent::Failed { .. } => "fail",
    };
    begin(text, moment, time, told.process, kind)?;
    let invoked = history.events.get(told.invocation);
    match event {
        ClientEvent::Invoked { .. } | ClientEvent::Failed { .. } => add_call(text, invoked)?,
        ClientEvent::Written { version, .. } => {
            add_call(text, invoked)?;
            write!(text, ",\"version\":{version}")?;
        }
        ClientEvent::Shown { version, value, .. } => {
            add_key(text, invoked, "read")?;
            add_value(text, value)?;
            write!(text, ",\"version\":{version}")?;
        }
    }
    text.push_str("}\n")?;
    Ok(())
}

/// Begins a line.
fn begin(
    text: &mut String,
    index: usize,
    time: usize,
    process: usize,
    kind: &str,
) -> Result<(), AllocError> {
    text.push_str("{\"index\":")?;
    write!(
        text,
        "{index},\"time\":{time},\"process\":{process},\"type\":\"{kind}\""
    )?;
    Ok(())
}

/// Adds what was asked, with what is to be written.
fn add_call(text: &mut String, invoked: Option<&ClientEvent>) -> Result<(), AllocError> {
    match invoked {
        Some(
            ClientEvent::Invoked {
                request: Request::Write(value),
                ..
            },
        ) => {
            add_key(text, invoked, "write")?;
            add_value(text, value)
        }
        _ => {
            add_key(text, invoked, "read")?;
            add_value(text, &None)
        }
    }
}

/// Adds what is done to which key.
fn add_key(text: &mut String, invoked: Option<&ClientEvent>, call: &str) -> Result<(), AllocError> {
    if let Some(ClientEvent::Invoked { table, key, .. }) = invoked {
        write!(text, ",\"f\":\"{call}\",\"key\":\"{table}/{key}\"")?;
    }
    Ok(())
}

/// Adds a value: its bytes in lower-case hexadecimal.
fn add_value(text: &mut String, value: &Option<Shared<u8>>) -> Result<(), AllocError> {
    let Some(value) = value else {
        text.push_str(",\"value\":null")?;
        return Ok(());
    };
    text.push_str(",\"value\":\"")?;
    for byte in value.as_slice() {
        write!(text, "{byte:02x}")?;
    }
    text.push('"')?;
    Ok(())
}
