//! What one line of a history says.

use crate::operations::Kind;
use rc_types::Shared;
use serde_json::Value;
use std::alloc::{AllocError, Global};
use std::fmt;

/// What kind of event a line has.
#[derive(Clone, Copy)]
pub(crate) enum Stage {
    Invoke,
    Ok,
    Fail,
    Info,
}

/// What is done to which key.
#[derive(Clone, Copy)]
pub(crate) struct Call {
    pub(crate) kind: Kind,
    pub(crate) table: u32,
    pub(crate) key: u64,
}

/// What a line says.
#[derive(Drop)]
pub(crate) struct Said {
    pub(crate) process: u64,
    pub(crate) stage: Stage,
    pub(crate) call: Call,
    pub(crate) value: Option<Shared<u8>>,
    pub(crate) version: Option<u64>,
}

/// What is wrong with a line.
#[derive(Clone, Copy, Drop)]
pub enum LineFault {
    /// Memory was refused.
    OutOfMemory,
    /// It is no JSON object.
    NoObject,
    /// `process` is no number from 0 to 2^64 - 1.
    Process,
    /// `type` is none of the four.
    Type,
    /// `f` is none of the two.
    Function,
    /// `key` is no text TABLE/KEY.
    Key,
    /// `value` is neither a text nor null.
    Value,
    /// `version` is no number from 0 to 2^64 - 1.
    Version,
    /// An `ok` without a version.
    NoVersion,
    /// Its process still waits for a response.
    Busy,
    /// Its process waits for no response.
    Idle,
    /// It answers another operation than its process waits for.
    Other,
}

impl fmt::Display for LineFault {
    fn fmt<W: fmt::Write>(&self, f: &mut fmt::Formatter<W>) -> fmt::Result {
        f.write_str(match self {
            LineFault::OutOfMemory => "memory",
            LineFault::NoObject => "it is no JSON object",
            LineFault::Process => "'process' is to be a number from 0 on",
            LineFault::Type => "'type' is to be \"invoke\", \"ok\", \"fail\" or \"info\"",
            LineFault::Function => "'f' is to be \"write\" or \"read\"",
            LineFault::Key => "'key' is to be a text TABLE/KEY of two numbers, as \"7/5\"",
            LineFault::Value => "'value' is to be a text, or null",
            LineFault::Version => "'version' is to be a number from 0 on",
            LineFault::NoVersion => "an \"ok\" wants a 'version'",
            LineFault::Busy => "its process has not ended the operation before",
            LineFault::Idle => "its process has invoked no operation",
            LineFault::Other => "its process has invoked another operation",
        })
    }
}

impl From<AllocError> for LineFault {
    ghost from_gives = { λ _ _. Unit {0} };

    fn from(_: AllocError) -> LineFault {
        LineFault::OutOfMemory
    }
}

/// What a line says.
pub(crate) fn said_by(alloc: Global, line: &[u8]) -> Result<Said, LineFault> {
    let Ok(text) = std::str::from_utf8(line) else {
        return Err(LineFault::NoObject);
    };
    let value = match Value::from_str(alloc, text) {
        Ok(value) => value,
        Err(error) if error.is_memory() => return Err(LineFault::OutOfMemory),
        Err(_) => return Err(LineFault::NoObject),
    };
    if !value.is_object() {
        return Err(LineFault::NoObject);
    }
    let process = value
        .get("process")
        .and_then(Value::as_u64)
        .ok_or(LineFault::Process)?;
    Ok(Said {
        process,
        stage: stage_in(&value)?,
        call: call_in(&value)?,
        value: value_in(alloc, &value)?,
        version: version_in(&value)?,
    })
}

/// The type of the event.
fn stage_in(value: &Value) -> Result<Stage, LineFault> {
    match value.get("type").and_then(Value::as_str) {
        Some("invoke") => Ok(Stage::Invoke),
        Some("ok") => Ok(Stage::Ok),
        Some("fail") => Ok(Stage::Fail),
        Some("info") => Ok(Stage::Info),
        _ => Err(LineFault::Type),
    }
}

/// What is done to which key.
fn call_in(value: &Value) -> Result<Call, LineFault> {
    let kind = match value.get("f").and_then(Value::as_str) {
        Some("write") => Kind::Write,
        Some("read") => Kind::Read,
        _ => return Err(LineFault::Function),
    };
    let Some((table, key)) = value
        .get("key")
        .and_then(Value::as_str)
        .and_then(|text| text.split_once('/'))
    else {
        return Err(LineFault::Key);
    };
    match (table.parse::<u32>(), key.parse::<u64>()) {
        (Ok(table), Ok(key)) => Ok(Call { kind, table, key }),
        _ => Err(LineFault::Key),
    }
}

/// What is written or shown; nothing, where nothing is said.
fn value_in(alloc: Global, value: &Value) -> Result<Option<Shared<u8>>, LineFault> {
    match value.get("value") {
        None | Some(Value::Null) => Ok(None),
        Some(Value::String(text)) => {
            let bytes = text.as_bytes().to_vec(alloc)?;
            Ok(Some(Shared::from_vec(alloc, bytes)?))
        }
        Some(_) => Err(LineFault::Value),
    }
}

/// The version, if one is said.
fn version_in(value: &Value) -> Result<Option<u64>, LineFault> {
    match value.get("version") {
        None | Some(Value::Null) => Ok(None),
        Some(version) => match version.as_u64() {
            Some(version) => Ok(Some(version)),
            None => Err(LineFault::Version),
        },
    }
}
