//! A list of messages is written as a trace.

ghost use Rattle.std.specs.Prelude.{◌≡◌, string_bytes, map, option_map, IfOk};
ghost use Rattle.rc_traces.specs.Written.{id_data, value_data, entry_data, row_data, place_data, append_data};
ghost use Rattle.rc_traces.specs.Written.{plan_data, sent_data, ok_data, ok_in};
ghost use Rattle.rc_traces.specs.Written.{own_in, grant_in, message_data, messages_data};
ghost use Rattle.rc_traces.specs.Written.{trace_data, trace_text};
ghost use Rattle.serde_json.specs.Data.{array};
ghost use Rattle.serde_json.specs.View.{view, items_of};

use rc_types::{Addr, Body, Entry, Message, PlanRow, Seq, ServerId, Shared};
use serde_json::{Value, json};
use std::alloc::{AllocError, Global};

/// The trace of these messages: those of the five kinds that a trace has, in order, as one line of text.
///
/// # Errors
///
/// Only memory can be refused.
#[tactic(auto, using(crate::proofs::Floats::no_float))]
pub fn write_trace(alloc: Global, messages: &[Message]) -> Result<String, AllocError>
    ensures { IfOk result (λ text. string_bytes text ≡ trace_text messages.now) }
{
    let value = trace(alloc, messages)?;
    let mut text = value.to_string(alloc)?;
    text.push('\n')?;
    Ok(text)
}

fn trace(alloc: Global, messages: &[Message]) -> Result<Value, AllocError>
    ensures { IfOk result (λ value. view value ≡ trace_data messages.now) }
{
    let list = list(message_values(alloc, messages)?);
    json!(in alloc; {"format": 1, "messages": list})
}

/// The list of these values.
fn list(values: Vec<Value>) -> Value
    ensures { view result ≡ array (items_of (map view values.items)) }
{
    Value::Array(values)
}

fn message_values(alloc: Global, messages: &[Message]) -> Result<Vec<Value>, AllocError>
    ensures { IfOk result (λ values. map view values.items ≡ messages_data messages.now) }
{
    let mut values = Vec::new(alloc);
    for message in messages {
        if let Some(value) = message_value(alloc, message)? {
            values.push(value)?;
        }
    }
    Ok(values)
}

/// What stands in a trace for a message.
#[tactic(auto, unfolding(crate::specs::Written::message_data))]
fn message_value(alloc: Global, message: &Message) -> Result<Option<Value>, AllocError>
    ensures { IfOk result (λ value. option_map view value ≡ message_data message.now) }
{
    if let Body::Plan {
        attempt,
        master,
        rows,
        ..
    } = &message.body
    {
        let value = plan(alloc, *attempt, *master, rows.as_slice())?;
        return Ok(Some(value));
    }
    if let Body::Own { .. } = &message.body {
        return grant_value(alloc, message.to, &message.body);
    }
    let Addr::Server(from) = message.from else {
        return Ok(None);
    };
    sent_value(alloc, from, &message.body)
}

/// What stands in a trace for what a server has sent.
fn sent_value(alloc: Global, from: ServerId, body: &Body) -> Result<Option<Value>, AllocError>
    ensures { IfOk result (λ value. option_map view value ≡ sent_data from body.now) }
{
    match body {
        Body::Place { seg, entries, .. } => {
            let value = place(alloc, from, *seg, entries.as_slice())?;
            Ok(Some(value))
        }
        Body::Append {
            seg,
            offset,
            entries,
        } => {
            let value = append(alloc, from, *seg, *offset, entries.as_slice())?;
            Ok(Some(value))
        }
        Body::WriteOk { .. } => ok_value(alloc, from, body),
        _ => Ok(None),
    }
}

fn ok_value(alloc: Global, from: ServerId, body: &Body) -> Result<Option<Value>, AllocError>
    ensures { IfOk result (λ value. option_map view value ≡ ok_in from body.now) }
{
    let Body::WriteOk {
        seg,
        offset,
        term,
        table,
        key,
        version,
    } = body
    else {
        return Ok(None);
    };
    let value = ok(alloc, from, *seg, *offset, *term, *table, *key, *version)?;
    Ok(Some(value))
}

/// What stands for an acknowledgement.
fn ok(
    alloc: Global,
    from: ServerId,
    seg: u16,
    offset: usize,
    term: u32,
    table: u32,
    key: u64,
    version: u64,
) -> Result<Value, AllocError>
    ensures { IfOk result (λ value. view value ≡ ok_data from seg offset term table key version) }
{
    let from = id(alloc, from)?;
    json!(in alloc; {"from": from, "key": key, "m": "ok", "offset": offset, "seg": seg, "table": table, "term": term,
        "version": version})
}

/// What stands in a trace for a grant to this address.
fn grant_value(alloc: Global, to: Addr, body: &Body) -> Result<Option<Value>, AllocError>
    ensures { IfOk result (λ value. option_map view value ≡ grant_in to body.now) }
{
    match to {
        Addr::Server(to) => own_value(alloc, to, body),
        Addr::Coordinator | Addr::Outside => Ok(None),
    }
}

fn own_value(alloc: Global, to: ServerId, body: &Body) -> Result<Option<Value>, AllocError>
    ensures { IfOk result (λ value. option_map view value ≡ own_in to body.now) }
{
    let Body::Own {
        range,
        term,
        previous,
        attempt,
    } = body
    else {
        return Ok(None);
    };
    let to = id(alloc, to)?;
    let value =
        json!(in alloc; {"to": to, "attempt": *attempt, "hi": range.hi, "lo": range.lo, "m": "own",
        "previous": *previous, "table": range.table, "term": *term})?;
    Ok(Some(value))
}

fn place(alloc: Global, from: ServerId, seg: u16, all: &[Entry]) -> Result<Value, AllocError>
    ensures { IfOk result (λ value. view value ≡ place_data from seg all.now) }
{
    let entries = list(entries(alloc, all)?);
    let from = id(alloc, from)?;
    json!(in alloc; {"entries": entries, "from": from, "m": "place", "seg": seg})
}

fn append(
    alloc: Global,
    from: ServerId,
    seg: u16,
    offset: usize,
    all: &[Entry],
) -> Result<Value, AllocError>
    ensures { IfOk result (λ value. view value ≡ append_data from seg offset all.now) }
{
    let entries = list(entries(alloc, all)?);
    let from = id(alloc, from)?;
    json!(in alloc; {"entries": entries, "from": from, "m": "append", "offset": offset, "seg": seg})
}

fn plan(alloc: Global, attempt: u32, master: ServerId, all: &[PlanRow]) -> Result<Value, AllocError>
    ensures { IfOk result (λ value. view value ≡ plan_data attempt master all.now) }
{
    let rows = list(rows(alloc, all)?);
    let master = id(alloc, master)?;
    json!(in alloc; {"rows": rows, "of": master, "attempt": attempt, "m": "plan"})
}

/// An id, its index and its generation.
fn id(alloc: Global, id: ServerId) -> Result<Value, AllocError>
    ensures { IfOk result (λ value. view value ≡ id_data id) }
{
    json!(in alloc; [id.index, id.generation])
}

fn entries(alloc: Global, entries: &[Entry]) -> Result<Vec<Value>, AllocError>
    ensures { IfOk result (λ values. map view values.items ≡ map entry_data entries.now) }
{
    let mut values = Vec::new(alloc);
    for one in entries {
        let value = entry(alloc, one)?;
        values.push(value)?;
    }
    Ok(values)
}

fn entry(alloc: Global, entry: &Entry) -> Result<Value, AllocError>
    ensures { IfOk result (λ value. view value ≡ entry_data entry.now) }
{
    let value = bytes(alloc, &entry.value)?;
    json!(in alloc; [entry.term, entry.table, entry.key, entry.version, value])
}

/// A value's bytes in lower-case hexadecimal, or null.
fn bytes(alloc: Global, value: &Option<Shared<u8>>) -> Result<Value, AllocError>
    ensures { IfOk result (λ text. view text ≡ value_data value.now) }
{
    match value {
        None => Ok(Value::Null),
        Some(bytes) => Ok(Value::String(hex::encode(alloc, bytes.as_slice())?)),
    }
}

fn rows(alloc: Global, rows: &[PlanRow]) -> Result<Vec<Value>, AllocError>
    ensures { IfOk result (λ values. map view values.items ≡ map row_data rows.now) }
{
    let mut values = Vec::new(alloc);
    for one in rows {
        let value = row(alloc, one)?;
        values.push(value)?;
    }
    Ok(values)
}

fn row(alloc: Global, row: &PlanRow) -> Result<Value, AllocError>
    ensures { IfOk result (λ value. view value ≡ row_data row.now) }
{
    let holder = id(alloc, row.holder)?;
    json!(in alloc; [row.seg, holder, row.len])
}
