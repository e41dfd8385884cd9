//! A message as JSON: its kind, from whom to whom, and its fields. Keys and versions are texts of digits, values are
//! texts of hexadecimal digits, and a deletion is `null`.

use crate::writer::JsonWriter;
use rc_types::{Body, Code, Entry, KeyRange, Kind, Message, Part, PlanRow, Row, ServerId, Shared};
use std::alloc::{AllocError, Global};

/// A message as one JSON object.
///
/// # Errors
///
/// Memory was refused.
pub fn message_json(alloc: Global, message: &Message) -> Result<String, AllocError> {
    let mut writer = JsonWriter::new(alloc);
    put_message(&mut writer, message);
    writer.end()
}

/// A message as an object.
pub fn put_message(writer: &mut JsonWriter, message: &Message) {
    writer.open("{");
    writer.word_member("kind", Kind::of(&message.body).name());
    writer.word_member("from", message.from);
    writer.word_member("to", message.to);
    put_body(writer, &message.body);
    writer.close("}");
}

/// The fields of each kind of message, in the order in which `Body` has them.
fn put_body(writer: &mut JsonWriter, body: &Body) {
    match body {
        Body::Write { table, key, value } => {
            put_key(writer, *table, *key);
            put_value(writer, value.as_ref());
        }
        Body::Read { table, key } => put_key(writer, *table, *key),
        Body::WriteOk {
            seg,
            offset,
            term,
            table,
            key,
            version,
        } => {
            writer.member("seg", *seg);
            writer.member("offset", *offset);
            writer.member("term", *term);
            put_key(writer, *table, *key);
            writer.word_member("version", *version);
        }
        Body::ReadOk {
            table,
            key,
            version,
            value,
        } => {
            put_key(writer, *table, *key);
            writer.word_member("version", *version);
            put_value(writer, value.as_ref());
        }
        Body::Refused { code } => put_code(writer, *code),
        Body::Place {
            seg,
            epoch,
            digest,
            entries,
            closed,
        } => {
            put_pair(writer, *seg, *epoch);
            put_digest(writer, digest);
            put_entries(writer, entries.as_slice());
            writer.member("closed", *closed);
        }
        Body::Append {
            seg,
            offset,
            entries,
        } => {
            writer.member("seg", *seg);
            writer.member("offset", *offset);
            put_entries(writer, entries.as_slice());
        }
        Body::Close { seg, len } => {
            writer.member("seg", *seg);
            writer.member("len", *len);
        }
        Body::Stored {
            seg,
            epoch,
            len,
            closed,
        } => {
            put_pair(writer, *seg, *epoch);
            writer.member("len", *len);
            writer.member("closed", *closed);
        }
        Body::Commit { seg, epoch } | Body::CommitOk { seg, epoch } => {
            put_pair(writer, *seg, *epoch);
        }
        Body::Enlist | Body::Ready => {}
        Body::List { version, rows } => {
            writer.member("version", *version);
            put_list(writer, rows.as_slice());
        }
        Body::Gather { attempt, master } => put_attempt(writer, *attempt, *master),
        Body::Replicas { attempt, rows } => {
            writer.member("attempt", *attempt);
            put_rows(writer, rows.as_slice());
        }
        Body::Plan {
            attempt,
            master,
            head,
            rows,
            parts,
        } => {
            put_attempt(writer, *attempt, *master);
            writer.member("head", *head);
            put_plan(writer, rows.as_slice(), parts.as_slice());
        }
        Body::Fetch {
            attempt,
            master,
            seg,
            len,
            part,
        } => {
            put_attempt(writer, *attempt, *master);
            writer.member("seg", *seg);
            writer.member("len", *len);
            writer.name("part");
            put_part(writer, part);
        }
        Body::Data {
            attempt,
            seg,
            term,
            entries,
        } => {
            writer.member("attempt", *attempt);
            writer.member("seg", *seg);
            writer.member("term", *term);
            put_entries(writer, entries.as_slice());
        }
        Body::Recovered { attempt, term } => {
            writer.member("attempt", *attempt);
            writer.member("term", *term);
        }
        Body::Own {
            range,
            term,
            previous,
            attempt,
        } => {
            put_range(writer, range);
            writer.member("term", *term);
            writer.member("previous", *previous);
            writer.member("attempt", *attempt);
        }
        Body::SplitOk { table, at } => {
            writer.member("table", *table);
            writer.word_member("at", *at);
        }
        Body::Free { seg } => writer.member("seg", *seg),
    }
}

/// A key of a table.
fn put_key(writer: &mut JsonWriter, table: u32, key: u64) {
    writer.member("table", table);
    writer.word_member("key", key);
}

/// The bytes of a value, or `null`.
fn put_value(writer: &mut JsonWriter, value: Option<&Shared<u8>>) {
    writer.name("value");
    match value {
        Some(bytes) => writer.bytes(bytes.as_slice()),
        None => writer.value("null"),
    }
}

/// A code as it is printed, and its name.
fn put_code(writer: &mut JsonWriter, code: Code) {
    writer.word_member("code", code);
    writer.word_member("name", code.name());
}

/// A segment and its epoch.
fn put_pair(writer: &mut JsonWriter, seg: u16, epoch: u16) {
    writer.member("seg", seg);
    writer.member("epoch", epoch);
}

/// The segments of a digest.
fn put_digest(writer: &mut JsonWriter, digest: &Shared<u16>) {
    writer.name("digest");
    writer.open("[");
    for seg in digest.as_slice() {
        writer.value(*seg);
    }
    writer.close("]");
}

/// Entries of a log.
fn put_entries(writer: &mut JsonWriter, entries: &[Entry]) {
    writer.name("entries");
    writer.open("[");
    for entry in entries {
        writer.open("{");
        writer.member("term", entry.term);
        put_key(writer, entry.table, entry.key);
        writer.word_member("version", entry.version);
        put_value(writer, entry.value.as_ref());
        writer.close("}");
    }
    writer.close("]");
}

/// The rows of a server list.
fn put_list(writer: &mut JsonWriter, rows: &[(ServerId, bool)]) {
    writer.name("rows");
    writer.open("[");
    for (id, is_up) in rows {
        writer.open("{");
        writer.word_member("id", *id);
        writer.member("up", *is_up);
        writer.close("}");
    }
    writer.close("]");
}

/// An attempt to recover a master.
fn put_attempt(writer: &mut JsonWriter, attempt: u32, master: ServerId) {
    writer.member("attempt", attempt);
    writer.word_member("master", master);
}

/// The rows of an answer to a Gather.
fn put_rows(writer: &mut JsonWriter, rows: &[Row]) {
    writer.name("rows");
    writer.open("[");
    for row in rows {
        writer.open("{");
        put_pair(writer, row.seg, row.epoch);
        writer.member("len", row.len);
        writer.member("closed", row.closed);
        put_digest(writer, &row.digest);
        writer.close("}");
    }
    writer.close("]");
}

/// The rows and the parts of a plan.
fn put_plan(writer: &mut JsonWriter, rows: &[PlanRow], parts: &[Part]) {
    writer.name("rows");
    writer.open("[");
    for row in rows {
        writer.open("{");
        writer.member("seg", row.seg);
        writer.word_member("holder", row.holder);
        writer.member("len", row.len);
        writer.close("}");
    }
    writer.close("]");
    writer.name("parts");
    writer.open("[");
    for part in parts {
        put_part(writer, part);
    }
    writer.close("]");
}

/// A part of a recovery.
fn put_part(writer: &mut JsonWriter, part: &Part) {
    writer.open("{");
    put_range(writer, &part.range);
    writer.member("previous", part.previous);
    writer.member("term", part.term);
    writer.close("}");
}

/// A range of keys.
fn put_range(writer: &mut JsonWriter, range: &KeyRange) {
    writer.member("table", range.table);
    writer.word_member("lo", range.lo);
    writer.word_member("hi", range.hi);
}
