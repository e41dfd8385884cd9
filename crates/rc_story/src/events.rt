//! A setup and events as scenarios of format 2 spell them.

use crate::writer::JsonWriter;
use rc_types::{Addr, Body, Event, Order, Seq, ServerId, Setup};

/// The members of a setup, as they stand at the beginning of a scenario.
pub fn put_setup(writer: &mut JsonWriter, setup: &Setup) {
    writer.member("format", 2);
    writer.member("factor", setup.factor);
    writer.name("factors");
    writer.open("[");
    for factor in setup.factors.as_slice() {
        writer.value(*factor);
    }
    writer.close("]");
    writer.member("free", setup.free);
    writer.member("segment", setup.segment);
}

/// The members of an event.
pub fn put_event(writer: &mut JsonWriter, event: &Event) {
    match event {
        Event::Ask { to, body } => put_request(writer, *to, body),
        Event::Deliver(number) => put_deliver(writer, *number),
        Event::Tick(Addr::Server(id)) => put_named(writer, "tick", *id),
        Event::Tick(Addr::Coordinator | Addr::Outside) => {
            writer.word_member("e", "tick");
            writer.word_member("id", "c");
        }
        Event::Stop(id) => put_named(writer, "stop", *id),
        Event::Start { host, kept } => put_start(writer, *host, kept),
        Event::Order(Order::Suspect(id)) => put_named(writer, "suspect", *id),
        Event::Order(Order::Decide(id)) => put_named(writer, "decide", *id),
        Event::Order(Order::Create { table, owner }) => {
            writer.word_member("e", "create");
            writer.member("table", *table);
            put_id(writer, "owner", *owner);
        }
        Event::Order(Order::Split { table, at }) => {
            writer.word_member("e", "split");
            writer.member("table", *table);
            writer.member("at", *at);
        }
    }
}

/// The members of a delivery.
pub fn put_deliver(writer: &mut JsonWriter, number: usize) {
    writer.word_member("e", "deliver");
    writer.member("n", number);
}

/// An event of this kind that names a server alone.
fn put_named(writer: &mut JsonWriter, kind: &str, id: ServerId) {
    writer.word_member("e", kind);
    put_id(writer, "id", id);
}

/// A server, under this name.
fn put_id(writer: &mut JsonWriter, name: &str, id: ServerId) {
    writer.name(name);
    put_pair(writer, id);
    writer.close("]");
}

/// The index and the generation of a server, in a list that is not closed yet.
fn put_pair(writer: &mut JsonWriter, id: ServerId) {
    writer.open("[");
    writer.value(id.index);
    writer.value(id.generation);
}

/// A start, with what the host keeps, if it keeps something.
fn put_start(writer: &mut JsonWriter, host: u8, kept: &Seq<(ServerId, u16)>) {
    writer.word_member("e", "start");
    writer.member("host", host);
    if kept.is_empty() {
        return;
    }
    writer.name("kept");
    writer.open("[");
    for (id, seg) in kept.as_slice() {
        writer.open("[");
        put_pair(writer, *id);
        writer.close("]");
        writer.value(*seg);
        writer.close("]");
    }
    writer.close("]");
}

/// A write or a read: nothing else is asked for.
fn put_request(writer: &mut JsonWriter, to: ServerId, body: &Body) {
    if let Body::Read { table, key } = body {
        put_asked(writer, "read", to, *table, *key);
    } else if let Body::Write { table, key, value } = body {
        put_asked(writer, "write", to, *table, *key);
        writer.name("value");
        match value {
            Some(bytes) => writer.text(str::from_utf8(bytes.as_slice()).unwrap_or("")),
            None => writer.value("null"),
        }
    }
}

/// What is asked for at a server, and of which key.
fn put_asked(writer: &mut JsonWriter, kind: &str, to: ServerId, table: u32, key: u64) {
    writer.word_member("e", kind);
    put_id(writer, "to", to);
    writer.member("table", table);
    writer.member("key", key);
}
