//! A setup and events as a text.

use rc_reading::{Hosts, Kinds, ScenarioEvent};
use rc_story::{JsonWriter, put_deliver, put_event, put_setup};
use rc_types::limits::MAX_HOSTS;
use rc_types::{Event, Kind, Setup};
use std::alloc::{AllocError, Global};

/// An event of a scenario that is left.
#[derive(Clone, Copy)]
pub struct Left {
    /// Its place in the scenario.
    pub place: usize,
    /// The message that it delivers, if it is a delivery.
    pub message: usize,
}

/// A scenario of format 2 with these events of a world: one event in each line.
///
/// # Errors
///
/// Memory was refused.
pub fn saved_events(alloc: Global, setup: &Setup, events: &[Event]) -> Result<String, AllocError> {
    let mut writer = begun(alloc, setup);
    for event in events {
        writer.line();
        writer.open("{");
        put_event(&mut writer, event);
        writer.close("}");
    }
    ended(writer)
}

/// A scenario of format 2 with those of these events that are left: one event in each line.
///
/// # Errors
///
/// Memory was refused.
pub fn saved_scenario(
    alloc: Global,
    setup: &Setup,
    events: &[ScenarioEvent],
    left: &[Left],
) -> Result<String, AllocError> {
    let mut writer = begun(alloc, setup);
    for one in left {
        if let Some(event) = events.get(one.place) {
            writer.line();
            writer.open("{");
            match event {
                ScenarioEvent::Core(Event::Deliver(_)) => put_deliver(&mut writer, one.message),
                ScenarioEvent::Core(event) => put_event(&mut writer, event),
                ScenarioEvent::Settle { kinds, hosts } => put_settle(&mut writer, *kinds, *hosts),
            }
            writer.close("}");
        }
    }
    ended(writer)
}

/// What precedes the events.
fn begun(alloc: Global, setup: &Setup) -> JsonWriter {
    let mut writer = JsonWriter::new(alloc);
    writer.open("{");
    put_setup(&mut writer, setup);
    writer.name("events");
    writer.open("[");
    writer
}

/// What was written, with its end.
fn ended(mut writer: JsonWriter) -> Result<String, AllocError> {
    writer.close("\n]");
    writer.close("}");
    writer.end_line()
}

/// A pass over the messages, with the kinds and the hosts that it passes over, if there are any.
fn put_settle(writer: &mut JsonWriter, kinds: Kinds, hosts: Hosts) {
    writer.word_member("e", "settle");
    let mut some = false;
    for kind in Kind::ALL.iter().filter(|kind| kinds.has(**kind)) {
        begin_list(writer, "kinds", some);
        writer.word(kind.name());
        some = true;
    }
    end_list(writer, some);
    some = false;
    for host in (0..MAX_HOSTS).filter(|host| hosts.has(*host)) {
        begin_list(writer, "hosts", some);
        writer.value(host);
        some = true;
    }
    end_list(writer, some);
}

/// Begins a list of this name, if it has not begun.
fn begin_list(writer: &mut JsonWriter, name: &str, has_begun: bool) {
    if !has_begun {
        writer.name(name);
        writer.open("[");
    }
}

/// Ends a list, if it has begun.
fn end_list(writer: &mut JsonWriter, has_begun: bool) {
    if has_begun {
        writer.close("]");
    }
}
