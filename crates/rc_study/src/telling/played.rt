//! A scenario that was played, and the story of its run.

ghost use Rattle.rc_world.specs.HostView.{IsWithinLimits};

use crate::telling::changing::{phase_at, put_changes};
use crate::telling::standing::{put_masters, put_replicas};
use rc_audit::audit;
use rc_reading::ScenarioEvent;
use rc_runs::Run;
use rc_story::{JsonWriter, put_event, put_message, put_setup};
use rc_types::{Addr, Body, Code, Event, Fault, Message, Setup, TryClone};
use rc_world::World;
use std::alloc::{AllocError, Global};
use std::slice;

/// A scenario that was played, up to the first event that is not possible.
pub struct Played {
    run: Run<Global>,
    /// Of each event of the world, the place of what it comes from in the scenario.
    places: Vec<usize>,
    stopped: Option<(usize, Code)>,
}

impl Drop for Played {
    fn drop(self) {
        let Played {
            run: _,
            places: _,
            stopped: _,
        } = self;
    }
}

impl Played {
    /// Plays the scenario.
    ///
    /// # Errors
    ///
    /// Memory was refused.
    pub fn of(alloc: Global, setup: &Setup, events: &[ScenarioEvent]) -> Result<Played, AllocError>
        requires { IsWithinLimits setup.now }
    {
        let mut run = Run::new(alloc, setup.try_clone(alloc)?, alloc);
        let mut places = Vec::new(alloc);
        let stopped = play_through(alloc, &mut run, &mut places, events)?;
        Ok(Played {
            run,
            places,
            stopped,
        })
    }

    /// The event of the scenario at which the run stopped, by place from 0, and why.
    pub fn stopped(&self) -> Option<(usize, Code)> {
        self.stopped
    }

    /// The messages that were sent.
    pub fn messages(&self) -> &[Message] {
        self.run.world().sent()
    }
}

/// Plays the events one after another, up to the first that is not possible, and notes for each event of the world
/// the place of what it comes from. Gives the place at which it stops, and why.
fn play_through(
    alloc: Global,
    run: &mut Run<Global>,
    places: &mut Vec<usize>,
    events: &[ScenarioEvent],
) -> Result<Option<(usize, Code)>, AllocError> {
    for (place, event) in events.iter().enumerate() {
        let played = run.play_all(alloc, slice::from_ref(event), &mut ());
        places.resize(run.world().events().len(), place)?;
        match played {
            Ok(()) => {}
            Err((_, Fault::OutOfMemory)) => return Err(AllocError),
            Err((_, fault)) => return Ok(Some((place, fault.code()))),
        }
    }
    Ok(None)
}

/// The story of a run of this setup, as one JSON value. The same events are taken once more, one after another, to see
/// what each of them does.
///
/// # Errors
///
/// Memory was refused.
pub fn story_json(alloc: Global, setup: &Setup, played: &Played) -> Result<String, AllocError>
    requires { IsWithinLimits setup.now }
{
    let mut writer = JsonWriter::new(alloc);
    writer.open("{");
    put_setup(&mut writer, setup);
    writer.name("events");
    writer.open("[");
    let mut world = World::new(alloc, setup.try_clone(alloc)?, alloc);
    for (event, place) in played.run.world().events().iter().zip(&played.places) {
        writer.line();
        put_turn(alloc, &mut writer, &mut world, event, *place)?;
    }
    writer.close("]");
    writer.name("messages");
    writer.open("[");
    for message in world.sent() {
        writer.line();
        put_message(&mut writer, message);
    }
    writer.close("]");
    put_masters(&mut writer, &world);
    put_replicas(&mut writer, &world);
    put_end(alloc, &mut writer, &world, played.stopped)?;
    writer.close("}");
    writer.end_line()
}

/// An event, which the world takes: its place in the scenario, what it says, the numbers of what it sent, and what it
/// changed.
fn put_turn(
    alloc: Global,
    writer: &mut JsonWriter,
    world: &mut World<Global>,
    event: &Event,
    place: usize,
) -> Result<(), AllocError> {
    writer.open("{");
    writer.member("place", place);
    put_event(writer, event);
    put_log_end(writer, world, event);
    let before = phase_at(event, world);
    let first = world.sent().len();
    world.take(alloc, event).map_err(|_| AllocError)?;
    writer.name("sent");
    writer.open("[");
    for number in first..world.sent().len() {
        writer.value(number);
    }
    writer.close("]");
    put_changes(writer, event, world, before);
    writer.close("}");
    Ok(())
}

/// Where the log of the master ends to which the event delivers a write.
fn put_log_end(writer: &mut JsonWriter, world: &World<Global>, event: &Event) {
    if let Some((seg, offset)) = log_end_at(world, event) {
        writer.name("log_end");
        writer.open("{");
        writer.member("seg", seg);
        writer.member("offset", offset);
        writer.close("}");
    }
}

/// The segment and the offset at which the log of the master ends to which the event delivers a write, if it has one.
fn log_end_at(world: &World<Global>, event: &Event) -> Option<(u16, usize)> {
    let Event::Deliver(number) = event else {
        return None;
    };
    let message = world.sent().get(*number)?;
    let (Addr::Server(id), Body::Write { .. }) = (message.to, &message.body) else {
        return None;
    };
    let log = world.master(id.index)?.log();
    let head = log.head();
    Some((head, log.segment(head)?.len()))
}

/// What the audit finds in the messages, and where the run stopped.
fn put_end(
    alloc: Global,
    writer: &mut JsonWriter,
    world: &World<Global>,
    stopped: Option<(usize, Code)>,
) -> Result<(), AllocError> {
    match audit(alloc, world.sent()).map_err(|_| AllocError)? {
        Some(breach) => writer.word_member("audit", breach),
        None => writer.word_member("audit", "clean"),
    }
    writer.name("stopped");
    match stopped {
        Some((place, code)) => {
            writer.open("{");
            writer.word_member("code", code);
            writer.member("place", place);
            writer.close("}");
        }
        None => writer.value("null"),
    }
    Ok(())
}
