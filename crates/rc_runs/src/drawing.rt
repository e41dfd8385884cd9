//! Worlds whose events come from a seed.

ghost use Rattle.std.specs.Prelude.{◌≡◌, ◌≤◌, [], length, OnOk, IfOk};
ghost use Rattle.rc_types.specs.declared.limits.TheConstants.{MAX_EVENTS};
ghost use Rattle.rc_types.specs.declared.events.Event.TheVariants.{Start};
ghost use Rattle.rc_reading.specs.declared.scenarios.ScenarioEvent.TheVariants.{Core};
ghost use Rattle.rc_world.specs.Happened.{replayed};
ghost use Rattle.rc_runs.specs.Draw.{beginning, played, begun, tried, drawn_step, drawn_from, drawn_world, drawn};
ghost use Rattle.rc_runs.specs.Generator.{generator};

use crate::Run;
use crate::choosing::event_of;
use crate::playing::{drawing_setup, play, settled};
use crate::words::{Words, generator_of};
use rc_reading::ScenarioEvent;
use rc_types::{Event, Fault, Order, Seq, ServerId, copied};
use rc_world::World;
use std::alloc::{AllocError, Global};

/// The world of a drawing: hosts 0 to 4 are started and table 1 is created for the first server of host
/// 0, each followed by a pass over the messages. Then for each step three words of the seed's
/// generator choose an event, which is passed over where it can't happen. Masters have factor 2 and
/// segments of 4, and free segments where `free` says so.
///
/// # Errors
///
/// `OutOfMemory` (F1): memory was refused.
pub fn drawn_world(
    alloc: Global,
    seed: u64,
    steps: usize,
    free: bool,
) -> Result<World<Global>, AllocError>
    ensures world { IfOk result (λ world. replayed world ≡ drawn_world seed steps free) }
    ensures events { IfOk result (λ world. world.events ≡ drawn seed steps free) }
    ensures few { IfOk result (λ world. length world.events ≤ MAX_EVENTS) }
{
    let mut world = match begun(alloc, free) {
        Ok(world) => world,
        Err(fault) => return Err(fault),
    };
    match draw_steps(alloc, &mut world, seed, steps) {
        Ok(()) => {
            let _events = world.events();
            Ok(world)
        }
        Err(fault) => Err(fault),
    }
}

/// The events of a drawing: those before its first step included, and those that were passed over
/// left out. See [`drawn_world`].
///
/// # Errors
///
/// `OutOfMemory` (F1): memory was refused.
pub fn draw(alloc: Global, seed: u64, steps: usize, free: bool) -> Result<Vec<Event>, AllocError>
    ensures ok { IfOk result (λ events. events.items ≡ drawn seed steps free) }
    ensures few { IfOk result (λ events. length events.items ≤ MAX_EVENTS) }
{
    match drawn_world(alloc, seed, steps, free) {
        Ok(world) => copied(alloc, world.events()),
        Err(fault) => Err(fault),
    }
}

/// The world before the first step.
fn begun(alloc: Global, free: bool) -> Result<World<Global>, AllocError>
    ensures world { IfOk result (λ world. replayed world ≡ begun free) }
    ensures taken { IfOk result (λ world. (replayed world).events ≡ world.events) }
{
    let mut run = Run::new(alloc, drawing_setup(alloc, free), alloc);
    match begin(alloc, &mut run) {
        Ok(()) => Ok(run.into_world()),
        Err(fault) => Err(fault),
    }
}

/// What happens before the first step.
fn begin(alloc: Global, run: &mut Run<Global>) -> Result<(), AllocError>
    ensures { OnOk result (replayed run.new ≡ played (replayed run.old) beginning) }
{
    let beginning = [
        fresh_start(alloc, 0),
        fresh_start(alloc, 1),
        fresh_start(alloc, 2),
        fresh_start(alloc, 3),
        fresh_start(alloc, 4),
        settled(),
        ScenarioEvent::Core(Event::Order(Order::Create {
            table: 1,
            owner: ServerId {
                index: 0,
                generation: 1,
            },
        })),
        settled(),
    ];
    play(alloc, run, &beginning)
}

/// A start of the host with nothing kept.
fn fresh_start(alloc: Global, host: u8) -> ScenarioEvent
    ensures { result ≡ Core (Start host []) }
{
    ScenarioEvent::Core(Event::Start {
        host,
        kept: Seq::new(alloc),
    })
}

/// The steps.
fn draw_steps(
    alloc: Global,
    world: &mut World<Global>,
    seed: u64,
    steps: usize,
) -> Result<(), AllocError>
    requires { (replayed world.old).events ≡ world.old.events }
    ensures made { OnOk result (replayed world.new ≡ drawn_from steps 0 (generator seed) (replayed world.old)) }
    ensures taken { OnOk result ((replayed world.new).events ≡ world.new.events) }
{
    let mut generator = generator_of(seed);
    for number in 0..steps {
        let words = Words::take(&mut generator);
        draw_step(alloc, world, number, words)?;
    }
    Ok(())
}

/// One step, of this number.
fn draw_step(
    alloc: Global,
    world: &mut World<Global>,
    number: usize,
    words: Words,
) -> Result<(), AllocError>
    requires { (replayed world.old).events ≡ world.old.events }
    ensures made { OnOk result (replayed world.new ≡ drawn_step (replayed world.old) number words) }
    ensures taken { OnOk result ((replayed world.new).events ≡ world.new.events) }
{
    match event_of(alloc, world, number, words)? {
        Some(event) => try_event(alloc, world, &event),
        None => Ok(()),
    }
}

/// An event happens, or is passed over where it can't.
fn try_event(alloc: Global, world: &mut World<Global>, event: &Event) -> Result<(), AllocError>
    requires { (replayed world.old).events ≡ world.old.events }
    ensures made { OnOk result (replayed world.new ≡ tried (replayed world.old) event.now) }
    ensures taken { OnOk result ((replayed world.new).events ≡ world.new.events) }
{
    match world.take(alloc, event) {
        Ok(()) => Ok(()),
        Err(Fault::BadEvent) => Ok(()),
        // (only memory is left)
        Err(_) => Err(AllocError),
    }
}
