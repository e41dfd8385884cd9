//! Power failure after each event of a drawing.

ghost use Rattle.std.specs.Prelude.{◌≡◌, ◌≤◌, ◌<◌, ◌+◌, ◌*◌, true, false, length, drop, IfOk, OnOk};
ghost use Rattle.rc_types.specs.declared.limits.TheConstants.{MAX_EVENTS};
ghost use Rattle.rc_model.specs.World.{step, replay, replay_from};
ghost use Rattle.rc_world.specs.Happened.{replayed, opened};
ghost use Rattle.rc_world.specs.HostView.{IsWithinLimits};
ghost use Rattle.rc_runs.specs.Draw.{drawn, played};
ghost use Rattle.rc_runs.specs.Stops.{cut_world, breaks, breaches_at, breaches_below, breaches_of};

use crate::Run;
use crate::choosing::HOSTS;
use crate::cutting::{Keeping, cut_scene};
use crate::drawing::draw;
use crate::playing::{drawing_setup, play};
use rc_audit::audit;
use rc_reading::ScenarioEvent;
use rc_types::{Event, Fault, Setup, TryClone};
use std::alloc::{AllocError, Global};

/// Power failure after each event of a drawing without freeing, in three ways: after the events so
/// far all servers stop, and all hosts start again with all of their open replicas, with those of
/// segments with odd numbers, or with none. Then the messages pass, the coordinator's timer goes off,
/// the messages pass, the recovery of each crashed server is decided, the messages pass, and all
/// messages are judged. It gives how many times that was done, and in how many of them a breach of
/// the headline was found, which is none. Where no fewer replicas are kept than all, it is the same run, and is made
/// once.
///
/// # Errors
///
/// `OutOfMemory` (F1): memory was refused.
pub fn stops(alloc: Global, seed: u64, steps: usize) -> Result<(usize, usize), AllocError>
    ensures cuts { IfOk result (λ numbers. numbers.0 ≡ 3 * length (drawn seed steps false)) }
    ensures breaches { IfOk result (λ numbers. numbers.1 ≡ breaches_below (drawn seed steps false)
        (length (drawn seed steps false))) }
    ensures none { IfOk result (λ numbers. numbers.1 ≡ 0) }
{
    let events = draw(alloc, seed, steps, false)?;
    let setup = drawing_setup(alloc, false);
    let breaches = cut_each(alloc, &setup, HOSTS, events.as_slice())?;
    Ok((3 * events.len(), breaches))
}

/// Power failure after each of these events of so many hosts, in three ways, as [`stops`] has it: how many breaches of
/// the headline they lead to, which is none. An event that can't happen is passed over.
///
/// # Errors
///
/// `OutOfMemory` (F1): memory was refused.
pub fn cut_each(
    alloc: Global,
    setup: &Setup,
    hosts: u8,
    events: &[Event],
) -> Result<usize, AllocError>
    requires within { IsWithinLimits setup.now }
    requires few { length events.now ≤ MAX_EVENTS }
    ensures ok { IfOk result (λ count. count ≡ breaches_of setup.now hosts events.now (length events.now)) }
    ensures none { IfOk result (λ count. count ≡ 0) }
{
    let mut run = opened(alloc, setup)?;
    let mut breaches = 0;
    for last in 0..events.len() {
        take(alloc, &mut run, &events[last])?;
        breaches += breaches_after(alloc, &run, setup, hosts, &events[..last + 1])?;
    }
    Ok(breaches)
}

/// In how many of the three ways a power failure after these events, which this run has taken, leads to a breach. Where
/// as much is kept as where all is, the world after it is the same, and so is this number.
#[tactic(auto, unfolding(crate::specs::Stops::breaches_at))]
fn breaches_after(
    alloc: Global,
    run: &Run<Global>,
    setup: &Setup,
    hosts: u8,
    events: &[Event],
) -> Result<usize, AllocError>
    requires within { IsWithinLimits setup.now }
    requires few { length events.now ≤ MAX_EVENTS }
    requires taken { replayed run.now ≡ replay setup.now events.now }
    ensures ok { IfOk result (λ count. count ≡ breaches_at setup.now hosts events.now) }
    ensures none { IfOk result (λ count. count ≡ 0) }
{
    let odd_is_all = Keeping::OddSegments.keeps_all(run.world(), hosts)?;
    let nothing_is_all = Keeping::Nothing.keeps_all(run.world(), hosts)?;
    let all = breaks(alloc, run, setup, hosts, events, Keeping::All)?;
    let odd = breaks_unless(
        alloc,
        run,
        setup,
        hosts,
        events,
        Keeping::OddSegments,
        odd_is_all,
        all,
    )?;
    let nothing = breaks_unless(
        alloc,
        run,
        setup,
        hosts,
        events,
        Keeping::Nothing,
        nothing_is_all,
        all,
    )?;
    Ok(all + odd + nothing)
}

/// 1 where a power failure after these events leads to a breach, else 0: where as much is kept as where all is, this
/// number, which is that of all.
fn breaks_unless(
    alloc: Global,
    run: &Run<Global>,
    setup: &Setup,
    hosts: u8,
    events: &[Event],
    keeping: Keeping,
    is_all: bool,
    all: usize,
) -> Result<usize, AllocError>
    requires within { IsWithinLimits setup.now }
    requires few { length events.now ≤ MAX_EVENTS }
    requires taken { replayed run.now ≡ replay setup.now events.now }
    requires none { all ≡ 0 }
    requires alike { is_all ≡ true → all ≡ breaks (cut_world setup.now hosts keeping events.now) }
    ensures ok { IfOk result (λ count. count ≡ breaks (cut_world setup.now hosts keeping events.now)) }
    ensures none { IfOk result (λ count. count ≡ 0) }
{
    if is_all {
        return Ok(all);
    }
    breaks(alloc, run, setup, hosts, events, keeping)
}

/// 1 where a power failure after these events, which this run has taken, leads to a breach, else 0.
#[tactic(auto, unfolding(crate::specs::Stops::breaks))]
fn breaks(
    alloc: Global,
    run: &Run<Global>,
    setup: &Setup,
    hosts: u8,
    events: &[Event],
    keeping: Keeping,
) -> Result<usize, AllocError>
    requires within { IsWithinLimits setup.now }
    requires few { length events.now ≤ MAX_EVENTS }
    requires taken { replayed run.now ≡ replay setup.now events.now }
    ensures ok { IfOk result (λ count. count ≡ breaks (cut_world setup.now hosts keeping events.now)) }
    ensures none { IfOk result (λ count. count ≡ 0) }
{
    let run = match cut(alloc, run, setup, hosts, events, keeping) {
        Ok(run) => run,
        Err(fault) => return Err(fault),
    };
    match audit(alloc, run.world().sent()) {
        Ok(Some(_)) => Ok(1),
        Ok(None) => Ok(0),
        Err(fault) => Err(fault),
    }
}

/// A run of its own of these events, which this run has taken, and of what follows a power failure after them. It
/// begins with a copy in which all servers have stopped, or, where there is none, anew.
fn cut(
    alloc: Global,
    run: &Run<Global>,
    setup: &Setup,
    hosts: u8,
    events: &[Event],
    keeping: Keeping,
) -> Result<Run<Global>, AllocError>
    requires within { IsWithinLimits setup.now }
    requires few { length events.now ≤ MAX_EVENTS }
    requires taken { replayed run.now ≡ replay setup.now events.now }
    ensures { IfOk result (λ cut. replayed cut ≡ cut_world setup.now hosts keeping events.now) }
{
    let scene = cut_scene(alloc, run.world(), hosts, keeping)?;
    match run.stopped(alloc, hosts, alloc)? {
        Some(stopped) => {
            let stops = stopped.world().events().len() - run.world().events().len();
            play_on(alloc, stopped, after_stops(scene.as_slice(), stops))
        }
        None => {
            let again = run_of(alloc, setup, events)?;
            play_on(alloc, again, scene.as_slice())
        }
    }
}

/// The scene without so many events at its front.
fn after_stops(scene: &[ScenarioEvent], stops: usize) -> &[ScenarioEvent]
    requires { stops ≤ length scene.now }
    ensures { result.now ≡ drop stops scene.now }
{
    &scene[stops..]
}

/// The run, and these events.
fn play_on(
    alloc: Global,
    run: Run<Global>,
    scene: &[ScenarioEvent],
) -> Result<Run<Global>, AllocError>
    ensures { IfOk result (λ on. replayed on ≡ played (replayed run) scene.now) }
{
    let mut run = run;
    match play(alloc, &mut run, scene) {
        Ok(()) => Ok(run),
        Err(fault) => Err(fault),
    }
}

/// The run of these events, of which those that can't happen are passed over.
fn run_of(alloc: Global, setup: &Setup, events: &[Event]) -> Result<Run<Global>, AllocError>
    requires within { IsWithinLimits setup.now }
    requires few { length events.now ≤ MAX_EVENTS }
    ensures { IfOk result (λ run. replayed run ≡ replay setup.now events.now) }
{
    let mut run = match opened(alloc, setup) {
        Ok(run) => run,
        Err(fault) => return Err(fault),
    };
    match take_all(alloc, &mut run, events) {
        Ok(()) => Ok(run),
        Err(fault) => Err(fault),
    }
}

/// A run in which nothing has happened.
fn opened(alloc: Global, setup: &Setup) -> Result<Run<Global>, AllocError>
    requires { IsWithinLimits setup.now }
    ensures { IfOk result (λ run. run ≡ opened setup.now) }
{
    let setup = setup.try_clone(alloc)?;
    Ok(Run::new(alloc, setup, alloc))
}

/// Takes these events, one after another.
fn take_all(alloc: Global, run: &mut Run<Global>, events: &[Event]) -> Result<(), AllocError>
    requires { length run.old.events + length events.now ≤ MAX_EVENTS }
    ensures { OnOk result (replayed run.new ≡ replay_from (replayed run.old) events.now) }
{
    for event in events {
        take(alloc, run, event)?;
    }
    Ok(())
}

/// Takes this event, or passes it over where it can't happen.
fn take(alloc: Global, run: &mut Run<Global>, event: &Event) -> Result<(), AllocError>
    requires { length run.old.events < MAX_EVENTS }
    ensures ok { OnOk result (replayed run.new ≡ step (replayed run.old) event.now) }
    ensures more { OnOk result (length run.new.events ≤ length run.old.events + 1) }
{
    match run.take(alloc, event) {
        Ok(()) => Ok(()),
        Err(Fault::BadEvent) => Ok(()),
        // (only memory is left)
        Err(_) => Err(AllocError),
    }
}
