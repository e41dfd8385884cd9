//! A world is healed.

ghost use Rattle.std.specs.Prelude.{◌≡◌, ◌⊎◌, ◌≤◌, true, length, drop, IfOk, IfErr};
ghost use Rattle.rc_types.specs.declared.faults.Fault.TheVariants.{OutOfMemory, BadEvent};
ghost use Rattle.rc_world.specs.Happened.{AllHappen, opened, sent_in, with_events};
ghost use Rattle.rc_world.specs.HostView.{IsWithinLimits};
ghost use Rattle.rc_runbook.specs.Healing.{are_shown, are_all_drops};

use crate::checking::{are_all_drops, are_shown};
use crate::course::Course;
use crate::deeds::{Deed, Gone, Served};
use crate::losses::gone;
use crate::rounds::Healer;
use crate::trying::{Trial, copies, is_among, try_tablets};
use rc_types::{Event, Fault, ServerId, Setup, Tablet, TryClone};
use rc_world::{World, run};
use std::alloc::Global;

/// How many rounds of the runbook there are at most.
const MOST_ROUNDS: u8 = 3;

/// A world that was healed.
pub struct Healed {
    /// The world as it then is.
    pub world: World<Global>,
    /// The events that have healed it.
    pub events: Vec<Event>,
    /// What was done by them and why, in order.
    pub deeds: Vec<Deed>,
    /// How many rounds of the runbook there were.
    pub rounds: u8,
    /// Its tablets, in order of table and first key.
    pub tablets: Vec<Tablet>,
    /// Those of them that are served.
    pub served: Vec<Served>,
    /// The segments that are gone, one for each owner that has crashed and is not recovered for this reason.
    pub gone: Vec<Gone>,
    /// The events of a trial, after all of it, in which those that are served have shown it.
    pub trial: Vec<Event>,
}

impl Drop for Healed {
    fn drop(self) {
        let Healed {
            world: _,
            events: _,
            deeds: _,
            rounds: _,
            tablets: _,
            served: _,
            gone: _,
            trial: _,
        } = self;
    }
}

/// What was found: nothing is claimed of it.
#[derive(Drop)]
struct Found {
    healer: Healer,
    rounds: u8,
    state: State,
}

/// What has become of the tablets.
#[derive(Drop)]
struct State {
    tablets: Vec<Tablet>,
    trial: Trial,
    gone: Vec<Gone>,
}

/// Heals the world in which these events have happened. As long as a tablet is neither served nor gone, the runbook is
/// gone through once more, three times at most. Where `power` is set, all servers are first stopped and all hosts
/// started. A world without tablets is left as it is. What was sent before and has not arrived never does.
///
/// # Errors
///
/// `OutOfMemory` (F1): memory was refused. `BadEvent` (F18): one of the events is not possible, or the 200,000 that a
/// world takes do not suffice.
pub fn heal(alloc: Global, setup: &Setup, events: &[Event], power: bool) -> Result<Healed, Fault>
    requires { IsWithinLimits setup.now }
    ensures world { IfOk result (λ healed.
        healed.world ≡ with_events (with_events (opened setup.now) events.now) healed.events.items) }
    ensures possible { IfOk result (λ healed.
        AllHappen (with_events (opened setup.now) events.now) healed.events.items) }
    ensures rounds { IfOk result (λ healed. healed.rounds ≤ 3) }
    ensures served { IfOk result (λ healed. are_shown (drop (length (sent_in healed.world)) (sent_in
        (with_events (with_events (opened setup.now) healed.world.events) healed.trial.items))) healed.served.items ≡
        true) }
    ensures gone { IfOk result (λ healed. are_all_drops healed.world.events healed.gone.items ≡ true) }
    ensures fault { IfErr result (λ fault. (fault ≡ OutOfMemory) ⊎ (fault ≡ BadEvent)) }
{
    match heal_or_fail(alloc, setup, events, power) {
        Ok(healed) => Ok(healed),
        Err(fault) => Err(told_as(fault)),
    }
}

/// Refused memory as such, anything else as an event that is not possible.
fn told_as(fault: Fault) -> Fault
    ensures { (result ≡ OutOfMemory) ⊎ (result ≡ BadEvent) }
{
    match fault {
        Fault::OutOfMemory => Fault::OutOfMemory,
        _ => Fault::BadEvent,
    }
}

/// The same, with any fault.
fn heal_or_fail(
    alloc: Global,
    setup: &Setup,
    events: &[Event],
    power: bool,
) -> Result<Healed, Fault>
    requires { IsWithinLimits setup.now }
    ensures world { IfOk result (λ healed.
        healed.world ≡ with_events (with_events (opened setup.now) events.now) healed.events.items) }
    ensures possible { IfOk result (λ healed.
        AllHappen (with_events (opened setup.now) events.now) healed.events.items) }
    ensures rounds { IfOk result (λ healed. healed.rounds ≤ 3) }
    ensures served { IfOk result (λ healed. are_shown (drop (length (sent_in healed.world)) (sent_in
        (with_events (with_events (opened setup.now) healed.world.events) healed.trial.items))) healed.served.items ≡
        true) }
    ensures gone { IfOk result (λ healed. are_all_drops healed.world.events healed.gone.items ≡ true) }
{
    let Found {
        healer,
        rounds,
        state,
    } = look_for(alloc, setup, events, power)?;
    let (course, deeds) = healer.end();
    let State {
        tablets,
        trial,
        gone,
    } = state;
    let more = copies(alloc, course.world.events(), events.len())?;
    let world = played(alloc, setup, events, more.as_slice())?;
    if !have_shown(alloc, setup, &world, &trial)? {
        return Err(Fault::BadEvent);
    }
    if !are_all_drops(world.events(), gone.as_slice()) {
        return Err(Fault::BadEvent);
    }
    let Trial {
        events: trial,
        served,
    } = trial;
    Ok(Healed {
        world,
        events: more,
        deeds,
        rounds,
        tablets,
        served,
        gone,
        trial,
    })
}

/// A world after some events and then others, which can all happen one after another.
fn played(
    alloc: Global,
    setup: &Setup,
    first: &[Event],
    then: &[Event],
) -> Result<World<Global>, Fault>
    requires { IsWithinLimits setup.now }
    ensures world { IfOk result (λ after.
        after ≡ with_events (with_events (opened setup.now) first.now) then.now) }
    ensures possible { IfOk result (λ _. AllHappen (with_events (opened setup.now) first.now) then.now) }
{
    let world = World::new(alloc, setup.try_clone(alloc)?, alloc);
    let before = play(alloc, world, first)?;
    let after = play(alloc, before, then)?;
    Ok(after)
}

/// The world after these events, which can all happen one after another.
fn play(alloc: Global, world: World<Global>, events: &[Event]) -> Result<World<Global>, Fault>
    ensures world { IfOk result (λ after. after ≡ with_events world events.now) }
    ensures possible { IfOk result (λ _. AllHappen world events.now) }
{
    match run(alloc, world, events) {
        Ok(world) => Ok(world),
        Err((_, _, fault)) => Err(fault),
    }
}

/// Whether in a trial, in a world apart, those that are said to be served have shown it.
fn have_shown(
    alloc: Global,
    setup: &Setup,
    world: &World<Global>,
    trial: &Trial,
) -> Result<bool, Fault>
    requires { IsWithinLimits setup.now }
    ensures { IfOk result (λ yes. yes ≡ are_shown (drop (length (sent_in world.now)) (sent_in
        (with_events (with_events (opened setup.now) world.now.events) trial.now.events.items)))
        trial.now.served.items) }
{
    let tried = played(alloc, setup, world.events(), trial.events.as_slice())?;
    let sent = tried.sent();
    let from = world.sent().len();
    if from > sent.len() {
        return Err(Fault::BadEvent);
    }
    Ok(are_shown(&sent[from..], trial.served.as_slice()))
}

/// What heals the world in which these events have happened.
fn look_for(alloc: Global, setup: &Setup, events: &[Event], power: bool) -> Result<Found, Fault>
    requires { IsWithinLimits setup.now }
    ensures rounds { IfOk result (λ found. found.rounds ≤ 3) }
{
    let course = Course::of(alloc, setup, events)?;
    let mut healer = Healer::new(alloc, setup, course);
    let mut state = State::unknown(alloc, &healer)?;
    if power && !state.tablets.is_empty() {
        healer.cut_power(alloc)?;
    }
    for round in 0..MOST_ROUNDS {
        if state.is_done() {
            return Ok(Found {
                healer,
                rounds: round,
                state,
            });
        }
        state = go_round(alloc, setup, &mut healer, &state, round)?;
    }
    Ok(Found {
        healer,
        rounds: MOST_ROUNDS,
        state,
    })
}

/// One round of the runbook, and what has become of the tablets by then.
fn go_round(
    alloc: Global,
    setup: &Setup,
    healer: &mut Healer,
    state: &State,
    round: u8,
) -> Result<State, Fault>
    requires { IsWithinLimits setup.now }
{
    let stuck = state.stuck(alloc, round)?;
    healer.round(alloc, stuck.as_slice())?;
    state_of(alloc, setup, healer)
}

/// What has become of the tablets by now.
fn state_of(alloc: Global, setup: &Setup, healer: &Healer) -> Result<State, Fault>
    requires { IsWithinLimits setup.now }
{
    let tablets = healer.course.world.coordinator().tablets(alloc)?;
    let events = healer.course.world.events();
    let trial = try_tablets(alloc, setup, events, tablets.as_slice())?;
    let mut lost: Vec<Gone> = Vec::new(alloc);
    for tablet in &tablets {
        let is_known = lost.iter().any(|gone| gone.master == tablet.owner);
        if tablet.crashed && !is_known && healer.is_refused(tablet.owner) {
            if let Some(gone) = gone(alloc, setup, events, tablet.owner)? {
                lost.push(gone)?;
            }
        }
    }
    Ok(State {
        tablets,
        trial,
        gone: lost,
    })
}

impl State {
    /// Of the tablets nothing is known.
    fn unknown(alloc: Global, healer: &Healer) -> Result<State, Fault> {
        Ok(State {
            tablets: healer.course.world.coordinator().tablets(alloc)?,
            trial: Trial::none(alloc),
            gone: Vec::new(alloc),
        })
    }

    /// Whether the tablet of this place is neither served nor gone.
    fn is_open(&self, tablet: &Tablet) -> bool {
        let is_served = is_among(self.trial.served.as_slice(), tablet);
        let is_gone = tablet.crashed && self.gone.iter().any(|gone| gone.master == tablet.owner);
        !is_served && !is_gone
    }

    /// Whether each tablet is served or gone.
    fn is_done(&self) -> bool {
        self.tablets.iter().all(|tablet| !self.is_open(tablet))
    }

    /// The owners that are up, and of whose tablets one is not served; nobody before the first round.
    fn stuck(&self, alloc: Global, round: u8) -> Result<Vec<ServerId>, Fault> {
        let mut owners = Vec::new(alloc);
        for tablet in &self.tablets {
            let is_stuck = round > 0 && !tablet.crashed && self.is_open(tablet);
            if is_stuck && !owners.contains(&tablet.owner) {
                owners.push(tablet.owner)?;
            }
        }
        Ok(owners)
    }
}
