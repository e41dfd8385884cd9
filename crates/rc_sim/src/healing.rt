//! From the bytes of a scenario to those of one in which its tablets have come back.

ghost use Rattle.std.specs.Prelude.{◌≡◌, ◌≢◌, [], string_bytes, IfOk, Ok};
ghost use Rattle.rc_world.specs.HostView.{IsWithinLimits};
ghost use Rattle.rc_sim.specs.declared.verdicts.Verdict.TheVariants.{Breach};
ghost use Rattle.rc_sim.specs.Failures.{failed_reads, failed_writes};
ghost use Rattle.rc_sim.specs.Statuses.{Answered};
ghost use Rattle.rc_sim.specs.Verdicts.{IsHealed, Healed as HealedText};

use crate::answers::{Answer, bad};
use crate::counted::Counted;
use crate::outlets::read_all;
use crate::simulating::write_answer;
use crate::verdicts::{SimFault, Verdict};
use rc_reading::{ReadFault, Scenario, ScenarioEvent, read_scenario};
use rc_runbook::{Deed, Gone, Healed, Served, Why};
use rc_runs::Run;
use rc_study::{Left, saved_scenario};
use rc_types::{Event, Fault, Setup, Tablet, TryClone};
use std::alloc::{AllocError, Global};
use std::io::{Read, Write};
use std::slice;

/// Reads a scenario, and writes it with the events that bring its tablets back, or the one line of a scenario that is
/// wrong. Each thing that was done is told to `errors`, with its reason, and what came of each tablet. Where the run
/// stops, or the events that a world takes do not suffice, nothing is written.
///
/// It fails as [`simulate`](crate::simulate) does.
pub(crate) fn heal<R: Read, W: Write, E: Write>(
    alloc: Global,
    power_cycle: bool,
    reader: &mut Counted<R>,
    writer: &mut Counted<W>,
    errors: &mut Counted<E>,
) -> Result<Verdict, SimFault>
    ensures answered { Answered HealedText result (R.remaining reader.old.inner) (W.contents writer.old.inner)
        (W.contents writer.new.inner) }
    ensures reads { reader.new.failures ≡ failed_reads result reader.old.failures }
    ensures writes { writer.new.failures ≡ failed_writes result writer.old.failures }
    ensures no_breach { result ≢ Ok Breach }
{
    let bytes = read_all(alloc, reader)?;
    let answer = healed_of(alloc, bytes.as_slice(), power_cycle, errors)?;
    write_answer(writer, &answer)
}

/// What is written of these bytes as a scenario.
fn healed_of<E: Write>(
    alloc: Global,
    bytes: &[u8],
    power_cycle: bool,
    errors: &mut Counted<E>,
) -> Result<Answer, AllocError>
    ensures ok { IfOk result (λ answer. HealedText bytes.now answer.verdict (string_bytes answer.text)) }
{
    match read_scenario(alloc, bytes) {
        Ok(scenario) => answer_of(alloc, scenario, power_cycle, errors),
        Err(ReadFault::OutOfMemory) => Err(AllocError),
        Err(ReadFault::BadInput(place)) => bad(alloc, place),
    }
}

/// What is written of a scenario.
fn answer_of<E: Write>(
    alloc: Global,
    scenario: Scenario,
    power_cycle: bool,
    errors: &mut Counted<E>,
) -> Result<Answer, AllocError>
    requires { IsWithinLimits scenario.setup }
    ensures ok { IfOk result (λ answer. IsHealed answer.verdict (string_bytes answer.text)) }
{
    let Scenario { setup, events } = scenario;
    let copy = setup.try_clone(alloc)?;
    let mut run = Run::new(alloc, copy, alloc);
    let mut places = Vec::new(alloc);
    for (place, event) in events.as_slice().iter().enumerate() {
        let outcome = run.play_all(alloc, slice::from_ref(event), &mut ());
        note_place(&mut places, run.world().events().len(), place)?;
        if let Err((_, fault)) = outcome {
            let verdict = Verdict::Stopped(place, fault.code());
            return Ok(Answer::nothing(alloc, verdict));
        }
    }
    match rc_runbook::heal(alloc, &setup, run.world().events(), power_cycle) {
        Ok(healed) => told(
            alloc,
            &setup,
            events.into_vec(),
            places.as_slice(),
            &healed,
            errors,
        ),
        Err(Fault::OutOfMemory) => Err(AllocError),
        Err(_) => {
            let _ = writeln!(
                errors.inner,
                "error: a run takes 200000 events, and these do not suffice to heal it"
            );
            Ok(Answer::nothing(alloc, Verdict::Wrong))
        }
    }
}

/// The events of the world that have happened since come from this place.
fn note_place(places: &mut Vec<usize>, happened: usize, place: usize) -> Result<(), AllocError> {
    for _ in places.len()..happened {
        places.push(place)?;
    }
    Ok(())
}

/// Tells what was done, and gives the scenario with the events that did it.
fn told<E: Write>(
    alloc: Global,
    setup: &Setup,
    mut events: Vec<ScenarioEvent>,
    places: &[usize],
    healed: &Healed,
    errors: &mut Counted<E>,
) -> Result<Answer, AllocError>
    ensures verdict { IfOk result (λ answer. IsHealed answer.verdict (string_bytes answer.text)) }
{
    let places = Places {
        places,
        more: events.len(),
    };
    tell(&places, healed, errors);
    for event in &healed.events {
        let copy = event.try_clone(alloc)?;
        events.push(ScenarioEvent::Core(copy))?;
    }
    let mut left = Vec::new(alloc);
    for (place, event) in events.iter().enumerate() {
        let message = match event {
            ScenarioEvent::Core(Event::Deliver(number)) => *number,
            _ => 0,
        };
        left.push(Left { place, message })?;
    }
    let text = saved_scenario(alloc, setup, events.as_slice(), left.as_slice())?;
    Ok(Answer::of(Verdict::Clean, text))
}

/// Where the events of a world stand in the scenario that is written.
#[derive(Clone, Copy)]
struct Places<'a> {
    /// Of those of the scenario that was read.
    places: &'a [usize],
    /// The place of the first one that was added.
    more: usize,
}

impl Places<'_> {
    /// The place of this event.
    fn of(&self, event: usize) -> usize {
        match self.places.get(event) {
            Some(place) => *place,
            None => self
                .more
                .saturating_add(event.saturating_sub(self.places.len())),
        }
    }
}

/// Tells what was done and why, and what came of each tablet.
fn tell<E: Write>(places: &Places<'_>, healed: &Healed, errors: &mut Counted<E>) {
    for deed in &healed.deeds {
        tell_deed(places, deed, errors);
    }
    for tablet in &healed.tablets {
        tell_tablet(places, healed, tablet, errors);
    }
    let events = healed.events.len();
    let _ = writeln!(errors.inner, "rounds {}, events {events}", healed.rounds);
}

/// Tells what was done, and why.
fn tell_deed<E: Write>(places: &Places<'_>, deed: &Deed, errors: &mut Counted<E>) {
    let _ = write!(errors.inner, "event {}: ", places.of(deed.after));
    let _ = match deed.why {
        Why::PowerCut => writeln!(
            errors.inner,
            "stop all servers and start all hosts: the power is cut"
        ),
        Why::Stopped(host) => writeln!(errors.inner, "start host {host}: its server does not run"),
        Why::TooFew(host) => writeln!(
            errors.inner,
            "start host {host}: one host more has to run than a segment has replicas"
        ),
        Why::Zombie(id) => writeln!(
            errors.inner,
            "restart {id}: the coordinator's list shows it crashed, and it runs"
        ),
        Why::Stuck(id) => writeln!(
            errors.inner,
            "restart {id}: it is up, owns a tablet, and takes no write"
        ),
        Why::Silent(id) => writeln!(
            errors.inner,
            "suspect {id}: the coordinator's list shows it up, and it does not run"
        ),
        Why::Again(id) => writeln!(
            errors.inner,
            "suspect {id} again: its recovery was decided, and who is needed for it is gone"
        ),
        Why::Answered(id) => writeln!(
            errors.inner,
            "decide {id}: all servers that are up have answered"
        ),
    };
}

/// Tells what came of a tablet.
fn tell_tablet<E: Write>(
    places: &Places<'_>,
    healed: &Healed,
    tablet: &Tablet,
    errors: &mut Counted<E>,
) {
    let _ = write!(
        errors.inner,
        "table {}, keys {} to {}: ",
        tablet.range.table, tablet.range.lo, tablet.range.hi
    );
    let served = healed
        .served
        .iter()
        .find(|served| is_same(&served.tablet, tablet));
    let gone = healed
        .gone
        .iter()
        .find(|gone| tablet.crashed && gone.master == tablet.owner);
    match (served, gone) {
        (Some(Served { version, .. }), _) => {
            let _ = writeln!(
                errors.inner,
                "served by {}, which acknowledges a new write of key {} as version {version}, and shows it",
                tablet.owner, tablet.range.lo
            );
        }
        (None, Some(gone)) => tell_gone(places, gone, errors),
        (None, None) => {
            let _ = writeln!(
                errors.inner,
                "not served by {}, and nothing shows that it is gone",
                tablet.owner
            );
        }
    }
}

/// Whether they are one tablet.
fn is_same(tablet: &Tablet, other: &Tablet) -> bool {
    tablet.range.table == other.range.table && tablet.range.lo == other.range.lo
}

/// Tells which segment is gone, and since when.
fn tell_gone<E: Write>(places: &Places<'_>, gone: &Gone, errors: &mut Counted<E>) {
    let _ = write!(
        errors.inner,
        "segment {} of {} is gone; at event {} it was placed under epoch {}",
        gone.seg,
        gone.master,
        places.of(gone.placed),
        gone.epoch
    );
    for drop in &gone.drops {
        let _ = write!(
            errors.inner,
            "; {} had it, and event {} started host {} without it",
            drop.member,
            places.of(drop.start),
            drop.member.index
        );
    }
    let _ = writeln!(errors.inner);
}
