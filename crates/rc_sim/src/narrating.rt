//! From the bytes of a scenario to the story of its run.

ghost use Rattle.std.specs.Prelude.{◌≡◌, ◌≢◌, string_bytes, IfOk, Ok};
ghost use Rattle.rc_world.specs.HostView.{IsWithinLimits};
ghost use Rattle.rc_sim.specs.declared.verdicts.Verdict.TheVariants.{Breach};
ghost use Rattle.rc_sim.specs.Failures.{failed_reads, failed_writes};
ghost use Rattle.rc_sim.specs.Statuses.{Answered};
ghost use Rattle.rc_sim.specs.Verdicts.{Narrated};

use crate::answers::{Answer, bad};
use crate::counted::Counted;
use crate::histories::history_lines;
use crate::outlets::read_all;
use crate::simulating::write_answer;
use crate::verdicts::{SimFault, Verdict};
use rc_reading::{ReadFault, Scenario, read_scenario};
use rc_study::{Played, story_json};
use rc_types::Code;
use std::alloc::{AllocError, Global};
use std::io::{Read, Write};

/// What is told of a run.
#[derive(Clone, Copy)]
pub enum Telling {
    /// Its story, as one JSON value.
    Json,
    /// The history of its clients.
    History,
}

/// Reads a scenario, runs it, and writes the story of the run, or the one line of a scenario that is wrong. Nothing is
/// claimed of the story.
///
/// It fails as [`simulate`](crate::simulate) does.
pub(crate) fn narrate<R: Read, W: Write>(
    alloc: Global,
    telling: Telling,
    reader: &mut Counted<R>,
    writer: &mut Counted<W>,
) -> Result<Verdict, SimFault>
    ensures answered { Answered Narrated result (R.remaining reader.old.inner) (W.contents writer.old.inner)
        (W.contents writer.new.inner) }
    ensures reads { reader.new.failures ≡ failed_reads result reader.old.failures }
    ensures writes { writer.new.failures ≡ failed_writes result writer.old.failures }
    ensures no_breach { result ≢ Ok Breach }
{
    let bytes = read_all(alloc, reader)?;
    let answer = story_of(alloc, bytes.as_slice(), telling)?;
    write_answer(writer, &answer)
}

/// What is told of these bytes as a scenario.
fn story_of(alloc: Global, bytes: &[u8], telling: Telling) -> Result<Answer, AllocError>
    ensures ok { IfOk result (λ answer. Narrated bytes.now answer.verdict (string_bytes answer.text)) }
{
    match read_scenario(alloc, bytes) {
        Ok(scenario) => told(alloc, &scenario, telling),
        Err(ReadFault::OutOfMemory) => Err(AllocError),
        Err(ReadFault::BadInput(place)) => bad(alloc, place),
    }
}

/// What is told of a scenario.
fn told(alloc: Global, scenario: &Scenario, telling: Telling) -> Result<Answer, AllocError>
    requires { IsWithinLimits scenario.now.setup }
    ensures no_breach { IfOk result (λ answer. answer.verdict ≢ Breach) }
{
    let Ok(played) = Played::of(alloc, &scenario.setup, scenario.events.as_slice()) else {
        return Err(AllocError);
    };
    match text_of(alloc, scenario, &played, telling) {
        Ok(text) => Ok(Answer::of(verdict_of(played.stopped()), text)),
        Err(_) => Err(AllocError),
    }
}

/// The verdict on a run that stopped here, or went through.
fn verdict_of(stopped: Option<(usize, Code)>) -> Verdict
    ensures { result ≢ Breach }
{
    match stopped {
        Some((place, code)) => Verdict::Stopped(place, code),
        None => Verdict::Clean,
    }
}

/// The story of a run, or its history.
fn text_of(
    alloc: Global,
    scenario: &Scenario,
    played: &Played,
    telling: Telling,
) -> Result<String, AllocError>
    requires { IsWithinLimits scenario.now.setup }
{
    match telling {
        Telling::Json => story_json(alloc, &scenario.setup, played),
        Telling::History => history_lines(alloc, played.messages()),
    }
}
