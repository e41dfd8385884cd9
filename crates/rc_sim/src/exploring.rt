//! From a seed to bytes: a run that is drawn to reach much, and what it has reached; or that run as a scenario.

ghost use Rattle.std.specs.Prelude.{◌≡◌, ◌≢◌, ℕ, true, false, string_bytes, IfOk, Ok, Err};
ghost use Rattle.std.specs.Io.KnownBytes.{Keeps};
ghost use Rattle.rc_sim.specs.declared.verdicts.SimFault.TheVariants.{Memory, Read as ReadFailed, Write as WriteFailed};
ghost use Rattle.rc_sim.specs.declared.verdicts.Verdict.TheVariants.{Breach};
ghost use Rattle.rc_sim.specs.Failures.{failed_writes};
ghost use Rattle.rc_sim.specs.Verdicts.{Explored};
ghost use Rattle.rc_sim.specs.Written.{IsWritten, IsBegun};

use crate::answers::{Answer, ended};
use crate::counted::Counted;
use crate::simulating::write_answer;
use crate::verdicts::{Output, SimFault, Verdict};
use rc_study::{Exploration, Options, saved_events};
use std::alloc::{AllocError, Global};
use std::io::Write;

/// After so many steps it is told how far a run is.
const CHUNK: usize = 10_000;

/// Runs events that are drawn so that much happens, and writes the report and what was reached; or, where it is to be
/// saved, a scenario that leads to the same world. With `progress` it tells `errors` now and then how far it is.
///
/// It fails as `fuzz` does.
pub fn explore<W: Write, E: Write>(
    alloc: Global,
    options: &Options,
    save: bool,
    progress: bool,
    writer: &mut Counted<W>,
    errors: &mut Counted<E>,
) -> Result<Verdict, SimFault>
    ensures ok { IfOk result (λ verdict.
        IsWritten (Explored save) verdict (W.contents writer.old.inner) (W.contents writer.new.inner)) }
    ensures cut_short { (count : ℕ) → result ≡ Err (WriteFailed count) →
        IsBegun (Explored save) count (W.contents writer.old.inner) (W.contents writer.new.inner) }
    ensures nothing_without_memory { result ≡ Err Memory →
        Keeps (W.contents writer.old.inner) (W.contents writer.new.inner) }
    ensures writes { writer.new.failures ≡ failed_writes result writer.old.failures }
    ensures unread { result ≢ Err ReadFailed }
    ensures no_breach { result ≢ Ok Breach }
{
    let run = explored(alloc, options, progress, errors)?;
    let answer = explored_answer(alloc, options, save, &run)?;
    write_answer(writer, &answer)
}

/// The run to its end.
fn explored<E: Write>(
    alloc: Global,
    options: &Options,
    progress: bool,
    errors: &mut Counted<E>,
) -> Result<Exploration, AllocError> {
    let Ok(mut run) = Exploration::begin(alloc, options) else {
        return Err(AllocError);
    };
    for _ in 0..options.steps.saturating_add(CHUNK - 1) / CHUNK {
        if run.go_on(alloc, CHUNK).is_err() {
            return Err(AllocError);
        }
        if progress {
            tell_steps(&run, options, errors);
        }
    }
    Ok(run)
}

/// Tells how far a run is.
fn tell_steps<E: Write>(run: &Exploration, options: &Options, errors: &mut Counted<E>) {
    let _ = writeln!(errors.inner, "step {} of {}", run.step(), options.steps);
}

/// What is written of such a run.
fn explored_answer(
    alloc: Global,
    options: &Options,
    save: bool,
    run: &Exploration,
) -> Result<Answer, AllocError>
    ensures ok { IfOk result (λ answer. Explored save answer.verdict (string_bytes answer.text)) }
{
    if save {
        saved(alloc, options, run)
    } else {
        reported(alloc, options, run)
    }
}

/// The world as a scenario.
fn saved(alloc: Global, options: &Options, run: &Exploration) -> Result<Answer, AllocError>
    ensures ok { IfOk result (λ answer. Explored true answer.verdict (string_bytes answer.text)) }
{
    let setup = options.setup(alloc);
    let text = saved_events(alloc, &setup, run.world().events())?;
    Ok(Answer::of(Verdict::Clean, text))
}

/// The report of the world, and what the run has reached.
fn reported(alloc: Global, options: &Options, run: &Exploration) -> Result<Answer, AllocError>
    ensures ok { IfOk result (λ answer. Explored false answer.verdict (string_bytes answer.text)) }
{
    let lines = lines_of(alloc, options, run)?;
    let mut answer = ended(alloc, run.world(), Output::Report)?;
    answer.text.push_str(lines.as_str())?;
    Ok(answer)
}

/// What the run was drawn with, and what it has reached.
fn lines_of(alloc: Global, options: &Options, run: &Exploration) -> Result<String, AllocError> {
    let mut text = String::new(alloc);
    write!(text, "drawn seed {} ", options.seed)?;
    add_sizes(&mut text, options)?;
    run.counts().tell(&mut text)?;
    Ok(text)
}

/// The rest of the line that tells what was drawn with.
pub(crate) fn add_sizes(text: &mut String, options: &Options) -> Result<(), AllocError> {
    write!(
        text,
        "steps {} hosts {} factor {} segment {}",
        options.steps, options.hosts, options.factor, options.segment
    )?;
    text.push_str(if options.free { " free\n" } else { "\n" })
}
