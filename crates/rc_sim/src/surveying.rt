//! From several seeds to bytes: runs that are drawn to reach much, and what they have reached together.

ghost use Rattle.std.specs.Prelude.{◌≡◌, ◌≢◌, ℕ, false, string_bytes, IfOk, Ok, Err};
ghost use Rattle.std.specs.Io.KnownBytes.{Keeps};
ghost use Rattle.rc_sim.specs.declared.verdicts.SimFault.TheVariants.{Memory, Read as ReadFailed, Write as WriteFailed};
ghost use Rattle.rc_sim.specs.declared.verdicts.Verdict.TheVariants.{Breach};
ghost use Rattle.rc_sim.specs.Failures.{failed_writes};
ghost use Rattle.rc_sim.specs.Verdicts.{Surveyed, told_of};
ghost use Rattle.rc_sim.specs.Written.{IsWritten, IsBegun};

use crate::answers::Answer;
use crate::counted::Counted;
use crate::exploring::add_sizes;
use crate::simulating::write_answer;
use crate::verdicts::{SimFault, Verdict};
use rc_audit::audit;
use rc_study::{Exploration, Options, Sum};
use rc_world::World;
use std::alloc::{AllocError, Global};
use std::io::Write;

/// Runs events that are drawn from each seed, from the first to the last, one after another, and writes a line for
/// each, and what they have reached together. With `progress` it tells `errors` at each seed how far it is. It keeps
/// one run at a time, and of those before the counts and the lines. No run has a breach.
///
/// It fails as `fuzz` does.
pub fn survey<W: Write, E: Write>(
    alloc: Global,
    options: &Options,
    last: u64,
    progress: bool,
    writer: &mut Counted<W>,
    errors: &mut Counted<E>,
) -> Result<Verdict, SimFault>
    ensures ok { IfOk result (λ verdict.
        IsWritten Surveyed verdict (W.contents writer.old.inner) (W.contents writer.new.inner)) }
    ensures cut_short { (count : ℕ) → result ≡ Err (WriteFailed count) →
        IsBegun Surveyed count (W.contents writer.old.inner) (W.contents writer.new.inner) }
    ensures nothing_without_memory { result ≡ Err Memory →
        Keeps (W.contents writer.old.inner) (W.contents writer.new.inner) }
    ensures writes { writer.new.failures ≡ failed_writes result writer.old.failures }
    ensures unread { result ≢ Err ReadFailed }
    ensures no_breach { result ≢ Ok Breach }
{
    let answer = surveyed(alloc, options, last, progress, errors)?;
    write_answer(writer, &answer)
}

/// What is written of the seeds up to this one.
fn surveyed<E: Write>(
    alloc: Global,
    options: &Options,
    last: u64,
    progress: bool,
    errors: &mut Counted<E>,
) -> Result<Answer, AllocError>
    ensures ok { IfOk result (λ answer. Surveyed answer.verdict (string_bytes answer.text)) }
{
    let mut text = heading(alloc, options, last)?;
    let mut sum = Sum::new();
    let count = last.saturating_sub(options.seed).saturating_add(1);
    let found = run_all(alloc, options, count, progress, &mut sum, &mut text, errors)?;
    sum.tell(&mut text)?;
    Ok(Answer::of(verdict_of(found), text))
}

/// The verdict on runs of which one has a breach, or none.
fn verdict_of(found: bool) -> Verdict
    ensures { result ≡ told_of found }
{
    match found {
        true => Verdict::Breach,
        false => Verdict::Clean,
    }
}

/// What the runs are drawn with.
fn heading(alloc: Global, options: &Options, last: u64) -> Result<String, AllocError> {
    let mut text = String::new(alloc);
    write!(text, "drawn seeds {}..{last} ", options.seed)?;
    add_sizes(&mut text, options)?;
    Ok(text)
}

/// Runs so many seeds: whether one of the runs has a breach.
fn run_all<E: Write>(
    alloc: Global,
    options: &Options,
    count: u64,
    progress: bool,
    sum: &mut Sum,
    text: &mut String,
    errors: &mut Counted<E>,
) -> Result<bool, AllocError>
    ensures ok { IfOk result (λ found. found ≡ false) }
{
    let mut found = false;
    for number in 0..count {
        let mut options = *options;
        options.seed = options.seed.saturating_add(number);
        let one = run_one(alloc, &options, sum, text)?;
        found = found || one;
        if progress {
            tell_seed(options.seed, number, count, errors);
        }
    }
    Ok(found)
}

/// Tells how far it is.
pub(crate) fn tell_seed<E: Write>(seed: u64, number: u64, count: u64, errors: &mut Counted<E>) {
    let number = number.saturating_add(1);
    let _ = writeln!(errors.inner, "seed {seed}, run {number} of {count}");
}

/// Runs a seed, and adds what it has reached to the sum, and a line to the text: whether the run has a breach.
fn run_one(
    alloc: Global,
    options: &Options,
    sum: &mut Sum,
    text: &mut String,
) -> Result<bool, AllocError>
    ensures ok { IfOk result (λ found. found ≡ false) }
{
    let run = drawn(alloc, options)?;
    let breach = has_breach(alloc, run.world())?;
    run.counts().tell_seed(text, options.seed, !breach)?;
    sum.add(run.counts(), !breach);
    Ok(breach)
}

/// Whether an audit of what was sent in the world finds a breach.
fn has_breach(alloc: Global, world: &World<Global>) -> Result<bool, AllocError>
    ensures ok { IfOk result (λ found. found ≡ false) }
{
    let found = audit(alloc, world.sent())?;
    Ok(found.is_some())
}

/// The run to its end.
pub(crate) fn drawn(alloc: Global, options: &Options) -> Result<Exploration, AllocError> {
    let Ok(mut run) = Exploration::begin(alloc, options) else {
        return Err(AllocError);
    };
    if run.go_on(alloc, options.steps).is_err() {
        return Err(AllocError);
    }
    Ok(run)
}
