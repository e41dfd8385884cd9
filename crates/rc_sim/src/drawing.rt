//! From a seed to bytes: drawn events are run and reported, or the power is cut after each of them.

ghost use Rattle.std.specs.Prelude.{◌≡◌, ◌≢◌, ℕ, string_bytes, IfOk, Ok, Err};
ghost use Rattle.std.specs.Io.KnownBytes.{Keeps};
ghost use Rattle.rc_sim.specs.declared.verdicts.SimFault.TheVariants.{Memory, Read as ReadFailed, Write as WriteFailed};
ghost use Rattle.rc_sim.specs.declared.verdicts.Verdict.TheVariants.{Breach, Clean};
ghost use Rattle.rc_sim.specs.Failures.{failed_writes};
ghost use Rattle.rc_sim.specs.Verdicts.{Drawn, PowerCut, cuts_text};
ghost use Rattle.rc_sim.specs.Written.{IsWritten, IsBegun};

use crate::answers::{Answer, ended};
use crate::counted::Counted;
use crate::simulating::write_answer;
use crate::verdicts::{Output, SimFault, Verdict};
use rc_runs::drawn_world;
use std::alloc::{AllocError, Global};
use std::io::Write;

/// Runs so many steps of events that are drawn from the seed, and writes the report.
///
/// After `Memory` nothing was written, after `Write(n)` the first n bytes of the report. `Write` comes only
/// where the writer has failed in this very call.
pub fn fuzz<W: Write>(
    alloc: Global,
    seed: u64,
    steps: usize,
    free: bool,
    writer: &mut Counted<W>,
) -> Result<Verdict, SimFault>
    ensures ok { IfOk result (λ verdict.
        IsWritten (Drawn seed steps free) verdict (W.contents writer.old.inner) (W.contents writer.new.inner)) }
    ensures cut_short { (count : ℕ) → result ≡ Err (WriteFailed count) →
        IsBegun (Drawn seed steps free) count (W.contents writer.old.inner) (W.contents writer.new.inner) }
    ensures nothing_without_memory { result ≡ Err Memory →
        Keeps (W.contents writer.old.inner) (W.contents writer.new.inner) }
    ensures writes { writer.new.failures ≡ failed_writes result writer.old.failures }
    ensures unread { result ≢ Err ReadFailed }
    ensures no_breach { result ≢ Ok Breach }
{
    let answer = drawn_answer(alloc, seed, steps, free)?;
    write_answer(writer, &answer)
}

/// The report of a drawing.
fn drawn_answer(alloc: Global, seed: u64, steps: usize, free: bool) -> Result<Answer, AllocError>
    ensures ok { IfOk result (λ answer. Drawn seed steps free answer.verdict (string_bytes answer.text)) }
    ensures no_breach { IfOk result (λ answer. answer.verdict ≢ Breach) }
{
    match drawn_world(alloc, seed, steps, free) {
        Ok(world) => ended(alloc, &world, Output::Report),
        Err(_) => Err(AllocError),
    }
}

/// Cuts the power after each event that is drawn from the seed, in three ways, and writes how often that
/// was done and in how many of these a breach was found, which is none.
///
/// It fails as `fuzz` does.
pub fn cut_powers<W: Write>(
    alloc: Global,
    seed: u64,
    steps: usize,
    writer: &mut Counted<W>,
) -> Result<Verdict, SimFault>
    ensures ok { IfOk result (λ verdict.
        IsWritten (PowerCut seed steps) verdict (W.contents writer.old.inner) (W.contents writer.new.inner)) }
    ensures cut_short { (count : ℕ) → result ≡ Err (WriteFailed count) →
        IsBegun (PowerCut seed steps) count (W.contents writer.old.inner) (W.contents writer.new.inner) }
    ensures nothing_without_memory { result ≡ Err Memory →
        Keeps (W.contents writer.old.inner) (W.contents writer.new.inner) }
    ensures writes { writer.new.failures ≡ failed_writes result writer.old.failures }
    ensures unread { result ≢ Err ReadFailed }
    ensures no_breach { result ≢ Ok Breach }
{
    let answer = stops_answer(alloc, seed, steps)?;
    write_answer(writer, &answer)
}

/// What is printed of power failures.
fn stops_answer(alloc: Global, seed: u64, steps: usize) -> Result<Answer, AllocError>
    ensures ok { IfOk result (λ answer. PowerCut seed steps answer.verdict (string_bytes answer.text)) }
{
    match rc_runs::stops(alloc, seed, steps) {
        Ok((cuts, breaches)) => cuts_answer(alloc, cuts, breaches),
        Err(_) => Err(AllocError),
    }
}

/// What is printed of so many power failures, in so many of which there is a breach.
pub(crate) fn cuts_answer(alloc: Global, cuts: usize, breaches: usize) -> Result<Answer, AllocError>
    ensures text { IfOk result (λ answer. string_bytes answer.text ≡ cuts_text cuts breaches) }
    ensures clean { breaches ≡ 0 → IfOk result (λ answer. answer.verdict ≡ Clean) }
{
    let text = cuts_text(alloc, cuts, breaches)?;
    let verdict = if breaches == 0 {
        Verdict::Clean
    } else {
        Verdict::Breach
    };
    Ok(Answer::of(verdict, text))
}

/// The two lines of numbers.
fn cuts_text(alloc: Global, cuts: usize, breaches: usize) -> Result<String, AllocError>
    ensures { IfOk result (λ text. string_bytes text ≡ cuts_text cuts breaches) }
{
    let mut text = String::new(alloc);
    write!(text, "cuts {cuts}\n")?;
    write!(text, "breaches {breaches}\n")?;
    Ok(text)
}
