//! From the bytes of a scenario to those of a smallest one whose report still has a line.

ghost use Rattle.std.specs.Prelude.{◌≡◌, ◌≢◌, string_bytes, IfOk, Ok};
ghost use Rattle.rc_world.specs.HostView.{IsWithinLimits};
ghost use Rattle.rc_sim.specs.declared.verdicts.Verdict.TheVariants.{Breach};
ghost use Rattle.rc_sim.specs.Failures.{failed_reads, failed_writes};
ghost use Rattle.rc_sim.specs.Statuses.{Answered};
ghost use Rattle.rc_sim.specs.Verdicts.{IsShrunk, Shrunk};

use crate::answers::{Answer, bad};
use crate::counted::Counted;
use crate::outlets::read_all;
use crate::simulating::write_answer;
use crate::verdicts::{SimFault, Verdict};
use rc_reading::{ReadFault, Scenario, read_scenario};
use std::alloc::{AllocError, Global};
use std::io::{Read, Write};

/// Reads a scenario, and writes a smallest one whose report still has a line that begins with the text, or the one line
/// of a scenario that is wrong. Where its own report has no such line, nothing is written.
///
/// It fails as [`simulate`](crate::simulate) does.
pub(crate) fn shrink<R: Read, W: Write>(
    alloc: Global,
    keep: &[u8],
    reader: &mut Counted<R>,
    writer: &mut Counted<W>,
) -> Result<Verdict, SimFault>
    ensures answered { Answered Shrunk result (R.remaining reader.old.inner) (W.contents writer.old.inner)
        (W.contents writer.new.inner) }
    ensures reads { reader.new.failures ≡ failed_reads result reader.old.failures }
    ensures writes { writer.new.failures ≡ failed_writes result writer.old.failures }
    ensures no_breach { result ≢ Ok Breach }
{
    let keep = str::from_utf8(keep).unwrap_or("");
    let bytes = read_all(alloc, reader)?;
    let answer = shrunk_of(alloc, bytes.as_slice(), keep)?;
    write_answer(writer, &answer)
}

/// What is written of these bytes as a scenario.
fn shrunk_of(alloc: Global, bytes: &[u8], keep: &str) -> Result<Answer, AllocError>
    ensures ok { IfOk result (λ answer. Shrunk bytes.now answer.verdict (string_bytes answer.text)) }
{
    match read_scenario(alloc, bytes) {
        Ok(scenario) => smallest(alloc, &scenario, keep),
        Err(ReadFault::OutOfMemory) => Err(AllocError),
        Err(ReadFault::BadInput(place)) => bad(alloc, place),
    }
}

/// What is written of a scenario.
fn smallest(alloc: Global, scenario: &Scenario, keep: &str) -> Result<Answer, AllocError>
    requires { IsWithinLimits scenario.now.setup }
    ensures ok { IfOk result (λ answer. IsShrunk answer.verdict (string_bytes answer.text)) }
{
    match rc_study::shrink(alloc, scenario, keep) {
        Ok(Some(text)) => Ok(Answer::of(Verdict::Clean, text)),
        Ok(None) => Ok(Answer::nothing(alloc, Verdict::NoLine)),
        Err(_) => Err(AllocError),
    }
}
