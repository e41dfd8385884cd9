//! From bytes to bytes: a scenario to its report.

ghost use Rattle.std.specs.Prelude.{◌≡◌, ◌≢◌, ◌<◌, ℕ, length, take, string_bytes, IfOk, IfSome, Ok, Err};
ghost use Rattle.std.specs.Io.KnownBytes.{Appends, Keeps};
ghost use Rattle.rc_sim.specs.declared.verdicts.Output.TheVariants.{Report};
ghost use Rattle.rc_sim.specs.declared.verdicts.SimFault.TheVariants.{Memory, Read as ReadFailed, Write as WriteFailed};
ghost use Rattle.rc_sim.specs.declared.verdicts.Verdict.TheVariants.{Breach};
ghost use Rattle.rc_sim.specs.Failures.{failed_reads, failed_writes};
ghost use Rattle.rc_sim.specs.Verdicts.{Played};
ghost use Rattle.rc_sim.specs.Written.{IsWritten, IsBegun};

use crate::answers::Answer;
use crate::counted::Counted;
use crate::outlets::write_all;
use crate::playing::play;
use crate::verdicts::{Output, SimFault, Verdict};
use std::alloc::{Allocator, Global};
use std::io::{Read, Write};

/// Reads a scenario, runs it, and writes the report, with a last line where the run stopped; or the
/// one line of a scenario that is wrong. "Scenario" and "Report" in `docs/FORMATS.md` say how these
/// are spelled. The run's tablets lie in memory of the second allocator. Nothing is written before
/// all of the text is there, and the writer is not flushed.
///
/// After `Memory` and `Read` nothing was written, after `Write(n)` the first n bytes of the text. `Read`
/// and `Write` come only where the reader or the writer has failed in this very call; no failure is
/// tried again.
pub fn simulate<R: Read, W: Write, A: Allocator + Clone>(
    alloc: Global,
    reader: &mut Counted<R>,
    writer: &mut Counted<W>,
    tablets: A,
) -> Result<Verdict, SimFault>
    // what is written is what the definitions say of the bytes that the reader had
    ensures ok { IfOk result (λ verdict. IfSome (R.remaining reader.old.inner)
        (λ bytes. IsWritten (Played Report bytes) verdict (W.contents writer.old.inner)
        (W.contents writer.new.inner))) }
    ensures cut_short { (count : ℕ) → result ≡ Err (WriteFailed count) → IfSome (R.remaining reader.old.inner)
        (λ bytes. IsBegun (Played Report bytes) count (W.contents writer.old.inner) (W.contents writer.new.inner)) }
    ensures nothing_without_memory { result ≡ Err Memory →
        Keeps (W.contents writer.old.inner) (W.contents writer.new.inner) }
    ensures nothing_unread { result ≡ Err ReadFailed →
        Keeps (W.contents writer.old.inner) (W.contents writer.new.inner) }

    // a fault of the reader or the writer is told exactly where it failed now
    ensures reads { reader.new.failures ≡ failed_reads result reader.old.failures }
    ensures writes { writer.new.failures ≡ failed_writes result writer.old.failures }

    // the headline, as the program tells it: no audit finds a breach
    ensures no_breach { result ≢ Ok Breach }
{
    let mut untold = Counted::new(Vec::new(alloc));
    play(alloc, tablets, Output::Report, reader, writer, &mut untold)
}

/// Writes the text of an answer, and gives its verdict.
pub(crate) fn write_answer<W: Write>(
    writer: &mut Counted<W>,
    answer: &Answer,
) -> Result<Verdict, SimFault>
    ensures verdict { IfOk result (λ verdict. verdict ≡ answer.now.verdict) }
    ensures ok { IfOk result (λ _. Appends (W.contents writer.old.inner) (W.contents writer.new.inner)
        (string_bytes answer.now.text)) }
    ensures cut_short { (count : ℕ) → result ≡ Err (WriteFailed count) → (count < length (string_bytes answer.now.text))
        × Appends (W.contents writer.old.inner) (W.contents writer.new.inner)
        (take count (string_bytes answer.now.text)) }
    ensures writes { writer.new.failures ≡ failed_writes result writer.old.failures }
    ensures fault { (result ≢ Err Memory) × (result ≢ Err ReadFailed) }
{
    match write_all(writer, answer.text.as_bytes()) {
        Ok(()) => Ok(answer.verdict),
        Err(fault) => Err(fault),
    }
}
