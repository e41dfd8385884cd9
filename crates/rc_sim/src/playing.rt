//! A scenario is read and run, or a trace is read and judged, and what came of it is written.

ghost use Rattle.std.specs.Prelude.{◌≡◌, ◌≢◌, Ok};
ghost use Rattle.rc_sim.specs.declared.verdicts.Verdict.TheVariants.{Breach};
ghost use Rattle.rc_sim.specs.Failures.{failed_reads, failed_writes};
ghost use Rattle.rc_sim.specs.Statuses.{Answered};
ghost use Rattle.rc_sim.specs.Verdicts.{Played, Judged};

use crate::answers::{answer_to, judgement_of};
use crate::counted::Counted;
use crate::outlets::read_all;
use crate::simulating::write_answer;
use crate::verdicts::{Output, SimFault, Verdict};
use std::alloc::{Allocator, Global};
use std::io::{Read, Write};

/// Reads a scenario, runs it, and writes what the output asks for; `simulate` says how it fails. `errors` is told
/// where its messages take much memory.
pub(crate) fn play<R: Read, W: Write, E: Write, A: Allocator + Clone>(
    alloc: Global,
    tablets: A,
    output: Output,
    reader: &mut Counted<R>,
    writer: &mut Counted<W>,
    errors: &mut Counted<E>,
) -> Result<Verdict, SimFault>
    ensures answered { Answered (Played output) result (R.remaining reader.old.inner) (W.contents writer.old.inner)
        (W.contents writer.new.inner) }
    ensures reads { reader.new.failures ≡ failed_reads result reader.old.failures }
    ensures writes { writer.new.failures ≡ failed_writes result writer.old.failures }
    ensures no_breach { result ≢ Ok Breach }
{
    let bytes = read_all(alloc, reader)?;
    let answer = answer_to(alloc, bytes.as_slice(), tablets, output, errors)?;
    write_answer(writer, &answer)
}

/// Reads a trace, judges it, and writes what came of it; `simulate` says how it fails.
pub(crate) fn weigh<R: Read, W: Write>(
    alloc: Global,
    reader: &mut Counted<R>,
    writer: &mut Counted<W>,
) -> Result<Verdict, SimFault>
    ensures answered { Answered Judged result (R.remaining reader.old.inner) (W.contents writer.old.inner)
        (W.contents writer.new.inner) }
    ensures reads { reader.new.failures ≡ failed_reads result reader.old.failures }
    ensures writes { writer.new.failures ≡ failed_writes result writer.old.failures }
{
    let mut bytes = read_all(alloc, reader)?;
    let answer = judgement_of(alloc, &mut bytes)?;
    write_answer(writer, &answer)
}
