//! All that a reader gives, and all of a text to a writer.

ghost use Rattle.std.specs.Prelude.{◌≡◌, ◌≢◌, ◌<◌, ℕ, length, take, Ok, Err, OnOk, IfOk, IfSome};
ghost use Rattle.std.specs.Io.KnownBytes.{Appends};
ghost use Rattle.rc_reading.specs.Scenario.{value_in};
ghost use Rattle.rc_sim.specs.declared.verdicts.SimFault.TheVariants.{Memory, Read as ReadFailed, Write as WriteFailed};
ghost use Rattle.rc_sim.specs.Failures.{failed_reads, failed_writes};

use crate::counted::Counted;
use crate::verdicts::SimFault;
use rc_reading::limits::MOST_BYTES;
use std::alloc::Global;
use std::io::{Read, Write};

/// How many bytes are asked for in one read.
const CHUNK: usize = 4096;

/// What the reader gives up to its end, or up to where a scenario is too long.
pub(crate) fn read_all<R: Read>(alloc: Global, reader: &mut Counted<R>) -> Result<Vec<u8>, SimFault>
    ensures ok { IfOk result (λ bytes. IfSome (R.remaining reader.old.inner)
        (λ all. value_in bytes.items ≡ value_in all)) }
    ensures failures { reader.new.failures ≡ failed_reads result reader.old.failures }
    ensures fault { (count : ℕ) → result ≢ Err (WriteFailed count) }
{
    let mut bytes = Vec::new(alloc);
    let mut chunk = [0u8; CHUNK];
    while bytes.len() <= MOST_BYTES {
        let count = reader.read(&mut chunk).map_err(|_| SimFault::Read)?;
        if count == 0 {
            return Ok(bytes);
        }
        bytes.extend_from_slice(&chunk[..count])?;
    }
    Ok(bytes)
}

/// All of the text, in as many writes as it takes.
pub fn write_all<W: Write>(writer: &mut Counted<W>, text: &[u8]) -> Result<(), SimFault>
    ensures ok { OnOk result (Appends (W.contents writer.old.inner) (W.contents writer.new.inner) text.now) }
    ensures err { (count : ℕ) → result ≡ Err (WriteFailed count) →
        (count < length text.now) × Appends (W.contents writer.old.inner) (W.contents writer.new.inner)
        (take count text.now) }
    ensures failures { writer.new.failures ≡ failed_writes result writer.old.failures }
    ensures fault { (result ≢ Err Memory) × (result ≢ Err ReadFailed) }
{
    let mut written = 0;
    while written < text.len() {
        match writer.write(&text[written..]) {
            Ok(count) if count > 0 => written += count,
            _ => return Err(SimFault::Write(written)),
        }
    }
    Ok(())
}
