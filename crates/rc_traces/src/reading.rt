//! A trace is read as it comes: of each message its code is kept, whole or without its entries, and what it was read
//! from is dropped. Once one is wrong, none is kept. "Trace" in `docs/FORMATS.md` has the members.

ghost use Rattle.std.specs.Prelude.{◌≡◌, ℕ, ◌<◌, length, Ok, Err, IfOk};
ghost use Rattle.rc_reading.specs.declared.faults.ReadFault.TheVariants.{OutOfMemory, BadInput};
ghost use Rattle.rc_reading.specs.Scenario.{value_in};
ghost use Rattle.rc_traces.specs.Listed.{listed};
ghost use Rattle.rc_traces.specs.Trace.{of_text, of_value, reading};
ghost use Rattle.rc_traces.specs.Outline.{outlined};

use crate::fields::Fields;
use crate::listed::Listed;
use crate::outlines::Outline;
use crate::whole::trace;
use json::{Reader, Scratch};
use rc_codec::DecodeFault;
use rc_reading::ReadFault;
use rc_reading::limits::MOST_BYTES;
use rc_reading::lists::Said;
use rc_types::Message;
use std::alloc::Global;

/// How deep lists and objects may nest.
const MOST_DEPTH: usize = 127;

/// The messages that the bytes say.
///
/// # Errors
///
/// F1 where memory was refused; nothing is then said of the bytes. F17 where they say no trace, with the
/// least place that is wrong.
pub fn read_trace(alloc: Global, bytes: &[u8]) -> Result<Vec<Message>, ReadFault>
    ensures ok { IfOk result (λ messages. reading bytes.now ≡ Ok messages.items) }
    ensures bad { (place : ℕ) → result ≡ Err (BadInput place) → reading bytes.now ≡ Err place }
    ensures memory { result ≡ Err OutOfMemory → 0 < length bytes.now }
{
    read_bytes::<Fields>(alloc, bytes)
}

/// The messages that the bytes say, without the entries that they carry: enough to tell which recoveries were accepted,
/// what was granted and what was acknowledged. The entries of a message are let go of once it is read.
///
/// # Errors
///
/// As those of [`read_trace`].
pub fn read_outline(alloc: Global, bytes: &[u8]) -> Result<Vec<Message>, ReadFault>
    ensures ok { IfOk result (λ messages. outlined (reading bytes.now) ≡ Ok messages.items) }
    ensures bad { (place : ℕ) → result ≡ Err (BadInput place) → reading bytes.now ≡ Err place }
    ensures memory { result ≡ Err OutOfMemory → 0 < length bytes.now }
{
    read_bytes::<Outline>(alloc, bytes)
}

/// What `R` reads of each message that the bytes say.
fn read_bytes<R: Said<Message> + Drop>(
    alloc: Global,
    bytes: &[u8],
) -> Result<Vec<Message>, ReadFault>
    ensures ok { IfOk result (λ messages. of_value R.said (value_in bytes.now) ≡ Ok messages.items) }
    ensures bad { (place : ℕ) → result ≡ Err (BadInput place) → of_value R.said (value_in bytes.now) ≡ Err place }
    ensures memory { result ≡ Err OutOfMemory → 0 < length bytes.now }
{
    if bytes.is_empty() {
        return Err(ReadFault::BadInput(0));
    }
    if bytes.len() > MOST_BYTES {
        return Err(ReadFault::BadInput(0));
    }
    match std::str::from_utf8(bytes) {
        Ok(text) => read_text::<R>(alloc, text),
        Err(_) => Err(ReadFault::BadInput(0)),
    }
}

/// What `R` reads of each message that the text says.
fn read_text<R: Said<Message> + Drop>(alloc: Global, text: &str) -> Result<Vec<Message>, ReadFault>
    ensures ok { IfOk result (λ messages. of_text R.said text.now ≡ Ok messages.items) }
    ensures bad { (place : ℕ) → result ≡ Err (BadInput place) → of_text R.said text.now ≡ Err place }
{
    match read_codes::<R>(alloc, text)? {
        Listed::Wrong(place) => Err(ReadFault::BadInput(place)),
        Listed::Coded(codes) => match codes.decoded(alloc) {
            Ok(messages) => Ok(messages),
            Err(DecodeFault::OutOfMemory) => Err(ReadFault::OutOfMemory),
            Err(DecodeFault::Malformed) => unreachable!(),
        },
    }
}

/// What the text says, with its messages as their codes, or the least place that is wrong. What the reader needs is
/// let go of.
fn read_codes<R: Said<Message> + Drop>(alloc: Global, text: &str) -> Result<Listed, ReadFault>
    ensures ok { IfOk result (λ found. found ≡ listed (of_text R.said text.now)) }
    ensures bad { (place : ℕ) → result ≡ Err (BadInput place) → of_text R.said text.now ≡ Err place }
{
    let mut scratch = Scratch::new(alloc);
    let mut reader = Reader::new(text, &mut scratch)?;
    let listed = trace::<R>(alloc, &mut reader, MOST_DEPTH)?;
    if let Some(_) = reader.next() {
        return Err(ReadFault::BadInput(0));
    }
    Ok(listed)
}
