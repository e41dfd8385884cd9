//! A scenario is read as it comes: each event is kept, and what it was read from is dropped.
//! "Scenario" in `docs/FORMATS.md` has the members.

ghost use Rattle.std.specs.Prelude.{◌≡◌, ℕ, ◌<◌, length, Ok, Err, IfOk};
ghost use Rattle.rc_reading.specs.declared.faults.ReadFault.TheVariants.{OutOfMemory, BadInput};
ghost use Rattle.rc_reading.specs.Scenario.{of_text, reading};

use crate::faults::ReadFault;
use crate::limits::MOST_BYTES;
use crate::scenarios::Scenario;
use crate::whole::scenario;
use json::{Reader, Scratch};
use std::alloc::Global;

/// How deep lists and objects may nest.
const MOST_DEPTH: usize = 127;

/// The scenario that the bytes say.
///
/// # Errors
///
/// F1 where memory was refused; nothing is then said of the bytes. F17 where they say no scenario, with
/// the least place that is wrong.
pub fn read_scenario(alloc: Global, bytes: &[u8]) -> Result<Scenario, ReadFault>
    ensures ok { IfOk result (λ scenario. reading bytes.now ≡ Ok scenario) }
    ensures bad { (place : ℕ) → result ≡ Err (BadInput place) → reading bytes.now ≡ Err place }
    ensures memory { result ≡ Err OutOfMemory → 0 < length bytes.now }
{
    if bytes.is_empty() {
        return Err(ReadFault::BadInput(0));
    }
    if bytes.len() > MOST_BYTES {
        return Err(ReadFault::BadInput(0));
    }
    match std::str::from_utf8(bytes) {
        Ok(text) => read_text(alloc, text),
        Err(_) => Err(ReadFault::BadInput(0)),
    }
}

/// The scenario that the text says.
fn read_text(alloc: Global, text: &str) -> Result<Scenario, ReadFault>
    ensures ok { IfOk result (λ scenario. of_text text.now ≡ Ok scenario) }
    ensures bad { (place : ℕ) → result ≡ Err (BadInput place) → of_text text.now ≡ Err place }
{
    let mut scratch = Scratch::new(alloc);
    let mut reader = Reader::new(text, &mut scratch)?;
    let scenario = scenario(alloc, &mut reader, MOST_DEPTH)?;
    if let Some(_) = reader.next() {
        return Err(ReadFault::BadInput(0));
    }
    match scenario {
        Ok(scenario) => Ok(scenario),
        Err(place) => Err(ReadFault::BadInput(place)),
    }
}
