//! The judge of a history.

ghost use Rattle.std.specs.Prelude.{IfOk};
ghost use Rattle.rc_clients.specs.Linearizable.{Judged, BreaksRefute};

use crate::bars::bars_in;
use crate::differing::firsts_in;
use crate::doubled::writes_in;
use crate::events::ClientEvent;
use crate::matching::unmatched_version;
use crate::timely::{late_operation, wrong_beginning};
use crate::unwritten::unwritten_read;
use std::alloc::{AllocError, Global};

/// What breaks a history: operations of one key, named by the moments of their responses.
#[derive(Clone, Copy, Drop)]
pub enum Violation {
    /// The first was answered before the second was invoked, and has a greater version, or the same one as that write.
    OutOfTime(usize, usize),
    /// It has version 0, and wrote, or showed a value.
    NotNothing(usize),
    /// Two writes got one version.
    TwoWrites(usize, usize),
    /// Two operations of one version have different values.
    TwoValues(usize, usize),
    /// It has a version that no write got, and that no write without a response can have got.
    NeverWritten(usize),
    /// It has a version that no write got. Of this value, more versions up to this one want a write without a response
    /// than there are writes without a response that can have got one of them.
    TooFewWrites(usize),
}

/// What breaks the history, or `None` where it is linearizable by versions. What a violation is refutes that, as
/// [`violations_refute`] says: so nothing else is answered of any history.
///
/// For n events with values of at most v bytes this takes O(n log n) steps, each with comparisons of up to v bytes; it
/// keeps some numbers for each event, each version and each write without a response.
///
/// # Errors
///
/// Only memory can be refused.
pub fn check(alloc: Global, history: &[ClientEvent]) -> Result<Option<Violation>, AllocError>
    ensures { IfOk result (Judged history.now) }
{
    let bars = bars_in(alloc, history)?;
    if let Some(late) = late_operation(history, bars.as_slice()) {
        return Ok(Some(late));
    }
    if let Some(wrong) = wrong_beginning(history) {
        return Ok(Some(wrong));
    }
    let writes = match writes_in(alloc, history)? {
        Ok(writes) => writes,
        Err(doubled) => return Ok(Some(doubled)),
    };
    let firsts = match firsts_in(alloc, history)? {
        Ok(firsts) => firsts,
        Err(differing) => return Ok(Some(differing)),
    };
    if let Some(unwritten) = unwritten_read(alloc, history, bars.as_slice(), &writes)? {
        return Ok(Some(unwritten));
    }
    unmatched_version(alloc, history, bars.as_slice(), &writes, &firsts)
}

/// What breaks a history refutes that it is linearizable.
pub fn violations_refute()
    ensures { BreaksRefute }
{}
