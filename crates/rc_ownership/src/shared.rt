//! Copies of entries that have come, in lists that the row of a part and the replay both own.

ghost use Rattle.std.specs.Prelude.{◌≡◌, IfOk};

use rc_types::{Entry, Shared, copied};
use std::alloc::{AllocError, Global};

/// Copies of the entries, to be shared. Only memory can be refused (F1).
pub(crate) fn shared_copies(alloc: Global, entries: &[Entry]) -> Result<Shared<Entry>, AllocError>
    ensures { IfOk result (λ shared. shared ≡ entries.now) }
{
    let copies = copied(alloc, entries)?;
    Ok(Shared::from_vec(alloc, copies)?)
}
