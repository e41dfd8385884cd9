//! Copies of entries, all or none.

ghost use Rattle.std.specs.Prelude.{◌≡◌, ◌++◌, OnOk, OnErr};

use rc_types::{Entry, copied};
use std::alloc::{AllocError, Global};

/// Adds a copy of each of the entries at the end, or, where memory is refused (F1), none of them.
pub(crate) fn append_copies(
    entries: &mut Vec<Entry>,
    alloc: Global,
    added: &[Entry],
) -> Result<(), AllocError>
    ensures ok { OnOk result (entries.new.items ≡ entries.old.items ++ added.now) }
    ensures err { OnErr result (entries.new.items ≡ entries.old.items) }
{
    let mut copies = copied(alloc, added)?;
    entries.append(&mut copies)?;
    Ok(())
}
