//! The version of a client's write.

ghost use Rattle.std.specs.Prelude.{◌≡◌, ◌<◌, ◌^◌, IfOk};
ghost use Rattle.rc_model.specs.Versions.{next_version};

use rc_ownership::Ownership;
use rc_types::{Entry, Shared, TryClone};
use std::alloc::{AllocError, Global};

/// The entry of a client's write: its version is one above the greatest of its key under its term that was noted.
pub(crate) fn new_entry(
    alloc: Global,
    ownership: &Ownership,
    term: u32,
    table: u32,
    key: u64,
    value: &Option<Shared<u8>>,
) -> Result<Entry, AllocError>
    requires { next_version term table key ownership.now.noted < 2 ^ 64 }
    ensures ok { IfOk result (λ entry. entry ≡ record {
      term = term;
      table = table;
      key = key;
      version = next_version term table key ownership.now.noted;
      value = value.now;
    }) }
{
    let version = ownership.next_version(term, table, key);
    let value = value.try_clone(alloc)?;
    Ok(Entry {
        term,
        table,
        key,
        version,
        value,
    })
}
