//! Copies of what messages carry.

ghost use Rattle.std.specs.Prelude.{◌≡◌, [], ◌∷◌, map, IfOk};

use rc_types::{Entry, Seq, TryClone};
use std::alloc::{AllocError, Global};

/// A copy of an entry.
pub(crate) fn copy_of(alloc: Global, entry: &Entry) -> Result<Entry, AllocError>
    ensures { IfOk result (λ copy. copy ≡ entry.now) }
{
    let Ok(copy) = entry.try_clone(alloc) else {
        return Err(AllocError);
    };
    Ok(copy)
}

/// A list of one copy of an entry.
pub(crate) fn list_of(alloc: Global, entry: &Entry) -> Result<Seq<Entry>, AllocError>
    ensures { IfOk result (λ entries. entries ≡ entry.now ∷ []) }
{
    let mut entries = Vec::with_capacity(alloc, 1)?;
    entries.push(copy_of(alloc, entry)?)?;
    Ok(Seq::from_vec(entries))
}

/// A copy of the entries, without the marks whether a client wrote them.
pub(crate) fn copies_of(alloc: Global, entries: &[(Entry, bool)]) -> Result<Seq<Entry>, AllocError>
    ensures { IfOk result (λ copies. copies ≡ map (λ one. one.0) entries.now) }
{
    let mut copies = Vec::with_capacity(alloc, entries.len())?;
    for (entry, _) in entries {
        copies.push(copy_of(alloc, entry)?)?;
    }
    Ok(Seq::from_vec(copies))
}
