//! Copies of lists and of maps of plain data.

ghost use Rattle.std.specs.Prelude.{◌≡◌, IfOk};

use crate::sequence::TryClone;
use std::alloc::{AllocError, Global};
use std::collections::BTreeMap;

/// Copies of these, in order. Only memory can be refused (F1).
pub fn copied<T: TryClone + Drop>(alloc: Global, items: &[T]) -> Result<Vec<T>, AllocError>
    ensures { IfOk result (λ copies. copies.items ≡ items.now) }
{
    let mut copies = Vec::with_capacity(alloc, items.len())?;
    for item in items {
        copies.push(item.try_clone(alloc)?)?;
    }
    Ok(copies)
}

/// A copy of the map: the same keys, each with a copy of its value. Only memory can be refused (F1).
pub fn copied_map<K: Ord + Copy + Drop, V: TryClone + Drop>(
    alloc: Global,
    map: &BTreeMap<K, V>,
) -> Result<BTreeMap<K, V>, AllocError>
    ensures { IfOk result (λ copy. copy.entries ≡ map.now.entries) }
{
    let mut copy = BTreeMap::new(alloc);
    for (key, value) in map.iter().rev() {
        copy.insert(*key, value.try_clone(alloc)?)?;
    }
    Ok(copy)
}
