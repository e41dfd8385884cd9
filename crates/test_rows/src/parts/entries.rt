//! Entries of table 7.

use crate::lines::{Numbers, Page};
use rc_types::{Entry, Seq, Shared};
use std::alloc::{AllocError, Global};

/// An entry whose value is one byte.
pub fn entry(
    alloc: Global,
    term: u32,
    key: u64,
    version: u64,
    byte: u8,
) -> Result<Entry, AllocError> {
    let value = Shared::from_vec(alloc, vec![in alloc; byte]?)?;
    Ok(Entry {
        term,
        table: 7,
        key,
        version,
        value: Some(value),
    })
}

/// An entry under term 1, of version 1 and without a value.
pub fn bare(key: u64) -> Entry {
    Entry {
        term: 1,
        table: 7,
        key,
        version: 1,
        value: None,
    }
}

/// Entries of these keys, of version 1 under term 1.
pub fn entries(alloc: Global, numbers: &mut Numbers) -> Result<Vec<Entry>, AllocError> {
    let mut entries = Vec::new(alloc);
    for _ in 0..numbers.left() {
        entries.push(bare(numbers.next()))?;
    }
    Ok(entries)
}

/// Entries of four numbers each: term, key, version, and the one byte of the value.
pub fn whole_entries(alloc: Global, numbers: &mut Numbers) -> Result<Seq<Entry>, AllocError> {
    let mut entries = Vec::new(alloc);
    for _ in 0..numbers.left() / 4 {
        let term = numbers.long();
        let key = numbers.next();
        let version = numbers.next();
        entries.push(entry(alloc, term, key, version, numbers.byte())?)?;
    }
    Ok(Seq::from_vec(entries))
}

/// Writes the keys of entries.
pub fn write_keys(page: &mut Page, entries: &[Entry]) {
    page.put(" keys");
    for entry in entries {
        write!(page, " {}", entry.key);
    }
}
