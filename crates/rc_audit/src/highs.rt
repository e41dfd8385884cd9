//! The greatest version of each key under each term, among those that were noted.

ghost use Rattle.std.specs.Prelude.{◌≡◌, OnOk};
ghost use Rattle.rc_audit.specs.Highs.{NotesVersion, entry_key, high_at, is_above, is_level};

use rc_types::Entry;
use std::alloc::AllocError;
use std::collections::BTreeMap;

/// A key of a table, under a term.
#[derive(Clone, Copy, PartialEq, Eq, PartialOrd, Ord)]
pub struct TermKey {
    /// The term.
    pub term: u32,
    /// The table.
    pub table: u32,
    /// The key.
    pub key: u64,
}

/// For each key under a term, the greatest version that was noted.
pub type Highs = BTreeMap<TermKey, u64>;

/// The key of this entry, under its term.
pub fn key_of(entry: &Entry) -> TermKey
    ensures { result ≡ entry_key entry.now }
{
    TermKey {
        term: entry.term,
        table: entry.table,
        key: entry.key,
    }
}

/// Notes a version of this key.
pub(crate) fn note_version(highs: &mut Highs, key: TermKey, version: u64) -> Result<(), AllocError>
    ensures { OnOk result (NotesVersion highs.old highs.new key version) }
{
    let high = highs.get(&key).copied().unwrap_or(0);
    highs.insert(key, high.max(version))?;
    Ok(())
}

/// Whether a version of this key above this one was noted.
pub fn has_above(highs: &Highs, key: TermKey, version: u64) -> bool
    ensures { result ≡ is_above (high_at highs.now key) version }
{
    match highs.get(&key).copied() {
        None => false,
        Some(high) => version < high,
    }
}

/// The greatest version of this key that was noted.
pub(crate) fn high_of(highs: &Highs, key: TermKey) -> Option<u64>
    ensures { result ≡ high_at highs.now key }
{
    highs.get(&key).copied()
}

/// Whether this greatest version, if there is one, is not below a version.
pub fn is_level(high: Option<u64>, version: u64) -> bool
    ensures { result ≡ is_level high version }
{
    match high {
        None => false,
        Some(high) => version <= high,
    }
}
