//! The record highs of keys: of each key under a term, the place and the version of each noted
//! entry whose version is above all earlier ones.

ghost use Rattle.std.specs.Prelude.{◌≡◌, ℕ, ◌++◌, ◌∷◌, [], OnOk, OnErr, if◌then◌else◌, filter, nat_lt, ◌≤◌, length};
ghost use Rattle.std.specs.Prelude.{take};
ghost use Rattle.std.specs.List.Sorted.{IsNonDecreasingBy};
ghost use Rattle.rc_model.specs.Versions.{is_of};
ghost use Rattle.rc_ownership.specs.Highs.{is_higher, last_version, with_high};
ghost use Rattle.rc_ownership.specs.Slots.{same_slot, highs_in};

use indexmap::IndexMap;
use rc_types::Entry;
use std::alloc::{AllocError, Global};

/// A key of a table, under a term: it has versions of its own.
#[derive(Clone, Copy, PartialEq, Eq, Hash)]
pub(crate) struct Slot {
    /// The term.
    pub(crate) term: u32,
    /// The table.
    pub(crate) table: u32,
    /// The key.
    pub(crate) key: u64,
}

ghost use Rattle.rc_ownership.specs.Slots.{slot_of};

/// The slot of an entry.
pub(crate) fn slot_of(entry: &Entry) -> Slot
    ensures { result ≡ slot_of entry.now }
{
    Slot {
        term: entry.term,
        table: entry.table,
        key: entry.key,
    }
}

/// The version of the last high, 0 where there is none.
pub(crate) fn last_version(highs: &[(usize, u64)]) -> u64
    ensures { result ≡ last_version highs.now }
{
    match highs.last() {
        Some((_, version)) => *version,
        None => 0,
    }
}

/// Whether the version is above the highs, as any is where there is none.
fn is_higher(highs: &[(usize, u64)], version: u64) -> bool
    ensures { result ≡ is_higher highs.now version }
{
    match highs.last() {
        Some((_, last)) => *last < version,
        None => true,
    }
}

/// The highs of a slot.
pub(crate) fn highs_in(highs: &IndexMap<Slot, Vec<(usize, u64)>>, slot: Slot) -> &[(usize, u64)]
    ensures { result.now ≡ highs_in highs.now slot }
{
    match highs.get(&slot) {
        Some(list) => list.as_slice(),
        None => &[],
    }
}

/// Adds the place and the version at the end of a slot's highs, where the version is above them.
pub(crate) fn add_high(
    alloc: Global,
    highs: &mut IndexMap<Slot, Vec<(usize, u64)>>,
    slot: Slot,
    place: usize,
    version: u64,
) -> Result<(), AllocError>
    ensures ok { OnOk result ((other : Slot) →
        highs_in highs.new other ≡ (if same_slot slot other then with_high place version (highs_in highs.old other)
        else highs_in highs.old other)) }
    ensures err { OnErr result ((other : Slot) → highs_in highs.new other ≡ highs_in highs.old other) }
{
    if !is_higher(highs_in(highs, slot), version) {
        return Ok(());
    }
    match highs.get_mut(&slot) {
        Some(list) => list.push((place, version))?,
        None => {
            let list = vec![in alloc; (place, version)]?;
            highs.insert(slot, list)?;
        }
    }
    Ok(())
}

/// How many of the highs, which are in order of place, have a place below a count.
fn count_below(highs: &[(usize, u64)], count: usize) -> usize
    requires { IsNonDecreasingBy (λ high. high.0) highs.now }
    ensures within { result ≤ length highs.now }
    ensures first { take result highs.now ≡ filter (λ high. nat_lt high.0 count) highs.now }
{
    highs.partition_point(|(place, _)| *place < count)
}

/// The highs whose places are below a count, of highs in order of place.
pub(crate) fn below(highs: &[(usize, u64)], count: usize) -> &[(usize, u64)]
    requires { IsNonDecreasingBy (λ high. high.0) highs.now }
    ensures { result.now ≡ filter (λ high. nat_lt high.0 count) highs.now }
{
    let end = count_below(highs, count);
    &highs[..end]
}

/// Drops the highs of a slot whose places aren't below a count.
pub(crate) fn drop_from(highs: &mut IndexMap<Slot, Vec<(usize, u64)>>, slot: Slot, count: usize)
    requires { IsNonDecreasingBy (λ high. high.0) (highs_in highs.old slot) }
    ensures { (other : Slot) →
        highs_in highs.new other ≡ (if same_slot slot other then filter (λ high. nat_lt high.0 count)
        (highs_in highs.old other) else highs_in highs.old other) }
{
    if let Some(list) = highs.get_mut(&slot) {
        let left = count_below(list.as_slice(), count);
        list.truncate(left);
    }
}
