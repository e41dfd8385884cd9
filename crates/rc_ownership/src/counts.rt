//! How many durable entries each term has that the replay had handed out.

ghost use Rattle.std.specs.Prelude.{◌≡◌, ℕ, ◌+◌, ◌-◌, ◌^◌, ◌<◌, nat_eq, length, if◌then◌else◌, OnOk};
ghost use Rattle.std.specs.Option.{IsSome};
ghost use Rattle.indexmap.specs.IndexMap.{get};
ghost use Rattle.rc_model.specs.Ownership.{count_under};
ghost use Rattle.rc_ownership.specs.Counts.{count_in, AreKnown};
ghost use Rattle.rc_ownership.specs.Marks.{marked};

use indexmap::IndexMap;
use rc_types::Entry;
use std::alloc::AllocError;

/// How many a term has.
pub(crate) fn count_in(counts: &IndexMap<u32, usize>, term: u32) -> usize
    ensures { result ≡ count_in counts.now term }
{
    match counts.get(&term) {
        Some(count) => *count,
        None => 0,
    }
}

/// Makes room for a term's count, so that it can be raised without memory.
pub(crate) fn know_term(counts: &mut IndexMap<u32, usize>, term: u32) -> Result<(), AllocError>
    ensures known { OnOk result (IsSome (get nat_eq counts.new term)) }
    ensures same { (other : ℕ) → count_in counts.new other ≡ count_in counts.old other }
    ensures kept { (other : ℕ) → IsSome (get nat_eq counts.old other) → IsSome (get nat_eq counts.new other) }
{
    if !counts.contains_key(&term) {
        counts.insert(term, 0)?;
    }
    Ok(())
}

/// Raises the count of a term.
fn raise(counts: &mut IndexMap<u32, usize>, term: u32)
    requires { count_in counts.old term + 1 < 2 ^ 64 }
    ensures counted { IsSome (get nat_eq counts.old term) → (other : ℕ) →
        count_in counts.new other ≡ count_in counts.old other + (if nat_eq term other then 1 else 0) }
    ensures kept { (other : ℕ) → IsSome (get nat_eq counts.old other) → IsSome (get nat_eq counts.new other) }
{
    if let Some(count) = counts.get_mut(&term) {
        *count += 1;
    }
}

/// Lowers the count of a term.
fn lower(counts: &mut IndexMap<u32, usize>, term: u32)
    ensures counted { (other : ℕ) →
        count_in counts.new other ≡ count_in counts.old other - (if nat_eq term other then 1 else 0) }
    ensures kept { (other : ℕ) → IsSome (get nat_eq counts.old other) → IsSome (get nat_eq counts.new other) }
{
    if let Some(count) = counts.get_mut(&term) {
        *count = count.saturating_sub(1);
    }
}

/// Raises the counts of the terms of the entries that are marked.
pub(crate) fn count_up(counts: &mut IndexMap<u32, usize>, entries: &[Entry], marks: &[bool])
    requires each { length marks.now ≡ length entries.now }
    requires known { AreKnown counts.old entries.now }
    requires room { (term : ℕ) → count_in counts.old term + length entries.now < 2 ^ 64 }
    ensures counted { (term : ℕ) → count_in counts.new term ≡ count_in counts.old term +
        count_under term (marked marks.now entries.now) }
    ensures kept { (term : ℕ) → IsSome (get nat_eq counts.old term) → IsSome (get nat_eq counts.new term) }
{
    for place in 0..entries.len() {
        if marks[place] {
            raise(counts, entries[place].term);
        }
    }
}

/// Lowers the counts of the terms of the entries that are marked.
pub(crate) fn count_down(counts: &mut IndexMap<u32, usize>, entries: &[Entry], marks: &[bool])
    requires { length marks.now ≡ length entries.now }
    ensures counted { (term : ℕ) → count_in counts.new term ≡ count_in counts.old term -
        count_under term (marked marks.now entries.now) }
    ensures kept { (term : ℕ) → IsSome (get nat_eq counts.old term) → IsSome (get nat_eq counts.new term) }
{
    for place in 0..entries.len() {
        if marks[place] {
            lower(counts, entries[place].term);
        }
    }
}
