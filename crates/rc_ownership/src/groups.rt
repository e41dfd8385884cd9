//! Keys are in groups, and of each group is known below which place its durable entries stand: so that who found an
//! entry that isn't outdated need not look again until an entry of its group has become durable.

ghost use Rattle.std.specs.Prelude.{◌≡◌, ◌⊎◌, ◌≤◌, ℕ, true, is_none, map, take, slice_get, slice_set, Some};
ghost use Rattle.std.specs.Prelude.{IfOk, IfSome, length};
ghost use Rattle.rc_types.specs.declared.entries.Entry.{Entry};
ghost use Rattle.rc_model.specs.Versions.{is_dead};
ghost use Rattle.rc_ownership.specs.Groups.{group_of, IsAliveAt, IsQuiet};
ghost use Rattle.rc_ownership.specs.Slots.{slot_of};

use crate::highs::{Slot, slot_of};
use crate::notes::Notes;
use rc_types::Entry;
use std::alloc::{AllocError, Global};

/// How many groups the slots are in: as many as the upper ten bits of a product number, so those from the 54th on.
const GROUPS: u64 = 1024;

/// By what a slot's numbers are multiplied, so that the upper bits depend on all of them.
const FACTOR: u64 = 11_400_714_819_323_198_485;

/// The group of an entry's key under its term.
pub fn group_of(entry: &Entry) -> usize
    ensures { result ≡ group_of (slot_of entry.now) }
{
    group_of_slot(slot_of(entry))
}

/// The group of a slot.
fn group_of_slot(slot: Slot) -> usize
    ensures { result ≡ group_of slot }
{
    let others = u64::from(slot.table) * 31 + u64::from(slot.term) * 997;
    (slot.key.wrapping_add(others).wrapping_mul(FACTOR) >> 54) as usize
}

/// A bound for each group, where so many entries are durable.
pub(crate) fn new_bounds(alloc: Global, durable: usize) -> Result<Vec<usize>, AllocError>
    ensures { IfOk result (λ bounds. (group bound : ℕ) → slice_get bounds.items group ≡ Some bound →
        bound ≡ durable) }
{
    let mut bounds = Vec::new(alloc);
    bounds.resize(GROUPS as usize, durable)?;
    Ok(bounds)
}

/// The group has this bound.
fn raise_bound(bounds: &mut Vec<usize>, group: usize, bound: usize)
    ensures { bounds.new.items ≡ slice_set bounds.old.items group bound }
{
    if group < bounds.len() {
        bounds[group] = bound;
    }
}

/// These entries became durable, and so many are durable now: that is a bound of each of their groups.
pub(crate) fn raise_bounds(bounds: &mut Vec<usize>, newly: &[Entry], durable: usize)
    ensures raised { (place : ℕ) (entry : Entry) (bound : ℕ) → slice_get newly.now place ≡ Some entry →
        slice_get bounds.new.items (group_of (slot_of entry)) ≡ Some bound → bound ≡ durable }
    ensures others { (group bound : ℕ) → slice_get bounds.new.items group ≡ Some bound →
        (bound ≡ durable) ⊎ (slice_get bounds.old.items group ≡ Some bound) }
{
    if bounds.is_empty() {
        return;
    }
    for entry in newly {
        raise_bound(bounds, group_of(entry), durable);
    }
}

impl Notes {
    /// The first of these entries that isn't outdated by a durable one: from `start` on, and then from the first on.
    pub(crate) fn find_alive(&self, entries: &[(Entry, bool)], start: usize) -> Option<usize>
        ensures dead { is_none result ≡ is_dead (take self.now.durable self.now.noted)
            (map (λ one. one.0) entries.now) }
        ensures alive { IfSome result (λ place. IsAliveAt (take self.now.durable self.now.noted) entries.now place) }
    {
        self.first_alive_from(entries, start.min(entries.len()))
    }

    /// The first of these entries that isn't outdated, from this one on, and then from the first on.
    fn first_alive_from(&self, entries: &[(Entry, bool)], start: usize) -> Option<usize>
        requires { start ≤ length entries.now }
        ensures dead { is_none result ≡ is_dead (take self.now.durable self.now.noted)
            (map (λ one. one.0) entries.now) }
        ensures alive { IfSome result (λ place. IsAliveAt (take self.now.durable self.now.noted) entries.now place) }
    {
        match self.first_alive(&entries[start..]) {
            Some(place) => Some(start + place),
            None => self.first_alive(&entries[..start]),
        }
    }

    /// The first of these entries that isn't outdated.
    fn first_alive(&self, entries: &[(Entry, bool)]) -> Option<usize>
        ensures dead { is_none result ≡ is_dead (take self.now.durable self.now.noted)
            (map (λ one. one.0) entries.now) }
        ensures alive { IfSome result (λ place. IsAliveAt (take self.now.durable self.now.noted) entries.now place) }
    {
        for place in 0..entries.len() {
            if !self.is_outdated(&entries[place].0) {
                return Some(place);
            }
        }
        None
    }

    /// Whether each of these entries is outdated by a durable one.
    pub(crate) fn are_outdated(&self, entries: &[Entry]) -> bool
        ensures { result ≡ is_dead (take self.now.durable self.now.noted) entries.now }
    {
        entries.iter().all(|entry| self.is_outdated(entry))
    }

    /// Whether no entry of the group has become durable since so many entries were. It is no walk.
    pub(crate) fn is_quiet(&self, group: usize, count: usize) -> bool
        ensures { result ≡ true → IsQuiet (take self.now.durable self.now.noted) group count }
    {
        group < self.bounds.len() && self.bounds[group] <= count
    }

    /// From here on there are bounds, if there is memory for them.
    pub(crate) fn watch_groups(&mut self, alloc: Global)
        ensures { self.new ≡ self.old }
    {
        if !self.bounds.is_empty() {
            return;
        }
        if let Ok(bounds) = new_bounds(alloc, self.durable) {
            self.bounds = bounds;
        }
    }

    /// How many entries are durable.
    pub(crate) fn count_durable(&self) -> usize
        ensures { result ≡ length (take self.now.durable self.now.noted) }
    {
        self.durable
    }
}
