//! Maps of lists that are in order, and of no others. A list is taken from its end, so each element goes to the front.

ghost use Rattle.std.specs.Prelude.{◌≡◌, ◌∷◌, IfOk, IfErr, OnOk};
ghost use Rattle.std.specs.List.Sorted.{IsStrictlySortedBy};
ghost use Rattle.std.specs.Map.{keys_of};
ghost use Rattle.std.specs.Ordering.{nat_cmp};
ghost use Rattle.rc_codec.specs.declared.faults.DecodeFault.TheVariants.{Malformed};
ghost use Rattle.rc_backup.specs.BackupView.{id_order};
ghost use Rattle.rc_keeping.specs.Order.{IsHeldInOrder, IsInOrder, goes_first, goes_lowest};

use crate::reading::{Part, Piece};
use rc_backup::Held;
use rc_codec::DecodeFault;
use rc_replica::Replica;
use rc_types::ServerId;
use std::alloc::Global;
use std::cmp::Ordering;
use std::collections::{BTreeMap, BTreeSet};

/// Whether the key is below all keys of a map.
fn goes_first<K: Ord, V>(map: &BTreeMap<K, V>, key: &K) -> bool
    ensures { result ≡ goes_first K.cmp key.now map.now.entries }
{
    match map.first_key_value() {
        Some((first, _)) => key.cmp(first) == Ordering::Less,
        None => true,
    }
}

/// Puts an entry before all others of a map, where its key is below theirs.
fn put_first<K: Ord + Drop, V: Drop>(
    map: &mut BTreeMap<K, V>,
    key: K,
    value: V,
) -> Result<(), DecodeFault>
    ensures ok { OnOk result (map.new.entries ≡ (key, value) ∷ map.old.entries) }
    ensures err { IfErr result (λ fault. fault ≡ Malformed →
        IsStrictlySortedBy K.cmp (key ∷ keys_of map.old.entries) → ⊥) }
{
    if !goes_first(map, &key) {
        return Err(DecodeFault::Malformed);
    }
    map.insert(key, value)?;
    Ok(())
}

/// Whether the segment is below all of a set.
fn goes_lowest(set: &BTreeSet<u16>, seg: u16) -> bool
    ensures { result ≡ goes_lowest seg set.now.keys }
{
    match set.first() {
        Some(first) => seg < *first,
        None => true,
    }
}

/// Puts a segment before all others of a set, where it is below them.
fn put_lowest(set: &mut BTreeSet<u16>, seg: u16) -> Result<(), DecodeFault>
    ensures ok { OnOk result (set.new.keys ≡ seg ∷ set.old.keys) }
    ensures err { IfErr result (λ fault. fault ≡ Malformed →
        IsStrictlySortedBy nat_cmp (seg ∷ set.old.keys) → ⊥) }
{
    if !goes_lowest(set, seg) {
        return Err(DecodeFault::Malformed);
    }
    set.insert(seg)?;
    Ok(())
}

/// The replicas, where they ascend by segment.
fn replicas_of(alloc: Global, mut pieces: Vec<Piece>) -> Result<BTreeMap<u16, Replica>, DecodeFault>
    ensures ok { IfOk result (λ map. map.entries ≡ pieces.items) }
    ensures err { IfErr result (λ fault. fault ≡ Malformed →
        IsStrictlySortedBy nat_cmp (keys_of pieces.items) → ⊥) }
{
    let mut map = BTreeMap::new(alloc);
    while let Some(piece) = pieces.pop() {
        let (seg, replica) = piece.into_pair();
        match put_first(&mut map, seg, replica) {
            Ok(()) => {}
            Err(fault) => return Err(fault),
        }
    }
    Ok(map)
}

/// The freed segments, where they ascend.
fn freed_of(alloc: Global, mut segs: Vec<u16>) -> Result<BTreeSet<u16>, DecodeFault>
    ensures ok { IfOk result (λ set. set.keys ≡ segs.items) }
    ensures err { IfErr result (λ fault. fault ≡ Malformed → IsStrictlySortedBy nat_cmp segs.items → ⊥) }
{
    let mut set = BTreeSet::new(alloc);
    while let Some(seg) = segs.pop() {
        match put_lowest(&mut set, seg) {
            Ok(()) => {}
            Err(fault) => return Err(fault),
        }
    }
    Ok(set)
}

/// A master and what is kept of it, where that is in order.
fn held_of(alloc: Global, part: Part) -> Result<(ServerId, Held), DecodeFault>
    ensures ok { IfOk result (λ made. made ≡ part) }
    ensures err { IfErr result (λ fault. fault ≡ Malformed → IsHeldInOrder part.1 → ⊥) }
{
    let (master, fenced, replicas, freed) = part.into_parts();
    let replicas = match replicas_of(alloc, replicas) {
        Ok(replicas) => replicas,
        Err(fault) => return Err(fault),
    };
    let freed = match freed_of(alloc, freed) {
        Ok(freed) => freed,
        Err(fault) => return Err(fault),
    };
    Ok((master, Held::of_parts(fenced, replicas, freed)))
}

/// What is kept of each master, where that is in order and the masters ascend.
pub(crate) fn table_of(
    alloc: Global,
    mut parts: Vec<Part>,
) -> Result<BTreeMap<ServerId, Held>, DecodeFault>
    ensures ok { IfOk result (λ map. map.entries ≡ parts.items) }
    ensures err { IfErr result (λ fault. fault ≡ Malformed → IsInOrder parts.items → ⊥) }
{
    let mut map = BTreeMap::new(alloc);
    while let Some(part) = parts.pop() {
        match put_part(alloc, &mut map, part) {
            Ok(()) => {}
            Err(fault) => return Err(fault),
        }
    }
    Ok(map)
}

/// Puts a master and what is kept of it before all others, where its id is below theirs, and what is kept is in order.
fn put_part(
    alloc: Global,
    map: &mut BTreeMap<ServerId, Held>,
    part: Part,
) -> Result<(), DecodeFault>
    ensures ok { OnOk result (map.new.entries ≡ part ∷ map.old.entries) }
    ensures err { IfErr result (λ fault. fault ≡ Malformed → IsHeldInOrder part.1 →
        IsStrictlySortedBy id_order (part.0 ∷ keys_of map.old.entries) → ⊥) }
{
    match held_of(alloc, part) {
        Ok((master, held)) => put_first(map, master, held),
        Err(fault) => Err(fault),
    }
}
