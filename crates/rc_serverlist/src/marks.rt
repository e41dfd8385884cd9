//! Rows of ids and marks, as an `IndexMap` in the order of enlisting.

ghost use Rattle.std.specs.Prelude.{◌≡◌, ◌≤◌, ◌++◌, ◌∷◌, [], take, drop, length, position, not, if◌then◌else◌};
ghost use Rattle.std.specs.Prelude.{nat_eq, nat_lt, ◌||◌, ◌&&◌, true, false, OnOk};
ghost use Rattle.std.specs.Bool.{OnFalse};
ghost use Rattle.std.specs.List.{list_all};
ghost use Rattle.indexmap.specs.IndexMap.{keys};
ghost use Rattle.rc_model.specs.Ids.{id_before, insert_id};
ghost use Rattle.rc_model.specs.ServerList.{knows, is_newest, marked_up, index_crashed, id_crashed};

use indexmap::IndexMap;
use rc_types::ServerId;
use std::alloc::AllocError;
use std::mem;

/// Adds a row for the id, unless it has one.
pub(crate) fn insert_if_unknown(
    rows: &mut IndexMap<ServerId, bool>,
    id: ServerId,
    up: bool,
) -> Result<(), AllocError>
    ensures { OnOk result (rows.new.entries ≡ (if knows rows.old.entries id then rows.old.entries
        else rows.old.entries ++ (id, up) ∷ [])) }
{
    if !rows.contains_key(&id) {
        rows.insert(id, up)?;
    }
    Ok(())
}

/// Whether each known id is of another index or of a lower generation.
fn are_all_older(rows: &IndexMap<ServerId, bool>, id: ServerId) -> bool
    ensures { result ≡ list_all (λ known. not (nat_eq known.index id.index) || nat_lt known.generation id.generation)
        (keys rows.now) }
{
    rows.keys().all(|known| known.index != id.index || known.generation < id.generation)
}

/// Whether the generation is above all known of its index.
pub(crate) fn is_newest(rows: &IndexMap<ServerId, bool>, id: ServerId) -> bool
    ensures { result ≡ is_newest id rows.now.entries }
{
    are_all_older(rows, id)
}

/// Whether the id has a row that is marked up.
pub(crate) fn is_marked_up(rows: &IndexMap<ServerId, bool>, id: ServerId) -> bool
    ensures { result ≡ marked_up rows.now.entries id }
{
    match rows.get(&id) {
        Some(up) => *up,
        None => false,
    }
}

/// Whether the id has a row that is not marked up.
pub(crate) fn is_marked_crashed(rows: &IndexMap<ServerId, bool>, id: ServerId) -> bool
    ensures { result ≡ (knows rows.now.entries id && (if marked_up rows.now.entries id then false else true)) }
{
    match rows.get(&id) {
        Some(up) => !*up,
        None => false,
    }
}

/// Marks the id crashed, and says whether it was marked up.
pub(crate) fn mark_crashed(rows: &mut IndexMap<ServerId, bool>, id: ServerId) -> bool
    ensures was_up { result ≡ marked_up rows.old.entries id }
    ensures crashed { rows.new.entries ≡ id_crashed id rows.old.entries }
    ensures unchanged { OnFalse result (rows.new.entries ≡ rows.old.entries) }
{
    match rows.get_mut(&id) {
        Some(up) => mem::replace(up, false),
        None => false,
    }
}

/// Marks every id of the index crashed that is among the first `count` rows.
pub(crate) fn mark_index_crashed(rows: &mut IndexMap<ServerId, bool>, index: u8, count: usize)
    requires { count ≤ length rows.old.entries }
    ensures { rows.new.entries ≡ index_crashed index (take count rows.old.entries) ++ drop count rows.old.entries }
{
    for place in 0..count {
        let (id, up) = rows.pair_mut(place);
        if id.index == index {
            *up = false;
        }
    }
}

/// The place of the first of the ids that the id comes before.
fn place_before(ids: &[ServerId], id: ServerId) -> Option<usize>
    ensures { result ≡ position (id_before id) ids.now }
{
    ids.iter().position(|other| id < *other)
}

/// Puts the id before the first of the ids that it comes before.
pub(crate) fn insert_in_order(ids: &mut Vec<ServerId>, id: ServerId) -> Result<(), AllocError>
    ensures { OnOk result (ids.new.items ≡ insert_id id ids.old.items) }
{
    let place = place_before(ids, id).unwrap_or(ids.len());
    ids.insert(place, id)?;
    Ok(())
}
