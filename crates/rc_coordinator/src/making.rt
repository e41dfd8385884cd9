//! A coordinator's state made of lists: its tables, its tree and its attempts, each where the lists are such as a
//! coordinator has.

ghost use Rattle.std.specs.Prelude.{◌≡◌, ◌⊎◌, ◌^◌, ◌<◌, length, Ok, Err, IfOk, IfErr};
ghost use Rattle.std.specs.List.{IsDistinct};
ghost use Rattle.std.specs.Map.{keys_of};
ghost use Rattle.rc_model.specs.Ids.{same_id};
ghost use Rattle.rc_rangetree.specs.Ranges.{AreTablets};
ghost use Rattle.rc_coordinator.specs.Book.{IsBook};
ghost use Rattle.rc_coordinator.specs.View.{book_of};
ghost use Rattle.rc_coordinator.specs.declared.lists.ListsFault.TheVariants.{NoCoordinator};

use crate::lists::{Lists, ListsFault};
use crate::ready::Ready;
use crate::recoveries::Recoveries;
use crate::state::State;
use indexmap::IndexMap;
use rc_attempts::Attempt;
use rc_rangetree::{RangeTree, are_tablets};
use rc_serverlist::ServerList;
use rc_types::{Grant, Pair, ServerId, Tablet};
use std::alloc::{Allocator, Global};

/// The servers, who is ready, and the least pairs.
#[derive(Drop)]
struct Tables {
    servers: ServerList,
    ready: Ready,
    least: IndexMap<ServerId, Pair>,
}

/// The state of these lists, where a coordinator has them.
pub(crate) fn state_of<A: Allocator + Clone>(
    alloc: Global,
    tablets_alloc: A,
    lists: Lists,
) -> Result<State<A>, ListsFault>
    ensures ok { IfOk result (λ state. book_of state ≡ lists) }
    ensures refused { IfErr result (λ fault. fault ≡ NoCoordinator → IsBook lists → ⊥) }
{
    let Lists {
        version,
        rows,
        ready,
        tablets,
        least,
        attempts,
        current,
        grants,
        last_term,
    } = lists;
    let tables = tables_of(
        alloc,
        version,
        rows.as_slice(),
        ready.as_slice(),
        least.as_slice(),
    );
    let tree = tree_of(tablets_alloc, tablets.as_slice());
    let current = current.as_slice();
    let recoveries = recoveries_of(alloc, attempts.into_vec(), current, grants.as_slice());
    joined(alloc, tables, tree, recoveries, last_term)
}

/// The state of these parts, where there are all, and else why one isn't there.
fn joined<A: Allocator + Clone>(
    alloc: Global,
    tables: Result<Tables, ListsFault>,
    tree: Result<RangeTree<A>, ListsFault>,
    recoveries: Result<Recoveries, ListsFault>,
    last_term: u32,
) -> Result<State<A>, ListsFault>
    ensures ok { IfOk result (λ state. (tree ≡ Ok state.tablets) × (recoveries ≡ Ok state.recoveries) ×
        (tables ≡ Ok (record { servers = state.servers; ready = state.ready; least = state.least })) ×
        (state.last_term ≡ last_term)) }
    ensures refused { IfErr result (λ fault. (tables ≡ Err fault) ⊎ (tree ≡ Err fault) ⊎ (recoveries ≡ Err fault)) }
{
    match all_of(tables, tree, recoveries) {
        Ok((tables, tablets, recoveries)) => {
            let Tables {
                servers,
                ready,
                least,
            } = tables;
            Ok(State {
                alloc,
                servers,
                ready,
                tablets,
                least,
                recoveries,
                last_term,
            })
        }
        Err(fault) => Err(fault),
    }
}

/// All three, where there are all, and else why one isn't there.
fn all_of<X: Drop, Y: Drop, Z: Drop>(
    first: Result<X, ListsFault>,
    second: Result<Y, ListsFault>,
    third: Result<Z, ListsFault>,
) -> Result<(X, Y, Z), ListsFault>
    ensures ok { IfOk result (λ all. (first ≡ Ok all.0) × (second ≡ Ok all.1) × (third ≡ Ok all.2)) }
    ensures refused { IfErr result (λ fault. (first ≡ Err fault) ⊎ (second ≡ Err fault) ⊎ (third ≡ Err fault)) }
{
    let first = match first {
        Ok(first) => first,
        Err(fault) => return Err(fault),
    };
    let second = match second {
        Ok(second) => second,
        Err(fault) => return Err(fault),
    };
    match third {
        Ok(third) => Ok((first, second, third)),
        Err(fault) => Err(fault),
    }
}

/// The list of servers with these rows, where no id stands there twice.
fn servers_of(
    alloc: Global,
    version: u32,
    rows: &[(ServerId, bool)],
) -> Result<ServerList, ListsFault>
    ensures ok { IfOk result (λ servers. servers ≡ record { version = version; rows = rows.now }) }
    ensures refused { IfErr result (λ fault. fault ≡ NoCoordinator → IsDistinct same_id (keys_of rows.now) → ⊥) }
{
    let servers = match ServerList::from_rows(alloc, version, rows) {
        Ok(servers) => servers,
        Err(_) => return Err(ListsFault::OutOfMemory),
    };
    if servers.len() != rows.len() {
        return Err(ListsFault::NoCoordinator);
    }
    Ok(servers)
}

/// These ids as ready, in this order, where none stands there twice.
fn ready_of(alloc: Global, ids: &[ServerId]) -> Result<Ready, ListsFault>
    ensures ok { IfOk result (λ ready. ready ≡ ids.now) }
    ensures refused { IfErr result (λ fault. fault ≡ NoCoordinator → IsDistinct same_id ids.now → ⊥) }
{
    let mut ready = Ready::new(alloc);
    for id in ids {
        if ready.has(*id) {
            return Err(ListsFault::NoCoordinator);
        }
        ready.note(*id)?;
    }
    Ok(ready)
}

/// The map of these entries, in this order, where no id stands there twice.
fn map_of<V: Copy + Drop>(
    alloc: Global,
    entries: &[(ServerId, V)],
) -> Result<IndexMap<ServerId, V>, ListsFault>
    ensures ok { IfOk result (λ map. map.entries ≡ entries.now) }
    ensures refused { IfErr result (λ fault. fault ≡ NoCoordinator → IsDistinct same_id (keys_of entries.now) → ⊥) }
{
    let mut map = IndexMap::new(alloc);
    for (id, value) in entries {
        if map.contains_key(id) {
            return Err(ListsFault::NoCoordinator);
        }
        map.insert(*id, *value)?;
    }
    Ok(map)
}

/// The tree of these tablets, where a tree has them.
fn tree_of<A: Allocator + Clone>(alloc: A, tablets: &[Tablet]) -> Result<RangeTree<A>, ListsFault>
    ensures ok { IfOk result (λ tree. tree.tablets ≡ tablets.now) }
    ensures refused { IfErr result (λ fault. fault ≡ NoCoordinator → AreTablets tablets.now → ⊥) }
{
    if !are_tablets(tablets) {
        return Err(ListsFault::NoCoordinator);
    }
    match RangeTree::from_tablets(alloc, tablets) {
        Ok(tree) => Ok(tree),
        Err(_) => Err(ListsFault::OutOfMemory),
    }
}

/// These attempts, current numbers and grants, where no master stands twice among the current numbers, and there are no
/// more attempts than numbers of four bytes.
fn recoveries_of(
    alloc: Global,
    attempts: Vec<Attempt>,
    current: &[(ServerId, u32)],
    grants: &[Grant],
) -> Result<Recoveries, ListsFault>
    ensures attempts { IfOk result (λ made. made.attempts ≡ attempts.items) }
    ensures current { IfOk result (λ made. made.current ≡ current.now) }
    ensures grants { IfOk result (λ made. made.grants ≡ grants.now) }
    ensures refused { IfErr result (λ fault. fault ≡ NoCoordinator → length attempts.items < 2 ^ 32 →
        IsDistinct same_id (keys_of current.now) → ⊥) }
{
    if attempts.len() > u32::MAX as usize {
        return Err(ListsFault::NoCoordinator);
    }
    let current = match map_of(alloc, current) {
        Ok(current) => current,
        Err(fault) => return Err(fault),
    };
    match Recoveries::from_parts(alloc, attempts, current, grants) {
        Ok(recoveries) => Ok(recoveries),
        Err(_) => Err(ListsFault::OutOfMemory),
    }
}

/// The tables of ids, where no id stands twice in one of them.
fn tables_of(
    alloc: Global,
    version: u32,
    rows: &[(ServerId, bool)],
    ready: &[ServerId],
    least: &[(ServerId, Pair)],
) -> Result<Tables, ListsFault>
    ensures servers { IfOk result (λ made. made.servers ≡ record { version = version; rows = rows.now }) }
    ensures ready { IfOk result (λ made. made.ready ≡ ready.now) }
    ensures least { IfOk result (λ made. made.least.entries ≡ least.now) }
    ensures refused { IfErr result (λ fault. fault ≡ NoCoordinator → IsDistinct same_id (keys_of rows.now) →
        IsDistinct same_id ready.now → IsDistinct same_id (keys_of least.now) → ⊥) }
{
    let servers = match servers_of(alloc, version, rows) {
        Ok(servers) => servers,
        Err(fault) => return Err(fault),
    };
    let ready = match ready_of(alloc, ready) {
        Ok(ready) => ready,
        Err(fault) => return Err(fault),
    };
    match map_of(alloc, least) {
        Ok(least) => Ok(Tables {
            servers,
            ready,
            least,
        }),
        Err(fault) => Err(fault),
    }
}
