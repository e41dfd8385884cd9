//! A coordinator, written down part by part. Where memory is refused some of the bytes may stand there.

ghost use Rattle.std.specs.Prelude.{◌≡◌, ◌++◌, ◌^◌, ◌<◌, length, OnOk};
ghost use Rattle.std.specs.List.{flat_map, IsDistinct};
ghost use Rattle.std.specs.Option.{option_copied};
ghost use Rattle.std.specs.Map.{keys_of};
ghost use Rattle.rc_codec.specs.Parts.{four_bytes, optional, listed};
ghost use Rattle.rc_codec.specs.Fields.{id_code, up_code, tablet_code};
ghost use Rattle.rc_model.specs.Ids.{same_id};
ghost use Rattle.rc_rangetree.specs.Ranges.{AreTablets};
ghost use Rattle.rc_coordinator.specs.Book.{IsBook};
ghost use Rattle.rc_keeping.specs.Saved.{CoordinatorSave, given_code, decision_code, attempt_code, known_code};
ghost use Rattle.rc_keeping.specs.Saved.{begun_code, coded};

use crate::putting::put_list;
use indexmap::IndexMap;
use rc_codec::Put;
use rc_coordinator::{Attempt, Coordinator, Decision, GivenPart, Ready};
use rc_serverlist::ServerList;
use rc_types::ServerId;
use std::alloc::{AllocError, Allocator, Global};

/// The list of servers: its version, and its rows.
fn put_servers(alloc: Global, servers: &ServerList, out: &mut Vec<u8>) -> Result<(), AllocError>
    ensures written { OnOk result (out.new.items ≡ out.old.items ++
        four_bytes servers.now.version ++ listed up_code servers.now.rows) }
    ensures distinct { OnOk result (IsDistinct same_id (keys_of servers.now.rows)) }
{
    servers.version().put(out)?;
    match servers.rows(alloc) {
        Ok(rows) => put_list(rows.as_slice(), out),
        Err(refused) => Err(refused),
    }
}

/// Each id that is ready, in their order.
fn put_ready(alloc: Global, ready: &Ready, out: &mut Vec<u8>) -> Result<(), AllocError>
    ensures written { OnOk result (out.new.items ≡ out.old.items ++ listed id_code ready.now) }
    ensures distinct { OnOk result (IsDistinct same_id ready.now) }
{
    match ready.ids(alloc) {
        Ok(ids) => put_list(ids.as_slice(), out),
        Err(refused) => Err(refused),
    }
}

/// Each id of a map, and what it has there, in the map's order.
fn put_map<V: Put>(map: &IndexMap<ServerId, V>, out: &mut Vec<u8>) -> Result<(), AllocError>
    ensures written { OnOk result (out.new.items ≡ out.old.items ++
        listed (λ e. id_code e.0 ++ V.code e.1) map.now.entries) }
    ensures distinct { OnOk result (IsDistinct same_id (keys_of map.now.entries)) }
{
    map.len().put(out)?;
    put_entries(map, out)
}

/// The entries themselves.
fn put_entries<V: Put>(map: &IndexMap<ServerId, V>, out: &mut Vec<u8>) -> Result<(), AllocError>
    ensures { OnOk result (out.new.items ≡ out.old.items ++
        flat_map (λ e. id_code e.0 ++ V.code e.1) map.now.entries) }
{
    for (id, value) in map {
        (id, value).put(out)?;
    }
    Ok(())
}

/// All tablets, in order.
fn put_tablets<A: Allocator + Clone>(
    alloc: Global,
    coordinator: &Coordinator<A>,
    out: &mut Vec<u8>,
) -> Result<(), AllocError>
    ensures written { OnOk result (out.new.items ≡ out.old.items ++ listed tablet_code coordinator.now.tablets) }
    ensures are_tablets { OnOk result (AreTablets coordinator.now.tablets) }
{
    match coordinator.tablets(alloc) {
        Ok(tablets) => put_list(tablets.as_slice(), out),
        Err(refused) => Err(refused),
    }
}

/// Each part of a decision, and who recovers it.
fn put_parts(parts: &[GivenPart], out: &mut Vec<u8>) -> Result<(), AllocError>
    ensures { OnOk result (out.new.items ≡ out.old.items ++ flat_map given_code parts.now) }
{
    for given in parts {
        (given.to, given.part).put(out)?;
    }
    Ok(())
}

/// A decision.
fn put_decision(decision: &Decision, out: &mut Vec<u8>) -> Result<(), AllocError>
    ensures { OnOk result (out.new.items ≡ out.old.items ++ decision_code decision.now) }
{
    let plan = decision.plan();
    (plan.head, &plan.rows, decision.parts().len()).put(out)?;
    put_parts(decision.parts(), out)
}

/// 0 where nothing was decided; else 1, and the decision.
fn put_decided(decided: Option<&Decision>, out: &mut Vec<u8>) -> Result<(), AllocError>
    ensures { OnOk result (out.new.items ≡ out.old.items ++ optional decision_code (option_copied decided.entry)) }
{
    match decided {
        Some(decision) => {
            1u8.put(out)?;
            put_decision(decision, out)
        }
        None => 0u8.put(out),
    }
}

/// An attempt.
fn put_attempt(attempt: &Attempt, out: &mut Vec<u8>) -> Result<(), AllocError>
    ensures { OnOk result (out.new.items ≡ out.old.items ++ attempt_code attempt.now) }
{
    attempt.master().put(out)?;
    put_list(attempt.replies(), out)?;
    put_decided(attempt.decided(), out)
}

/// Each attempt, in order of number.
fn put_attempts(attempts: &[Attempt], out: &mut Vec<u8>) -> Result<(), AllocError>
    ensures { OnOk result (out.new.items ≡ out.old.items ++ flat_map attempt_code attempts.now) }
{
    for attempt in attempts {
        put_attempt(attempt, out)?;
    }
    Ok(())
}

/// What the coordinator knows of servers and tablets.
fn put_known<A: Allocator + Clone>(
    alloc: Global,
    coordinator: &Coordinator<A>,
    out: &mut Vec<u8>,
) -> Result<(), AllocError>
    ensures written { OnOk result (out.new.items ≡ out.old.items ++ known_code coordinator.now) }
    ensures servers { OnOk result (IsDistinct same_id (keys_of coordinator.now.servers.rows)) }
    ensures ready { OnOk result (IsDistinct same_id coordinator.now.ready) }
    ensures tablets { OnOk result (AreTablets coordinator.now.tablets) }
    ensures least { OnOk result (IsDistinct same_id (keys_of coordinator.now.least)) }
{
    put_servers(alloc, coordinator.servers(), out)?;
    put_ready(alloc, coordinator.ready(), out)?;
    put_tablets(alloc, coordinator, out)?;
    put_map(coordinator.least(), out)
}

/// What the coordinator has begun and granted.
fn put_begun<A: Allocator + Clone>(
    coordinator: &Coordinator<A>,
    out: &mut Vec<u8>,
) -> Result<(), AllocError>
    ensures written { OnOk result (out.new.items ≡ out.old.items ++ begun_code coordinator.now) }
    ensures few { OnOk result (length coordinator.now.attempts < 2 ^ 32) }
    ensures current { OnOk result (IsDistinct same_id (keys_of coordinator.now.current)) }
{
    let attempts = coordinator.attempts();
    attempts.len().put(out)?;
    put_attempts(attempts, out)?;
    put_map(coordinator.current(), out)?;
    put_list(coordinator.grants(), out)?;
    coordinator.last_term().put(out)
}

/// All of the coordinator, behind the version and the kind.
pub(crate) fn put_coordinator<A: Allocator + Clone>(
    alloc: Global,
    coordinator: &Coordinator<A>,
    out: &mut Vec<u8>,
) -> Result<(), AllocError>
    ensures written { OnOk result (out.new.items ≡ out.old.items ++ coded (CoordinatorSave coordinator.now)) }
    ensures sound { OnOk result (IsBook coordinator.now) }
{
    (1u8, 10u8).put(out)?;
    put_known(alloc, coordinator, out)?;
    put_begun(coordinator, out)
}
