//! What is due.

ghost use Rattle.std.specs.Prelude.{◌≡◌, ◌++◌, filter, map, IfOk};
ghost use Rattle.rc_model.specs.ServerList.{is_up, has_crashed, up};
ghost use Rattle.rc_runbook.specs.Runbook as spec;
ghost use Rattle.rc_runbook.specs.Runbook.{is_stuck_owner, dues};

use crate::attempts::{crashed_owners, is_ripe, waits_in_vain};
use crate::seen::Seen;
use rc_coordinator::Coordinator;
use rc_serverlist::ServerList;
use rc_types::{ServerId, Tablet};
use std::alloc::{AllocError, Allocator, Global};

/// What is due.
#[derive(Clone, Copy, Debug, PartialEq, Eq)]
pub enum Due {
    /// Tell the coordinator that this server is believed dead.
    Suspect(ServerId),
    /// Tell the coordinator to decide the recovery of this server.
    Decide(ServerId),
    /// Stop the process of this server, if it still runs, and start its host anew with all its open replicas kept.
    Restart(ServerId),
}

/// What is due now, by what the coordinator knows and what was seen of the servers. In this order:
///
/// 1. Restart each server that is heard though its id has crashed. It may never learn of it by itself, and takes no
///    part in anything until it has a new id.
/// 2. Restart each owner that is up and stuck.
/// 3. Suspect each server that is silent though its id is up.
/// 4. Suspect again each crashed owner whose recovery was decided and can't go on: a replica of the plan is on a server
///    that is no longer up, or a part was given to one that is no longer up. It is not suspected again before: that
///    would begin the recovery anew each time.
/// 5. Decide the recovery of each crashed owner whose attempt is gathering, where each server that is up has answered
///    and one of them is ready.
///
/// A Decide that was refused by F8 or F9 is due again at each call, and is refused again until a host that had not been
/// asked is back. Who asks at each Replicas and at each Ready misses nothing.
///
/// # Errors
///
/// `OutOfMemory` (F1): memory was refused.
pub fn dues<A: Allocator + Clone>(
    alloc: Global,
    coordinator: &Coordinator<A>,
    seen: &Seen<'_>,
) -> Result<Vec<Due>, AllocError>
    ensures { IfOk result (λ list. list.items ≡
        dues coordinator.now seen.now.heard.now seen.now.silent.now seen.now.stuck.now) }
{
    let tablets = coordinator.tablets(alloc)?;
    let servers = coordinator.servers();
    let owners = crashed_owners(alloc, tablets.as_slice())?;
    let mut list = zombies(alloc, servers, seen.heard)?;
    list.append(&mut stuck_owners(alloc, servers, tablets.as_slice(), seen.stuck)?)?;
    list.append(&mut silent_ids(alloc, servers, seen.silent)?)?;
    list.append(&mut again(alloc, coordinator, tablets.as_slice(), owners.as_slice())?)?;
    list.append(&mut decisions(alloc, coordinator, owners.as_slice())?)?;
    Ok(list)
}

/// Those of these crashed owners whose recovery was decided and can't go on.
fn again<A: Allocator + Clone>(
    alloc: Global,
    coordinator: &Coordinator<A>,
    tablets: &[Tablet],
    owners: &[ServerId],
) -> Result<Vec<Due>, AllocError>
    ensures { IfOk result (λ list. list.items ≡
        map Due.Suspect (filter (spec.waits_in_vain coordinator.now tablets.now) owners.now)) }
{
    owners
        .iter()
        .copied()
        .filter(|owner| waits_in_vain(coordinator, tablets, *owner))
        .map(|owner| Due::Suspect(owner))
        .collect(alloc)
}

/// Those of these crashed owners whose recovery can be decided.
fn decisions<A: Allocator + Clone>(
    alloc: Global,
    coordinator: &Coordinator<A>,
    owners: &[ServerId],
) -> Result<Vec<Due>, AllocError>
    ensures { IfOk result (λ list. list.items ≡
        map Due.Decide (filter (spec.is_ripe coordinator.now (up coordinator.now.servers)) owners.now)) }
{
    let up = coordinator.servers().up(alloc)?;
    ripe(alloc, coordinator, up.as_slice(), owners)
}

/// Those of these crashed owners whose recovery can be decided, where these are the servers that are up.
fn ripe<A: Allocator + Clone>(
    alloc: Global,
    coordinator: &Coordinator<A>,
    up: &[ServerId],
    owners: &[ServerId],
) -> Result<Vec<Due>, AllocError>
    ensures { IfOk result (λ list. list.items ≡
        map Due.Decide (filter (spec.is_ripe coordinator.now up.now) owners.now)) }
{
    let list = owners
        .iter()
        .copied()
        .filter(|owner| is_ripe(coordinator, up, *owner))
        .map(|owner| Due::Decide(owner))
        .collect(alloc)?;
    Ok(list)
}

/// Those that are heard though they have crashed.
fn zombies(alloc: Global, servers: &ServerList, heard: &[ServerId]) -> Result<Vec<Due>, AllocError>
    ensures { IfOk result (λ list. list.items ≡ map Due.Restart (filter (has_crashed servers.now) heard.now)) }
{
    heard
        .iter()
        .copied()
        .filter(|id| servers.has_crashed(*id))
        .map(|id| Due::Restart(id))
        .collect(alloc)
}

/// Those that are stuck, are up and own a tablet.
fn stuck_owners(
    alloc: Global,
    servers: &ServerList,
    tablets: &[Tablet],
    stuck: &[ServerId],
) -> Result<Vec<Due>, AllocError>
    ensures { IfOk result (λ list. list.items ≡
        map Due.Restart (filter (is_stuck_owner servers.now tablets.now) stuck.now)) }
{
    stuck
        .iter()
        .copied()
        .filter(|id| servers.is_up(*id) && owns(tablets, *id))
        .map(|id| Due::Restart(id))
        .collect(alloc)
}

/// Whether the id owns a tablet.
fn owns(tablets: &[Tablet], id: ServerId) -> bool
    ensures { result ≡ spec.owns tablets.now id }
{
    tablets.iter().any(|tablet| id == tablet.owner)
}

/// Those that are silent though they are up.
fn silent_ids(
    alloc: Global,
    servers: &ServerList,
    silent: &[ServerId],
) -> Result<Vec<Due>, AllocError>
    ensures { IfOk result (λ list. list.items ≡ map Due.Suspect (filter (is_up servers.now) silent.now)) }
{
    silent
        .iter()
        .copied()
        .filter(|id| servers.is_up(*id))
        .map(|id| Due::Suspect(id))
        .collect(alloc)
}
