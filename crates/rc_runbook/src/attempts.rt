//! Which recoveries can be decided, and which can't go on.

ghost use Rattle.std.specs.Prelude.{◌≡◌, [], IfOk, OnOk};
ghost use Rattle.std.specs.Option.{option_copied};
ghost use Rattle.rc_runbook.specs.Runbook as runbook;
ghost use Rattle.rc_runbook.specs.Runbook.{current_attempt, waits_at, with_owner};

use rc_attempts::numbers::{attempt_of, current_number};
use rc_coordinator::{Attempt, Coordinator, Decision, Ready};
use rc_serverlist::ServerList;
use rc_types::{ServerId, Tablet};
use std::alloc::{AllocError, Allocator, Global};

/// The crashed owners of these tablets, each once, in the order of their first tablets.
pub(crate) fn crashed_owners(alloc: Global, tablets: &[Tablet]) -> Result<Vec<ServerId>, AllocError>
    ensures { IfOk result (λ owners. owners.items ≡ runbook.crashed_owners [] tablets.now) }
{
    let mut owners = Vec::new(alloc);
    for tablet in tablets {
        note_owner(&mut owners, tablet)?;
    }
    Ok(owners)
}

/// Notes the owner of this tablet too, if it has crashed and is none of these.
fn note_owner(owners: &mut Vec<ServerId>, tablet: &Tablet) -> Result<(), AllocError>
    ensures { OnOk result (owners.new.items ≡ with_owner owners.old.items tablet.now) }
{
    if tablet.crashed && !is_among(owners.as_slice(), tablet.owner) {
        owners.push(tablet.owner)?;
    }
    Ok(())
}

/// Whether the id is one of these.
fn is_among(ids: &[ServerId], id: ServerId) -> bool
    ensures { result ≡ runbook.is_among ids.now id }
{
    ids.iter().any(|other| id == *other)
}

/// The current attempt to recover the master.
fn current_attempt<A: Allocator + Clone>(
    coordinator: &Coordinator<A>,
    master: ServerId,
) -> Option<&Attempt>
    ensures { option_copied result ≡ current_attempt coordinator.now master }
{
    let number = current_number(coordinator.current(), master);
    attempt_of(coordinator.attempts(), number)
}

/// Whether the master's attempt can be decided: it is gathering, each of these ids, which are up, has answered, and one
/// of them is ready.
pub(crate) fn is_ripe<A: Allocator + Clone>(
    coordinator: &Coordinator<A>,
    up: &[ServerId],
    master: ServerId,
) -> bool
    ensures { result ≡ runbook.is_ripe coordinator.now up.now master }
{
    match current_attempt(coordinator, master) {
        Some(attempt) => {
            attempt.is_gathering()
                && have_answered(attempt, up)
                && some_ready(coordinator.ready(), up)
        }
        None => false,
    }
}

/// Whether each of these has answered.
fn have_answered(attempt: &Attempt, ids: &[ServerId]) -> bool
    ensures { result ≡ runbook.have_answered attempt.now ids.now }
{
    ids.iter().all(|id| attempt.has_answered(*id))
}

/// Whether one of these has said that it is ready.
fn some_ready(ready: &Ready, ids: &[ServerId]) -> bool
    ensures { result ≡ runbook.some_ready ready.now ids.now }
{
    ids.iter().any(|id| ready.has(*id))
}

/// Whether the master's recovery was decided and can't go on.
pub(crate) fn waits_in_vain<A: Allocator + Clone>(
    coordinator: &Coordinator<A>,
    tablets: &[Tablet],
    master: ServerId,
) -> bool
    ensures { result ≡ runbook.waits_in_vain coordinator.now tablets.now master }
{
    match current_attempt(coordinator, master) {
        Some(attempt) => match attempt.decided() {
            Some(decision) => {
                lacks_holder(coordinator.servers(), decision)
                    || lacks_master(coordinator.servers(), decision, tablets, master)
            }
            None => false,
        },
        None => false,
    }
}

/// Whether a replica of the plan is on a server that is not up.
fn lacks_holder(servers: &ServerList, decision: &Decision) -> bool
    ensures { result ≡ runbook.lacks_holder servers.now decision.now }
{
    decision
        .plan()
        .rows
        .as_slice()
        .iter()
        .any(|row| !servers.is_up(row.holder))
}

/// Whether a part whose tablet the crashed master still has was given to a server that is not up.
fn lacks_master(
    servers: &ServerList,
    decision: &Decision,
    tablets: &[Tablet],
    master: ServerId,
) -> bool
    ensures { result ≡ runbook.lacks_master servers.now decision.now tablets.now master }
{
    decision.parts().iter().any(|given| {
        !servers.is_up(given.to)
            && waits_at(tablets, master, given.part.range.table, given.part.range.lo)
    })
}

/// Whether the crashed master still has the tablet that begins at this point.
fn waits_at(tablets: &[Tablet], master: ServerId, table: u32, lo: u64) -> bool
    ensures { result ≡ waits_at tablets.now master table lo }
{
    tablets.iter().any(|tablet| tablet.range.table == table
        && tablet.range.lo == lo
        && master == tablet.owner)
}
