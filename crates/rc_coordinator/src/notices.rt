//! The messages that the coordinator sends, but for the plans.

ghost use Rattle.std.specs.Prelude.{◌≡◌, ◌++◌, not, filter, IfOk, OnOk};
ghost use Rattle.rc_types.specs.declared.messages.Body.TheVariants.{List as Listed, Gather, CommitOk, SplitOk};
ghost use Rattle.rc_model.specs.Messages.{from_coordinator, to_each, coordinator_refuses, coordinator_tells};
ghost use Rattle.rc_model.specs.ServerList.{up};
ghost use Rattle.rc_model.specs.Attempts.{has_answered};
ghost use Rattle.rc_model.specs.Coordinator.{spreads_list, refuses_server};
ghost use Rattle.rc_model.specs.Deciding.{own_body};

use rc_attempts::Attempt;
use rc_serverlist::ServerList;
use rc_types::{Addr, Body, Fault, Grant, Message, Pair, ServerId, Shared};
use std::alloc::{AllocError, Global};

/// A message from the coordinator to a server.
pub(crate) fn to_server(id: ServerId, body: Body) -> Message
    ensures { result ≡ from_coordinator id body }
{
    Message {
        from: Addr::Coordinator,
        to: Addr::Server(id),
        body,
    }
}

/// The refusal of an operator's demand.
pub(crate) fn refusal(fault: Fault) -> Message
    ensures { result ≡ coordinator_refuses fault }
{
    Message {
        from: Addr::Coordinator,
        to: Addr::Outside,
        body: Body::Refused { code: fault.code() },
    }
}

/// A refusal to a server.
pub(crate) fn refusal_to(id: ServerId, fault: Fault) -> Message
    ensures { result ≡ refuses_server id fault }
{
    to_server(id, Body::Refused { code: fault.code() })
}

/// The answer to a Commit: its own pair.
pub(crate) fn commit_ok(id: ServerId, pair: Pair) -> Message
    ensures { result ≡ from_coordinator id (CommitOk pair.seg pair.epoch) }
{
    let Pair { seg, epoch } = pair;
    to_server(id, Body::CommitOk { seg, epoch })
}

/// The answer to a Split, to the outside.
pub(crate) fn split_ok(table: u32, at: u64) -> Message
    ensures { result ≡ coordinator_tells (SplitOk table at) }
{
    Message {
        from: Addr::Coordinator,
        to: Addr::Outside,
        body: Body::SplitOk { table, at },
    }
}

/// A grant, to this server.
pub(crate) fn own_to(id: ServerId, grant: Grant) -> Message
    ensures { result ≡ from_coordinator id (own_body grant) }
{
    to_server(
        id,
        Body::Own {
            range: grant.range,
            term: grant.term,
            previous: grant.previous,
            attempt: grant.attempt,
        },
    )
}

/// The list, to one server. Only memory can be refused (F1).
pub(crate) fn list_to(
    alloc: Global,
    servers: &mut ServerList,
    id: ServerId,
) -> Result<Message, AllocError>
    ensures same { servers.new ≡ servers.old }
    ensures ok { IfOk result (λ message. message ≡ from_coordinator id (Listed servers.old.version servers.old.rows)) }
{
    let rows = servers.shared_rows(alloc)?;
    let version = servers.version();
    Ok(to_server(id, Body::List { version, rows }))
}

/// The list, to every server that is up. Only memory can be refused (F1).
pub(crate) fn spread_list(
    alloc: Global,
    servers: &mut ServerList,
) -> Result<Vec<Message>, AllocError>
    ensures same { servers.new ≡ servers.old }
    ensures ok { IfOk result (λ messages. messages.items ≡ spreads_list servers.old) }
{
    let ids = servers.up(alloc)?;
    list_to_each(alloc, servers, &ids)
}

/// The list, to each of these servers, which are those that are up. Only memory can be refused (F1).
pub(crate) fn list_to_each(
    alloc: Global,
    servers: &mut ServerList,
    ids: &[ServerId],
) -> Result<Vec<Message>, AllocError>
    requires { ids.now ≡ up servers.old }
    ensures same { servers.new ≡ servers.old }
    ensures ok { IfOk result (λ messages. messages.items ≡ spreads_list servers.old) }
{
    let rows = servers.shared_rows(alloc)?;
    rows_to_each(alloc, servers.version(), &rows, ids)
}

/// A list of this version and these rows, to each of these. Only memory can be refused (F1).
fn rows_to_each(
    alloc: Global,
    version: u32,
    rows: &Shared<(ServerId, bool)>,
    ids: &[ServerId],
) -> Result<Vec<Message>, AllocError>
    ensures { IfOk result (λ messages. messages.items ≡ to_each ids.now (Listed version rows.now)) }
{
    let mut messages = Vec::with_capacity(alloc, ids.len())?;
    for id in ids {
        let rows = rows.share()?;
        messages.push(to_server(*id, Body::List { version, rows }))?;
    }
    Ok(messages)
}

/// Adds a Gather to every server that is up. Only memory can be refused (F1), and then some may have
/// been added.
pub(crate) fn add_gathers(
    alloc: Global,
    servers: &ServerList,
    attempt: u32,
    master: ServerId,
    messages: &mut Vec<Message>,
) -> Result<(), AllocError>
    ensures { OnOk result (messages.new.items ≡ messages.old.items ++
        to_each (up servers.now) (Gather attempt master)) }
{
    for id in &servers.up(alloc)? {
        messages.push(to_server(*id, Body::Gather { attempt, master }))?;
    }
    Ok(())
}

/// Adds a Gather to each of these that hasn't answered the attempt of this number. Where memory is
/// refused (F1), some may have been added.
pub(crate) fn gather_again(
    number: u32,
    attempt: &Attempt,
    ids: &[ServerId],
    messages: &mut Vec<Message>,
) -> Result<(), AllocError>
    ensures { OnOk result (messages.new.items ≡ messages.old.items ++
        to_each (filter (λ id. not (has_answered id attempt.now.replies)) ids.now) (Gather number attempt.now.master)) }
{
    let master = attempt.master();
    for id in ids {
        if !attempt.has_answered(*id) {
            let attempt = number;
            messages.push(to_server(*id, Body::Gather { attempt, master }))?;
        }
    }
    Ok(())
}
