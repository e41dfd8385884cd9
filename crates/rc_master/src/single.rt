//! Single messages.

ghost use Rattle.std.specs.Prelude.{◌≡◌, true};
ghost use Rattle.rc_types.specs.declared.messages.Body.TheVariants.{Commit, Enlist, ReadOk, Ready, Recovered};
ghost use Rattle.rc_model.specs.Messages.{between, to_coordinator, to_outside, refuses};
ghost use Rattle.rc_model.specs.Log.{has_segment};
ghost use Rattle.rc_model.specs.FollowUps.{attempt_of};
ghost use Rattle.rc_headroll.specs.LogData.{log_of};
ghost use Rattle.rc_master.specs.Tasks.{AreTasksOf};

use crate::tasks::{Task, attempt_of};
use rc_headroll::{LogHead, Segment};
use rc_ownership::Ownership;
use rc_types::{Addr, Body, Fault, Message, ServerId, Shared};

/// From a server to a server.
pub(crate) fn to_server(own: ServerId, id: ServerId, body: Body) -> Message
    ensures { result ≡ between own id body }
{
    Message {
        from: Addr::Server(own),
        to: Addr::Server(id),
        body,
    }
}

/// From a server to the coordinator.
pub(crate) fn to_coordinator(own: ServerId, body: Body) -> Message
    ensures { result ≡ to_coordinator own body }
{
    Message {
        from: Addr::Server(own),
        to: Addr::Coordinator,
        body,
    }
}

/// From a server to the outside.
pub(crate) fn to_outside(own: ServerId, body: Body) -> Message
    ensures { result ≡ to_outside own body }
{
    Message {
        from: Addr::Server(own),
        to: Addr::Outside,
        body,
    }
}

/// The refusal of a client's demand.
pub(crate) fn refusal(own: ServerId, fault: Fault) -> Message
    ensures { result ≡ refuses own fault }
{
    to_outside(own, Body::Refused { code: fault.code() })
}

/// The answer to a read, with the version and the value that were found.
pub(crate) fn read_ok(
    own: ServerId,
    table: u32,
    key: u64,
    found: (u64, Option<Shared<u8>>),
) -> Message
    ensures { result ≡ to_outside own (ReadOk table key found.0 found.1) }
{
    let (version, value) = found;
    to_outside(
        own,
        Body::ReadOk {
            table,
            key,
            version,
            value,
        },
    )
}

/// The message that the master can take tablets.
pub(crate) fn ready(own: ServerId) -> Message
    ensures { result ≡ to_coordinator own Ready }
{
    to_coordinator(own, Body::Ready)
}

/// The message that the server is there.
pub(crate) fn enlist(own: ServerId) -> Message
    ensures { result ≡ to_coordinator own Enlist }
{
    to_coordinator(own, Body::Enlist)
}

/// The Commit of a segment's present epoch.
pub(crate) fn commit(log: &LogHead, seg: u16) -> Message
    requires { has_segment (log_of log.now) seg ≡ true }
    ensures { result ≡ to_coordinator log.now.own (Commit seg ((log_of log.now).segments seg).config.epoch) }
{
    let epoch = match log.segment(seg) {
        Some(segment) => segment.config().epoch(),
        None => 0,
    };
    to_coordinator(log.own(), Body::Commit { seg, epoch })
}

/// The message that the part of this term is durable, in the attempt in which it was given.
pub(crate) fn recovered(own: ServerId, ownership: &Ownership, tasks: &[Task], term: u32) -> Message
    requires { AreTasksOf ownership.now.own.parts tasks.now }
    ensures { result ≡ to_coordinator own (Recovered (attempt_of term tasks.now) term) }
{
    let attempt = attempt_of(term, ownership, tasks);
    to_coordinator(own, Body::Recovered { attempt, term })
}
