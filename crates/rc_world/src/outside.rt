//! What the outside does: it asks servers to write and to read.

ghost use Rattle.std.specs.Prelude.{◌≡◌, ◌++◌, ◌∷◌, OnOk, OnErr};
ghost use Rattle.rc_model.specs.Nodes.{Ask, outside_can, outside_sends};

use rc_types::limits::MAX_HOSTS;
use rc_types::{Addr, Body, Message, ServerId, TryClone};
use std::alloc::{AllocError, Global};

/// Whether the outside can ask this: a Write or a Read, of a server of a host that there is.
pub(crate) fn can_ask(to: ServerId, body: &Body) -> bool
    ensures { result ≡ outside_can (Ask to body.now) }
{
    matches!(body, Body::Write { .. } | Body::Read { .. }) && to.index < MAX_HOSTS
}

/// The outside asks a server.
pub(crate) fn ask(
    alloc: Global,
    to: ServerId,
    body: &Body,
    sent: &mut Vec<Message>,
) -> Result<(), AllocError>
    ensures sends { OnOk result (sent.new.items ≡ sent.old.items ++ outside_sends (Ask to body.now)) }
    ensures unsent { OnErr result (sent.new.items ≡ sent.old.items) }
{
    let body = body.try_clone(alloc)?;
    sent.push(Message {
        from: Addr::Outside,
        to: Addr::Server(to),
        body,
    })?;
    Ok(())
}
