//! Which works of a node are kept.

ghost use Rattle.std.specs.Prelude.{◌≡◌};
ghost use Rattle.rc_history.specs.Remade.{changes_backup, host_keeps, coordinator_keeps, keeps};

use rc_types::{Body, NodeName, NodeWork};
use rc_world::is_for_backup;

/// Whether a node keeps a work, so that it can be made anew (`laws::nodes_come_back`): the outside nothing, the
/// coordinator all but timers, a host its starts and stops, and what its backup took.
pub fn keeps(name: NodeName, work: &NodeWork) -> bool
    ensures { result ≡ keeps name work.now }
{
    match name {
        NodeName::Outside => false,
        NodeName::Coordinator => coordinator_keeps(work),
        NodeName::Host(_) => host_keeps(work),
    }
}

/// The coordinator keeps all but timers.
fn coordinator_keeps(work: &NodeWork) -> bool
    ensures { result ≡ coordinator_keeps work.now }
{
    match work {
        NodeWork::Tick => false,
        _ => true,
    }
}

/// A host keeps its starts and stops, and what its backup took.
fn host_keeps(work: &NodeWork) -> bool
    ensures { result ≡ host_keeps work.now }
{
    match work {
        NodeWork::Deliver(message) => changes_backup(&message.body),
        NodeWork::Start { .. } | NodeWork::Stop => true,
        _ => false,
    }
}

/// Whether a backup takes such a message, and can be another one after it.
fn changes_backup(body: &Body) -> bool
    ensures { result ≡ changes_backup body.now }
{
    is_for_backup(body) && !matches!(body, Body::Fetch { .. })
}
