//! Who is to be a member.

ghost use Rattle.std.specs.Prelude.{◌≡◌, ◌⊎◌, length, Some, None, IfOk, IfErr};
ghost use Rattle.rc_types.specs.declared.faults.Fault.TheVariants.{OutOfMemory, NoBackups};
ghost use Rattle.rc_model.specs.Config.{of_other_hosts, candidates, choose};

use rc_serverlist::ServerList;
use rc_types::{Fault, ServerId};
use std::alloc::{AllocError, Global};

/// Whom a segment goes to as it is opened: `factor` of the ids that are up on other hosts than
/// `own`, in their order from the segment's place on.
///
/// # Errors
///
/// F4 exactly where there are fewer; else only memory can be refused (F1).
pub fn choose(
    alloc: Global,
    seg: u16,
    own: ServerId,
    factor: u8,
    servers: &ServerList,
) -> Result<Vec<ServerId>, Fault>
    ensures ok { IfOk result (λ ids. choose seg own factor servers.now ≡ Some ids.items) }
    ensures count { IfOk result (λ ids. length ids.items ≡ factor) }
    ensures err { IfErr result (λ fault.
        (fault ≡ OutOfMemory) ⊎ ((fault ≡ NoBackups) × (choose seg own factor servers.now ≡ None))) }
{
    let mut ids = candidates(alloc, seg, own, servers)?;
    let wanted = usize::from(factor);
    if ids.len() < wanted {
        return Err(Fault::NoBackups);
    }
    ids.truncate(wanted);
    Ok(ids)
}

/// Who may be a member: the ids that are up on other hosts, in order, from the segment's place on.
///
/// # Errors
///
/// Only memory can be refused (F1).
pub(crate) fn candidates(
    alloc: Global,
    seg: u16,
    own: ServerId,
    servers: &ServerList,
) -> Result<Vec<ServerId>, AllocError>
    ensures { IfOk result (λ ids. ids.items ≡ candidates seg own servers.now) }
{
    let up = servers.up(alloc)?;
    let mut ids = of_other_hosts(alloc, own, up.as_slice())?;
    let count = ids.len();
    if count > 0 {
        let place = usize::from(seg).saturating_sub(1) % count;
        ids.rotate_left(place);
    }
    Ok(ids)
}

/// Those of the ids that are of other hosts.
fn of_other_hosts(
    alloc: Global,
    own: ServerId,
    ids: &[ServerId],
) -> Result<Vec<ServerId>, AllocError>
    ensures { IfOk result (λ others. others.items ≡ of_other_hosts own.index ids.now) }
{
    ids.iter()
        .copied()
        .filter(|id| id.index != own.index)
        .collect(alloc)
}
