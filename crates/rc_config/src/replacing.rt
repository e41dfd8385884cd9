//! Who takes the place of lost members.

ghost use Rattle.std.specs.Prelude.{◌≡◌, ◌∷◌, [], Some, None, IfOk, not, nat_eq};
ghost use Rattle.std.specs.List.{list_any};
ghost use Rattle.std.specs.Option.{option_map, option_copied};
ghost use Rattle.rc_model.specs.Config.{staying, first_free, substitutes, replaced};

use crate::members;
use rc_types::{Member, ServerId};
use std::alloc::{AllocError, Global};

/// For each lost member, in member order, the first of the ids whose host has no staying member and
/// none chosen before; `None` where one of them finds no id.
pub(crate) fn substitutes(
    alloc: Global,
    ids: &[ServerId],
    members: &[Member],
) -> Result<Option<Vec<ServerId>>, AllocError>
    ensures { IfOk result (λ found. option_map (λ chosen. chosen.items) found ≡ substitutes ids.now
        (staying members.now) members.now) }
{
    let mut taken = staying(alloc, members)?;
    let mut chosen = Vec::new(alloc);
    for member in members {
        if member.lost {
            let Some(id) = first_free(ids, taken.as_slice()) else {
                return Ok(None);
            };
            taken.insert(0, id)?;
            chosen.push(id)?;
        }
    }
    Ok(Some(chosen))
}

/// The ids of the members that are not lost.
fn staying(alloc: Global, members: &[Member]) -> Result<Vec<ServerId>, AllocError>
    ensures { IfOk result (λ ids. ids.items ≡ staying members.now) }
{
    members
        .iter()
        .filter(|member| !member.lost)
        .map(|member| member.id)
        .collect(alloc)
}

/// The first of the ids on a host of which none is taken.
fn first_free(ids: &[ServerId], taken: &[ServerId]) -> Option<ServerId>
    ensures { result ≡ first_free ids.now taken.now }
{
    ids.iter().copied().find(|id| !is_taken(*id, taken))
}

/// Whether one of those taken is on the id's host.
fn is_taken(id: ServerId, taken: &[ServerId]) -> bool
    ensures { result ≡ list_any (λ other. nat_eq id.index other.index) taken.now }
{
    taken.iter().any(|other| id.index == other.index)
}

/// Gives the place of each lost member to the next of the ids.
pub(crate) fn replace(members: &mut [Member], ids: &[ServerId])
    ensures { members.new ≡ replaced members.old ids.now }
{
    let mut next = 0;
    for member in members.iter_mut() {
        if member.lost && next < ids.len() {
            *member = members::new_member(ids[next]);
            next += 1;
        }
    }
}
