//! Who recovers which part of a crashed master's tablets, and the plans that tell them.

ghost use Rattle.std.specs.Prelude.{◌≡◌, ◌+◌, ◌^◌, ◌<◌, ◌≤◌, length, IfOk};
ghost use Rattle.rc_types.specs.declared.messages.Body.TheVariants.{Plan as Planned};
ghost use Rattle.rc_model.specs.Messages.{from_coordinator};
ghost use Rattle.rc_model.specs.Attempts.{part_of, gives_parts, parts_of, plan_messages};

use crate::notices;
use rc_attempts::{Decision, GivenPart};
use rc_types::{Body, Message, Part, Plan, Seq, ServerId, Tablet, TryClone};
use std::alloc::{AllocError, Global};

/// What a Decide comes to: which attempt, of which master, what is decided, and who is up and ready.
#[derive(Drop)]
pub(crate) struct Choice {
    pub(crate) number: u32,
    pub(crate) master: ServerId,
    pub(crate) decision: Decision,
    pub(crate) ids: Vec<ServerId>,
}

/// The part of a tablet, under a fresh term.
fn part_of(tablet: &Tablet, term: u32) -> Part
    ensures { result ≡ part_of tablet.now term }
{
    Part {
        range: tablet.range,
        previous: tablet.term,
        term,
    }
}

/// Gives the tablets to these ids in turn, the first to the id at the place `first`, counted round,
/// under the term `term`, and each next one under the next term. Only memory can be refused (F1).
pub(crate) fn give_parts(
    alloc: Global,
    ids: &[ServerId],
    first: u32,
    term: u32,
    tablets: &[Tablet],
) -> Result<Vec<GivenPart>, AllocError>
    requires someone { 0 < length ids.now }
    requires terms { term + length tablets.now < 2 ^ 32 }
    ensures ok { IfOk result (λ parts. parts.items ≡ gives_parts ids.now first term tablets.now) }
    ensures few { IfOk result (λ parts. length parts.items ≡ length tablets.now) }
{
    let mut parts = Vec::with_capacity(alloc, tablets.len())?;
    for (count, tablet) in tablets.iter().enumerate() {
        let to = ids[(first as usize + count) % ids.len()];
        let part = part_of(tablet, term + count as u32);
        parts.push(GivenPart { to, part })?;
    }
    Ok(parts)
}

/// The parts of one recovery master. Only memory can be refused (F1).
fn parts_of(alloc: Global, id: ServerId, given: &[GivenPart]) -> Result<Vec<Part>, AllocError>
    ensures { IfOk result (λ parts. parts.items ≡ parts_of id given.now) }
{
    let mut parts = Vec::new(alloc);
    for one in given {
        if id == one.to {
            parts.push(one.part)?;
        }
    }
    Ok(parts)
}

/// The plan to one recovery master, with these parts and all rows. Only memory can be refused (F1).
fn plan_to(
    alloc: Global,
    number: u32,
    master: ServerId,
    plan: &Plan,
    id: ServerId,
    parts: Vec<Part>,
) -> Result<Message, AllocError>
    ensures { IfOk result (λ message. message ≡ from_coordinator id
        (Planned plan.now.head number master plan.now.rows parts.items)) }
{
    let rows = plan.rows.try_clone(alloc)?;
    Ok(notices::to_server(
        id,
        Body::Plan {
            attempt: number,
            master,
            head: plan.head,
            rows,
            parts: Seq::from_vec(parts),
        },
    ))
}

/// The plan to each of these that has a part, with its parts alone and all rows. Only memory can be
/// refused (F1).
pub(crate) fn plan_messages(
    alloc: Global,
    number: u32,
    master: ServerId,
    decision: &Decision,
    ids: &[ServerId],
) -> Result<Vec<Message>, AllocError>
    ensures { IfOk result (λ messages. messages.items ≡ plan_messages number master decision.now ids.now) }
{
    let mut messages = Vec::new(alloc);
    for id in ids {
        let parts = parts_of(alloc, *id, decision.parts())?;
        if !parts.is_empty() {
            messages.push(plan_to(alloc, number, master, decision.plan(), *id, parts)?)?;
        }
    }
    Ok(messages)
}
