//! The choice of the log that a recovery takes.

use crate::lines::{Desk, Numbers};
use rc_digestpick::pick;
use rc_types::{Fault, Pair, PlanRow, Row, Seq, ServerId, Shared};
use std::alloc::{AllocError, Global};
use std::mem;

/// What backups have told: whole answers, and the rows of the next one.
#[derive(Drop)]
pub struct Replies {
    told: Vec<(ServerId, Seq<Row>)>,
    rows: Vec<Row>,
}

/// Nobody has told anything.
pub fn new(alloc: Global) -> Replies {
    Replies {
        told: Vec::new(alloc),
        rows: Vec::new(alloc),
    }
}

/// One command: a row, whose rows those above are, or a choice.
pub fn take(replies: &mut Replies, command: &str, desk: &mut Desk) -> Result<(), Fault> {
    let Desk { numbers, page, .. } = desk;
    match command {
        "row" => {
            replies.rows.push(row(desk.alloc, numbers)?)?;
            page.put(" ok");
        }
        "holder" => {
            replies.told.reserve(1)?;
            let rows = mem::replace(&mut replies.rows, Vec::new(desk.alloc));
            replies.told.push((numbers.id(), Seq::from_vec(rows)))?;
            page.put(" ok");
        }
        "least" => choose(replies.told.as_slice(), desk)?,
        _ => page.put(" no such command"),
    }
    Ok(())
}

fn row(alloc: Global, numbers: &mut Numbers) -> Result<Row, AllocError> {
    Ok(Row {
        seg: numbers.short(),
        epoch: numbers.short(),
        closed: numbers.mark(),
        len: numbers.size(),
        digest: Shared::from_vec(alloc, numbers.segments(alloc, numbers.left())?)?,
    })
}

/// The pair of the next two numbers.
pub fn pair(numbers: &mut Numbers) -> Pair {
    Pair {
        seg: numbers.short(),
        epoch: numbers.short(),
    }
}

/// The plan from these answers, or why there is none.
fn choose(told: &[(ServerId, Seq<Row>)], desk: &mut Desk) -> Result<(), Fault> {
    let Desk { numbers, page, .. } = desk;
    match pick(desk.alloc, pair(numbers), told) {
        Ok(plan) => {
            write!(page, " head {}", plan.head);
            for PlanRow { seg, holder, len } in plan.rows.as_slice() {
                write!(page, ", {len} entries of segment {seg} at {holder}");
            }
        }
        Err(Fault::OutOfMemory) => return Err(Fault::OutOfMemory),
        Err(fault) => write!(page, " {fault}"),
    }
    Ok(())
}
