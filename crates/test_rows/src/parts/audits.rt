//! Lists of messages, and the first breach that is found in them.

use crate::lines::{Desk, FIRST, Numbers};
use crate::parts::entries::whole_entries;
use rc_audit::audit;
use rc_types::{Addr, Body, Fault, KeyRange, Message, PlanRow, Seq, Shared};
use std::alloc::{AllocError, Global};

/// One command for the list: another message, one less, or what is found in it.
pub fn take(list: &mut Vec<Message>, command: &str, desk: &mut Desk) -> Result<(), Fault> {
    match command {
        "judge" => {
            match audit(desk.alloc, list.as_slice())? {
                Some(breach) => write!(desk.page, " {breach}"),
                None => desk.page.put(" none"),
            }
            return Ok(());
        }
        "without" => {
            let _ = list.pop();
        }
        _ => add(list, command, desk)?,
    }
    write!(desk.page, " {} messages", list.len());
    Ok(())
}

/// Another message, if the command names one.
fn add(list: &mut Vec<Message>, command: &str, desk: &mut Desk) -> Result<(), AllocError> {
    let alloc = desk.alloc;
    let numbers = &mut desk.numbers;
    let server = Addr::Server(numbers.host());
    let body = match command {
        "append" => Body::Append {
            seg: numbers.short(),
            offset: numbers.size(),
            entries: whole_entries(alloc, numbers)?,
        },
        "place" => Body::Place {
            seg: numbers.short(),
            epoch: 0,
            digest: Shared::empty(),
            entries: whole_entries(alloc, numbers)?,
            closed: false,
        },
        "acknowledged" => Body::WriteOk {
            seg: numbers.short(),
            offset: numbers.size(),
            term: numbers.long(),
            table: 7,
            key: numbers.next(),
            version: numbers.next(),
        },
        "plan" => plan(alloc, numbers)?,
        "own" => own(numbers),
        _ => return Ok(()),
    };
    let (from, to) = match &body {
        Body::Plan { .. } | Body::Own { .. } => (Addr::Coordinator, server),
        _ => (server, Addr::Outside),
    };
    list.push(Message { from, to, body })?;
    Ok(())
}

/// A plan of the attempt that is the first number, and rows of two numbers each: a segment, and how much of it is
/// recovered.
fn plan(alloc: Global, numbers: &mut Numbers) -> Result<Body, AllocError> {
    numbers.rewind();
    let attempt = numbers.long();
    let mut rows = Vec::new(alloc);
    for _ in 0..numbers.left() / 2 {
        rows.push(PlanRow {
            seg: numbers.short(),
            holder: FIRST,
            len: numbers.size(),
        })?;
    }
    Ok(Body::Plan {
        attempt,
        master: FIRST,
        head: 1,
        rows: Seq::from_vec(rows),
        parts: Seq::new(alloc),
    })
}

/// The grant of the keys 0 to 9 of table 7 under this term after the other.
fn own(numbers: &mut Numbers) -> Body {
    Body::Own {
        range: KeyRange {
            table: 7,
            lo: 0,
            hi: 9,
        },
        term: numbers.long(),
        previous: numbers.long(),
        attempt: 1,
    }
}
