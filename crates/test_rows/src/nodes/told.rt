//! What a node is told, by the command of a line and its numbers: a message, or an order to the coordinator.

use crate::lines::{Desk, Numbers};
use rc_types::{Addr, Body, Code, Order, Part, PlanRow, Row, Seq, Shared};
use std::alloc::{AllocError, Global};

/// The sender of a message, and what it says.
pub type Told = (Addr, Body);

/// What a command tells a server.
pub fn to_server(command: &str, desk: &mut Desk) -> Result<Option<Told>, AllocError> {
    if let Some(body) = client_asks(command, desk)? {
        return Ok(Some((Addr::Outside, body)));
    }
    if let Some(body) = coordinator_tells(command, desk)? {
        return Ok(Some((Addr::Coordinator, body)));
    }
    let from = Addr::Server(desk.numbers.id());
    Ok(server_tells(command, desk)?.map(|body| (from, body)))
}

/// What a command tells the coordinator.
pub fn to_coordinator(command: &str, desk: &mut Desk) -> Result<Option<Told>, AllocError> {
    let from = Addr::Server(desk.numbers.id());
    Ok(coordinator_hears(command, desk)?.map(|body| (from, body)))
}

/// What the coordinator is told by who runs the cluster.
pub fn order(command: &str, numbers: &mut Numbers) -> Option<Order> {
    Some(match command {
        "suspect" => Order::Suspect(numbers.id()),
        "decide" => Order::Decide(numbers.id()),
        "create" => Order::Create {
            table: numbers.long(),
            owner: numbers.id(),
        },
        "split" => Order::Split {
            table: numbers.long(),
            at: numbers.next(),
        },
        _ => return None,
    })
}

/// What a client asks.
pub fn client_asks(command: &str, desk: &mut Desk) -> Result<Option<Body>, AllocError> {
    let Desk { alloc, numbers, .. } = desk;
    Ok(Some(match command {
        "write" | "write-long" | "delete" => Body::Write {
            table: numbers.long(),
            key: numbers.next(),
            value: value_of(*alloc, command, numbers)?,
        },
        "read" => Body::Read {
            table: numbers.long(),
            key: numbers.next(),
        },
        _ => return Ok(None),
    }))
}

/// The value that a client writes: the byte that is named; as many bytes as are named; or none.
fn value_of(
    alloc: Global,
    command: &str,
    numbers: &mut Numbers,
) -> Result<Option<Shared<u8>>, AllocError> {
    match command {
        "write" => numbers.value(alloc),
        "write-long" => {
            let bytes = vec![in alloc; 0u8; numbers.size()]?;
            Ok(Some(Shared::from_vec(alloc, bytes)?))
        }
        _ => Ok(None),
    }
}

/// What the coordinator tells a server. A list names its version, and each id with a mark; a grant the range, the term,
/// the term before, and the attempt; a plan the attempt, the crashed master, its head, how many rows there are, and
/// these, and then the parts.
fn coordinator_tells(command: &str, desk: &mut Desk) -> Result<Option<Body>, AllocError> {
    let alloc = desk.alloc;
    let numbers = &mut desk.numbers;
    Ok(Some(match command {
        "list" => Body::List {
            version: numbers.long(),
            rows: Shared::from_vec(alloc, numbers.servers(alloc)?)?,
        },
        "own" => Body::Own {
            range: numbers.range(),
            term: numbers.long(),
            previous: numbers.long(),
            attempt: numbers.long(),
        },
        "plan" => Body::Plan {
            attempt: numbers.long(),
            master: numbers.id(),
            head: numbers.short(),
            rows: plan_rows(alloc, numbers)?,
            parts: parts(alloc, numbers)?,
        },
        "commit-ok" => Body::CommitOk {
            seg: numbers.short(),
            epoch: numbers.short(),
        },
        "deposed" => refused(Code::Deposed),
        "stale" => refused(Code::StaleAttempt),
        "gather" => Body::Gather {
            attempt: numbers.long(),
            master: numbers.id(),
        },
        _ => return Ok(None),
    }))
}

fn refused(code: Code) -> Body {
    Body::Refused { code }
}

fn plan_rows(alloc: Global, numbers: &mut Numbers) -> Result<Seq<PlanRow>, AllocError> {
    let mut rows = Vec::new(alloc);
    for _ in 0..numbers.byte() {
        rows.push(PlanRow {
            seg: numbers.short(),
            holder: numbers.id(),
            len: numbers.size(),
        })?;
    }
    Ok(Seq::from_vec(rows))
}

fn parts(alloc: Global, numbers: &mut Numbers) -> Result<Seq<Part>, AllocError> {
    let mut parts = Vec::new(alloc);
    for _ in 0..numbers.left() / 5 {
        parts.push(numbers.part())?;
    }
    Ok(Seq::from_vec(parts))
}

/// What a server tells a server.
fn server_tells(command: &str, desk: &mut Desk) -> Result<Option<Body>, AllocError> {
    let numbers = &mut desk.numbers;
    Ok(Some(match command {
        "stored" => Body::Stored {
            seg: numbers.short(),
            epoch: numbers.short(),
            len: numbers.size(),
            closed: numbers.mark(),
        },
        "close" => Body::Close {
            seg: numbers.short(),
            len: numbers.size(),
        },
        "fetch" => Body::Fetch {
            attempt: numbers.long(),
            master: numbers.id(),
            seg: numbers.short(),
            len: numbers.size(),
            part: numbers.part(),
        },
        "free" => Body::Free {
            seg: numbers.short(),
        },
        "deposed-by" => refused(Code::Deposed),
        _ => return server_tells_entries(command, desk),
    }))
}

/// What a server tells a server that has entries.
fn server_tells_entries(command: &str, desk: &mut Desk) -> Result<Option<Body>, AllocError> {
    let alloc = desk.alloc;
    let numbers = &mut desk.numbers;
    Ok(Some(match command {
        "data" => Body::Data {
            attempt: numbers.long(),
            seg: numbers.short(),
            term: numbers.long(),
            entries: numbers.entries(alloc)?,
        },
        "place" => Body::Place {
            seg: numbers.short(),
            epoch: numbers.short(),
            closed: numbers.mark(),
            digest: digest(alloc, numbers)?,
            entries: numbers.entries(alloc)?,
        },
        "append" => Body::Append {
            seg: numbers.short(),
            offset: numbers.size(),
            entries: numbers.entries(alloc)?,
        },
        _ => return Ok(None),
    }))
}

/// So many segments as the next number says.
fn digest(alloc: Global, numbers: &mut Numbers) -> Result<Shared<u16>, AllocError> {
    let count = numbers.size();
    Shared::from_vec(alloc, numbers.segments(alloc, count)?)
}

/// What the coordinator is told by a server.
fn coordinator_hears(command: &str, desk: &mut Desk) -> Result<Option<Body>, AllocError> {
    let numbers = &mut desk.numbers;
    Ok(Some(match command {
        "enlist" => Body::Enlist,
        "ready" => Body::Ready,
        "commit" => Body::Commit {
            seg: numbers.short(),
            epoch: numbers.short(),
        },
        "replicas" => Body::Replicas {
            attempt: numbers.long(),
            rows: rows(desk.alloc, numbers)?,
        },
        "recovered" => Body::Recovered {
            attempt: numbers.long(),
            term: numbers.long(),
        },
        _ => return Ok(None),
    }))
}

/// The rows of an answer: how many, and of each the segment, the epoch, whether it is closed, its length, and how many
/// segments its digest has, and which.
fn rows(alloc: Global, numbers: &mut Numbers) -> Result<Seq<Row>, AllocError> {
    let mut rows = Vec::new(alloc);
    for _ in 0..numbers.byte() {
        rows.push(Row {
            seg: numbers.short(),
            epoch: numbers.short(),
            closed: numbers.mark(),
            len: numbers.size(),
            digest: digest(alloc, numbers)?,
        })?;
    }
    Ok(Seq::from_vec(rows))
}
