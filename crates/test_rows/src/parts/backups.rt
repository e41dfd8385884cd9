//! A backup through messages and restarts.

use crate::lines::{Desk, FIRST, Numbers, Page, closed_or_open};
use crate::parts::entries::write_keys;
use rc_backup::Backup;
use rc_types::{Addr, Body, Entry, Fault, KeyRange, Message, Part, Row, Seq, Shared};
use std::alloc::{AllocError, Global};
use std::mem;

/// The keys 2 to 5 of table 7 and term 1, which are recovered under term 9.
const PART: Part = Part {
    range: KeyRange {
        table: 7,
        lo: 2,
        hi: 5,
    },
    previous: 1,
    term: 9,
};

/// One command for the backup.
pub fn take(backup: &mut Backup, command: &str, desk: &mut Desk) -> Result<(), Fault> {
    let Desk { numbers, page, .. } = desk;
    match command {
        "fenced" => page.yes(" ", backup.is_fenced(numbers.id())),
        "names" => names(backup, page)?,
        "restart" => restart(backup, desk)?,
        "gather" => {
            let master = numbers.id();
            let body = Body::Gather { attempt: 3, master };
            step(backup, Addr::Coordinator, body, page)?;
        }
        "from-coordinator" => {
            let body = place(desk.alloc, numbers, false)?;
            step(backup, Addr::Coordinator, body, page)?;
        }
        "from-outside" => {
            let body = place(desk.alloc, numbers, false)?;
            step(backup, Addr::Outside, body, page)?;
        }
        _ => from_server(backup, command, desk)?,
    }
    Ok(())
}

/// A server tells the backup something, and the answers join those that were sent.
fn from_server(backup: &mut Backup, command: &str, desk: &mut Desk) -> Result<(), Fault> {
    let from = Addr::Server(desk.numbers.id());
    match body_of(command, desk)? {
        Some(body) => {
            let mut sent = Vec::new(desk.alloc);
            backup.step_into(&to_backup(from, body), &mut sent)?;
            write_answers(sent.as_slice(), &mut desk.page);
        }
        None => desk.page.put(" no such command"),
    }
    Ok(())
}

/// What a server tells the backup. A Fetch is of some of the entries of 0.1's segment.
fn body_of(command: &str, desk: &mut Desk) -> Result<Option<Body>, AllocError> {
    let Desk { alloc, numbers, .. } = desk;
    Ok(Some(match command {
        "place" => place(*alloc, numbers, true)?,
        "append" => Body::Append {
            seg: numbers.short(),
            offset: numbers.size(),
            entries: entries(*alloc, numbers)?,
        },
        "close" => Body::Close {
            seg: numbers.short(),
            len: numbers.size(),
        },
        "free" => Body::Free {
            seg: numbers.short(),
        },
        "fetch" => Body::Fetch {
            attempt: 3,
            master: FIRST,
            seg: numbers.short(),
            len: numbers.size(),
            part: PART,
        },
        _ => return Ok(None),
    }))
}

/// A Place of a segment whose digest is the segment alone; of one that may be closed a mark says so.
fn place(alloc: Global, numbers: &mut Numbers, is_marked: bool) -> Result<Body, AllocError> {
    let seg = numbers.short();
    Ok(Body::Place {
        seg,
        epoch: numbers.short(),
        closed: is_marked && numbers.mark(),
        digest: Shared::from_vec(alloc, vec![in alloc; seg]?)?,
        entries: entries(alloc, numbers)?,
    })
}

/// Entries of table 7 under term 1; those of keys from 100 on have term 2 and the key less 100, and those from 200 on
/// stand in table 8 at the key less 200.
fn entries(alloc: Global, numbers: &mut Numbers) -> Result<Seq<Entry>, AllocError> {
    let mut entries = Vec::new(alloc);
    for _ in 0..numbers.left() {
        entries.push(entry(numbers.next()))?;
    }
    Ok(Seq::from_vec(entries))
}

fn entry(number: u64) -> Entry {
    let (term, table, key) = match number {
        200.. => (1, 8, number - 200),
        100.. => (2, 7, number - 100),
        _ => (1, 7, number),
    };
    Entry {
        term,
        table,
        key,
        version: key,
        value: None,
    }
}

/// The names of the open replicas.
fn names(backup: &Backup, page: &mut Page) -> Result<(), Fault> {
    let names = backup.open_names()?;
    if names.is_empty() {
        page.put(" nothing");
    }
    for (master, seg) in names.as_slice() {
        write!(page, " {master} segment {seg}");
    }
    Ok(())
}

/// The backup of the next server, which keeps these open replicas.
fn restart(backup: &mut Backup, desk: &mut Desk) -> Result<(), Fault> {
    let next = desk.numbers.id();
    let kept = desk.numbers.names(desk.alloc)?;
    let old = mem::replace(backup, Backup::new(desk.alloc, next));
    *backup = old.restart(next, kept.as_slice());
    names(backup, &mut desk.page)
}

/// A message for the backup, which takes it whoever it is addressed to.
fn to_backup(from: Addr, body: Body) -> Message {
    Message {
        from,
        to: Addr::Outside,
        body,
    }
}

/// A step whose answers come by themselves.
fn step(backup: &mut Backup, from: Addr, body: Body, page: &mut Page) -> Result<(), Fault> {
    let sent = backup.step(&to_backup(from, body))?;
    write_answers(sent.as_slice(), page);
    Ok(())
}

/// Writes who answers whom what, or that nobody answers.
fn write_answers(answers: &[Message], page: &mut Page) {
    if answers.is_empty() {
        page.put(" nothing");
    }
    for answer in answers {
        write!(page, " {} to {}:", answer.from, answer.to);
        write_body(&answer.body, page);
    }
}

fn write_body(body: &Body, page: &mut Page) {
    match body {
        Body::Stored {
            seg,
            epoch,
            len,
            closed,
        } => {
            let closed = closed_or_open(*closed);
            write!(page, " segment {seg} epoch {epoch} {closed} length {len}");
        }
        Body::Replicas { attempt, rows } => {
            write!(page, " attempt {attempt}");
            for row in rows.as_slice() {
                write_row(row, page);
            }
        }
        Body::Data {
            attempt,
            seg,
            term,
            entries,
        } => {
            write!(page, " attempt {attempt} segment {seg} term {term}");
            write_keys(page, entries.as_slice());
        }
        _ => page.put(" something else"),
    }
}

fn write_row(row: &Row, page: &mut Page) {
    write!(page, " [segment {} epoch {}", row.seg, row.epoch);
    write!(page, " {} length {}", closed_or_open(row.closed), row.len);
    page.list(" digest", row.digest.as_slice());
    page.put("]");
}
