//! The log of 0.1: its first head, rolls, losses of members, and the way back.

use crate::lines::{Desk, FIRST, Numbers, Page, first_of};
use crate::parts::entries::bare;
use crate::parts::members;
use rc_headroll::LogHead;
use rc_serverlist::ServerList;
use rc_types::limits::{MAX_FACTOR, MAX_SEGMENT};
use rc_types::{Fault, Phase, ServerId};
use std::alloc::Global;

/// A log, and the list of servers that its members are chosen from.
#[derive(Drop)]
pub struct Head {
    log: LogHead,
    servers: ServerList,
}

/// An empty log with so many replicas of each segment, and so many entries in it.
pub fn new(alloc: Global, numbers: &mut Numbers) -> Head {
    let factor = numbers.byte().clamp(1, MAX_FACTOR);
    let size = numbers.short().clamp(1, MAX_SEGMENT);
    Head {
        log: LogHead::new(alloc, FIRST, factor, size),
        servers: ServerList::new(alloc),
    }
}

/// One command for the log.
pub fn take(head: &mut Head, command: &str, desk: &mut Desk) -> Result<(), Fault> {
    let Head { log, servers } = head;
    let Desk { numbers, page, .. } = desk;
    match command {
        "hosts" => {
            *servers = members::hosts(desk.alloc, numbers)?;
            page.put(" ok");
        }
        "list" => {
            let rows = numbers.servers(desk.alloc)?;
            *servers = ServerList::from_rows(desk.alloc, 1, rows.as_slice())?;
            page.put(" ok");
        }
        "open-first" => open_first(log, servers, desk)?,
        "roll" => roll(log, servers, desk)?,
        "lose" => lose(log, servers, desk)?,
        "fill" => fill(log, servers, desk)?,
        "write" => write(log, numbers.next(), page)?,
        "stored" => stored(log, numbers.short(), numbers.host(), desk),
        "told" => stored(log, numbers.short(), numbers.id(), desk),
        "commit" => {
            let seg = numbers.short();
            log.committed_at(seg, numbers.short());
            segment(log, seg, page);
        }
        "segment" => segment(log, numbers.short(), page),
        "stood" => page.yes(" ", log.stood(numbers.short(), numbers.id())),
        _ => go_on(log, command, desk)?,
    }
    Ok(())
}

/// A command that has no numbers. It writes how the log is afterwards.
fn go_on(log: &mut LogHead, command: &str, desk: &mut Desk) -> Result<(), Fault> {
    let page = &mut desk.page;
    match command {
        "state" => {}
        "begin" => log.begin(),
        "restore" => log.restore(),
        "shut" => log.mark_shut(),
        "advance" => advance(desk.alloc, log, page)?,
        "send-closes" => send_closes(log, page),
        "keep-durable" => keep_durable(log),
        _ => page.put(" no such command"),
    }
    write_state(log, page);
    Ok(())
}

/// The phase, the newest segment with its length, and how many durable places were gone over.
fn write_state(log: &LogHead, page: &mut Page) {
    let head = log.head();
    let length = log.segment(head).map_or(0, |segment| segment.len());
    page.put(match log.phase() {
        Phase::Opening => " opening",
        Phase::Closing => " closing",
        Phase::Writing => " writing",
    });
    write!(page, ", head {head} length {length}");
    write!(page, ", durable {}", log.passed_on());
}

fn stored(log: &mut LogHead, seg: u16, from: ServerId, desk: &mut Desk) {
    let Desk { numbers, page, .. } = desk;
    let epoch = numbers.short();
    let len = numbers.size();
    page.yes(" noted ", log.stored(seg, from, epoch, len, numbers.mark()));
}

/// The first head is opened.
fn open_first(log: &mut LogHead, servers: &ServerList, desk: &mut Desk) -> Result<(), Fault> {
    if log.head() == 0 {
        return desk.page.done(log.open_first(desk.alloc, servers));
    }
    desk.page.put(" not asked: there is a head");
    Ok(())
}

/// A roll begins, without these dead segments.
fn roll(log: &mut LogHead, servers: &ServerList, desk: &mut Desk) -> Result<(), Fault> {
    let Desk { numbers, page, .. } = desk;
    if log.is_writing() {
        let dead = numbers.segments(desk.alloc, numbers.left())?;
        return page.done(log.begin_roll(desk.alloc, servers, dead.as_slice()));
    }
    page.put(" not asked: the log is not writing");
    Ok(())
}

/// A client's write is appended. It writes the place.
fn write(log: &mut LogHead, key: u64, page: &mut Page) -> Result<(), Fault> {
    if let Some((seg, offset)) = page.value(log.append_write(bare(key)))? {
        write!(page, " segment {seg} at {offset}");
    }
    Ok(())
}

/// The members of a segment that have crashed are lost. It writes who is to be sent a Place.
fn lose(log: &mut LogHead, servers: &ServerList, desk: &mut Desk) -> Result<(), Fault> {
    let seg = desk.numbers.short();
    let page = &mut desk.page;
    if !log.has(seg) {
        page.put(" not asked: there is no such segment");
        return Ok(());
    }
    if let Some(ids) = page.value(log.lose(desk.alloc, seg, servers))? {
        page.put(" to");
        page.ids(ids.as_slice());
    }
    page.put(",");
    segment(log, seg, page);
    Ok(())
}

/// A segment: whether it is shut, and its members.
fn segment(log: &LogHead, seg: u16, page: &mut Page) {
    match log.segment(seg) {
        Some(segment) => {
            page.yes(" shut ", segment.is_shut());
            page.put(",");
            members::write_members(segment.config(), page);
        }
        None => page.put(" none"),
    }
}

/// The phase goes on, if it may. Where a new head comes to write after an old one, it writes which segments are freed.
fn advance(alloc: Global, log: &mut LogHead, page: &mut Page) -> Result<(), Fault> {
    let freed = log.left_out(alloc)?;
    let is_closing = matches!(log.phase(), Phase::Closing);
    if !log.advance() {
        page.put(" no,");
    } else if is_closing {
        page.list(" frees", freed.as_slice());
        page.put(",");
    }
    Ok(())
}

/// Close is sent to the members of the old head, and is then due no more.
fn send_closes(log: &mut LogHead, page: &mut Page) {
    if !log.close_is_due() {
        return page.put(" not asked,");
    }
    log.mark_close_sent();
    page.yes(" due still ", log.close_is_due());
    page.put(",");
}

/// What is durable at this moment is durable for good.
fn keep_durable(log: &mut LogHead) {
    if log.passed_on() <= log.durable_now() {
        log.keep_durable();
    }
}

/// Rolls the log of one entry a segment, on host 1 alone, on to this segment: of the full ones each but the last is
/// dead. Where memory is refused, the same command goes on from where it was.
fn fill(log: &mut LogHead, servers: &ServerList, desk: &mut Desk) -> Result<(), Fault> {
    let last = desk.numbers.short();
    let mut silent = Page::new(desk.alloc)?;
    for _ in log.head()..last {
        let old = log.head();
        write(log, 1, &mut silent)?;
        if log.is_writing() {
            let dead = [old.saturating_sub(1)];
            silent.done(log.begin_roll(desk.alloc, servers, &dead))?;
        }
        go_over(desk.alloc, log, &mut silent)?;
        silent.clear();
    }
    let head = log.segment(log.head());
    let digest = head.map_or(0, |head| head.digest().len());
    write!(desk.page, " digest of {digest},");
    write_state(log, &mut desk.page);
    Ok(())
}

/// The next head is placed, the old one is closed and shut, and the next one writes.
fn go_over(alloc: Global, log: &mut LogHead, page: &mut Page) -> Result<(), Fault> {
    let next = log.head();
    log.stored(next, first_of(1), 0, 0, false);
    advance(alloc, log, page)?;
    log.stored(next.saturating_sub(1), first_of(1), 0, 1, true);
    advance(alloc, log, page)?;
    keep_durable(log);
    Ok(())
}
