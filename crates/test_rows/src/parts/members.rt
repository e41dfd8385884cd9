//! The members of a segment of 0.1 through losses and changes.

use crate::lines::{Desk, FIRST, Numbers, Page, closed_or_open, first_of};
use rc_config::{Config, MAX_MEMBERS, MemberIds, choose};
use rc_serverlist::ServerList;
use rc_types::limits::LAST_EPOCH;
use rc_types::{Fault, ServerId, Told};
use std::alloc::{AllocError, Global};

/// Members, and the list of servers that they are chosen from.
#[derive(Drop)]
pub struct Members {
    config: Config,
    servers: ServerList,
}

/// The members of a segment on these hosts, and nobody in the list.
pub fn new(alloc: Global, numbers: &mut Numbers) -> Result<Members, AllocError> {
    let seg = numbers.short();
    let ids = numbers.hosts(alloc)?;
    Ok(Members {
        config: config_of(seg, ids.as_slice()),
        servers: ServerList::new(alloc),
    })
}

/// The members of a segment; none, where there are too many.
fn config_of(seg: u16, ids: &[ServerId]) -> Config {
    if ids.len() <= MAX_MEMBERS {
        Config::new(seg, ids)
    } else {
        Config::new(seg, &[])
    }
}

/// One command for the members.
pub fn take(members: &mut Members, command: &str, desk: &mut Desk) -> Result<(), Fault> {
    let Members { config, servers } = members;
    let Desk { numbers, page, .. } = desk;
    match command {
        "hosts" => {
            *servers = hosts(desk.alloc, numbers)?;
            page.put(" ok");
        }
        "choose" => choosing(servers, desk)?,
        "lose" => lose(config, servers, desk)?,
        "refill" => refill(config, servers, desk)?,
        "stored" => stored(config, desk),
        "commit" => {
            config.committed_at(numbers.short());
            write_durable(config, page);
        }
        "write" => write_members(&config.copy(), page),
        "has" => has(config, numbers.host(), page),
        "change" => change_until(config, desk)?,
        _ => page.put(" no such command"),
    }
    Ok(())
}

/// The list of these hosts in their first generations, each with a mark: 1 for one that has crashed.
pub fn hosts(alloc: Global, numbers: &mut Numbers) -> Result<ServerList, AllocError> {
    let mut rows = Vec::new(alloc);
    for _ in 0..numbers.left() / 2 {
        rows.push((numbers.host(), !numbers.mark()))?;
    }
    ServerList::from_rows(alloc, 1, rows.as_slice())
}

fn choosing(servers: &ServerList, desk: &mut Desk) -> Result<(), Fault> {
    let Desk { numbers, page, .. } = desk;
    let seg = numbers.short();
    let ids = choose(desk.alloc, seg, FIRST, numbers.byte(), servers);
    if let Some(ids) = page.value(ids)? {
        page.ids(ids.as_slice());
    }
    Ok(())
}

/// Whether what a member tells is noted, and what is durable then.
fn stored(config: &mut Config, desk: &mut Desk) {
    let Desk { numbers, page, .. } = desk;
    let from = numbers.host();
    let epoch = numbers.short();
    let len = numbers.size();
    page.yes(" noted ", config.stored(from, epoch, len, numbers.mark()));
    page.put(",");
    write_durable(config, page);
}

/// How much is durable, and whether all members have told something, and that they are closed.
fn write_durable(config: &Config, page: &mut Page) {
    write!(page, " durable {}", config.durable_len());
    page.yes(", placed ", config.all_placed());
    page.yes(", closed ", config.all_closed());
}

fn lose(config: &mut Config, servers: &ServerList, desk: &mut Desk) -> Result<(), Fault> {
    let page = &mut desk.page;
    if let Some(changed) = page.value(config.lose(desk.alloc, FIRST, servers))? {
        page.yes(" change ", changed);
    }
    page.put(",");
    write_members(config, page);
    Ok(())
}

fn refill(config: &mut Config, servers: &ServerList, desk: &mut Desk) -> Result<(), Fault> {
    let page = &mut desk.page;
    page.put(" new");
    if let Some(ids) = page.value(config.refill(desk.alloc, FIRST, servers))? {
        page.ids(ids.as_slice());
    }
    page.put(",");
    write_members(config, page);
    Ok(())
}

/// Whether the server is a member, and whether it is among none.
fn has(config: &Config, id: ServerId, page: &mut Page) {
    page.yes(" ", config.ids().copy().has(id));
    page.yes(", among none ", MemberIds::none().has(id));
}

/// The epoch, and each member with what it has told.
pub fn write_members(config: &Config, page: &mut Page) {
    write!(page, " epoch {}", config.epoch());
    page.yes(" committed ", config.is_committed());
    page.put(":");
    for member in config.members() {
        write!(page, " [{}", member.id);
        page.put(if member.lost { " lost" } else { "" });
        if let Some(Told { len, closed }) = member.told {
            write!(page, " {len} {}", closed_or_open(closed));
        }
        page.put("]");
    }
}

/// Changes from epoch to epoch, up to this one: the only member, on host 1 or 2, is lost to the other, who tells of 7
/// entries, and the epoch is committed.
fn change_until(config: &mut Config, desk: &mut Desk) -> Result<(), Fault> {
    let last = desk.numbers.short();
    let odd = turn(desk.alloc, 1)?;
    let even = turn(desk.alloc, 2)?;
    for epoch in config.epoch()..last.min(LAST_EPOCH) {
        let (servers, next) = if epoch % 2 == 0 {
            (&odd, 2)
        } else {
            (&even, 1)
        };
        change(desk.alloc, config, servers, next)?;
    }
    write_members(config, &mut desk.page);
    Ok(())
}

/// The list of hosts 1 and 2, of which this one has crashed.
fn turn(alloc: Global, crashed: u8) -> Result<ServerList, AllocError> {
    let rows = [(first_of(1), crashed != 1), (first_of(2), crashed != 2)];
    ServerList::from_rows(alloc, 1, &rows)
}

/// A loss begins a change, the next member tells, and the epoch is committed.
fn change(alloc: Global, config: &mut Config, servers: &ServerList, next: u8) -> Result<(), Fault> {
    if config.lose(alloc, FIRST, servers)? {
        let epoch = config.epoch();
        config.stored(first_of(next), epoch, 7, false);
        config.committed_at(epoch);
    }
    Ok(())
}
