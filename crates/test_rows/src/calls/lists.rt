//! `rc_serverlist` and `rc_config`.

use crate::calls::values::{OTHER, OWNER, THIRD};
use crate::lines::{Page, up_or_crashed};
use rc_config::{Config, choose};
use rc_serverlist::ServerList;
use rc_types::{Fault, ServerId};
use std::alloc::Global;

/// The first server of host 3.
const FOURTH: ServerId = ServerId {
    index: 3,
    generation: 1,
};

/// The second server of host 2.
const AGAIN: ServerId = ServerId {
    index: 2,
    generation: 2,
};

/// The calls of a list of servers: three are enlisted, and one of them crashes.
pub fn of_servers(alloc: Global, page: &mut Page) -> Result<(), Fault> {
    let mut list = ServerList::new(alloc);
    write!(page, "\n    new: {} servers", list.len());
    for id in [OWNER, OTHER, THIRD] {
        if ServerList::version(&list) < u32::MAX {
            write!(page, "\n    enlist {id}:");
            page.done(ServerList::enlist(&mut list, id))?;
        }
    }
    let before = ServerList::try_clone(&list, alloc)?;
    write!(page, "\n    try_clone: {} servers", before.len());
    if ServerList::version(&list) < u32::MAX {
        page.yes("\n    crash 2.1: ", ServerList::crash(&mut list, THIRD));
    }
    write!(page, "\n    version: {}", ServerList::version(&list));
    page.yes(
        "\n    newer_than the copy: ",
        ServerList::newer_than(&list, &before),
    );
    page.yes(
        "\n    newer_than, of the copy: ",
        ServerList::newer_than(&before, &list),
    );
    page.yes("\n    is_up 1.1: ", ServerList::is_up(&list, OTHER));
    page.yes("\n    is_up 2.1: ", ServerList::is_up(&list, THIRD));
    page.list("\n    up:", ServerList::up(&list, alloc)?.as_slice());
    told(alloc, &list, page)
}

/// A list as it is told, and the list that is made of it.
fn told(alloc: Global, list: &ServerList, page: &mut Page) -> Result<(), Fault> {
    let rows = ServerList::rows(list, alloc)?;
    page.put("\n    rows:");
    for (id, up) in rows.iter() {
        write!(page, " {id} {}", up_or_crashed(*up));
    }
    let made = ServerList::from_rows(alloc, 9, rows.as_slice())?;
    write!(page, "\n    from_rows: {} servers", made.len());
    Ok(())
}

/// The servers of four hosts, of which the first is up, and the others as is said.
fn servers(alloc: Global, others: &[(ServerId, bool)]) -> Result<ServerList, Fault> {
    let mut rows = vec![in alloc; (OWNER, true)]?;
    rows.extend_from_slice(others)?;
    Ok(ServerList::from_rows(alloc, 1, rows.as_slice())?)
}

/// The calls of the members of a segment: the first is chosen and told, then one is lost, and one replaced.
pub fn of_members(alloc: Global, page: &mut Page) -> Result<(), Fault> {
    let all = servers(alloc, &[(OTHER, true), (THIRD, true), (FOURTH, true)])?;
    let Some(ids) = page.value(choose(alloc, 1, OWNER, 2, &all))? else {
        return Ok(());
    };
    page.list("\n    choose:", ids.as_slice());
    if ids.len() > rc_config::MAX_MEMBERS {
        return Ok(());
    }
    let mut config = Config::new(1, ids.as_slice());
    write_members(&config, "new", page);
    told_by(&mut config, page);
    change(alloc, &mut config, page)
}

/// What the members tell.
fn told_by(config: &mut Config, page: &mut Page) {
    for (id, len, closed) in [(OTHER, 1, false), (FOURTH, 3, false), (THIRD, 2, true)] {
        page.yes("\n    stored: ", Config::stored(config, id, 0, len, closed));
        page.yes(", all_placed ", Config::all_placed(config));
        page.yes(", all_closed ", Config::all_closed(config));
        write!(page, ", durable_len {}", Config::durable_len(config));
    }
}

/// A member is lost, so that an epoch begins and is committed; and one of a shut segment is replaced.
fn change(alloc: Global, config: &mut Config, page: &mut Page) -> Result<(), Fault> {
    let fewer = servers(alloc, &[(OTHER, true), (THIRD, false), (FOURTH, true)])?;
    if let Some(began) = page.value(Config::lose(config, alloc, OWNER, &fewer))? {
        page.yes("\n    lose: ", began);
    }
    write_members(config, "then", page);
    Config::committed_at(config, 1);
    page.yes("\n    committed_at 1: ", Config::is_committed(config));
    let other = servers(alloc, &[(OTHER, true), (AGAIN, true), (FOURTH, false)])?;
    if let Some(ids) = page.value(Config::refill(config, alloc, OWNER, &other))? {
        page.list("\n    refill:", ids.as_slice());
    }
    write_members(config, "then", page);
    Ok(())
}

/// The members, the epoch, and whether it is committed.
fn write_members(config: &Config, when: &str, page: &mut Page) {
    write!(page, "\n    {when}: members");
    for member in Config::members(config) {
        write!(page, " {}", member.id);
    }
    write!(page, ", epoch {}", Config::epoch(config));
    page.yes(", is_committed ", Config::is_committed(config));
}
