//! A server list through its changes.

use crate::lines::{Desk, Page, up_or_crashed};
use rc_serverlist::ServerList;
use rc_types::{Fault, ServerId};

/// One command for the list.
pub fn take(list: &mut ServerList, command: &str, desk: &mut Desk) -> Result<(), Fault> {
    let Desk { numbers, page, .. } = desk;
    match command {
        "enlist" => enlist(list, numbers.id(), page)?,
        "crash" => crash(list, numbers.id(), page),
        "about" => about(list, numbers.id(), page),
        "told" => {
            let version = numbers.long();
            let rows = numbers.servers(desk.alloc)?;
            *list = ServerList::from_rows(desk.alloc, version, rows.as_slice())?;
            write!(page, " version {}", list.version());
        }
        "list" => write_list(list, desk)?,
        "copy" => {
            *list = list.try_clone(desk.alloc)?;
            write_list(list, desk)?;
        }
        "compare" => compare(list, desk),
        _ => page.put(" no such command"),
    }
    Ok(())
}

/// Whether the id is the newest, what comes of enlisting it, and the version.
fn enlist(list: &mut ServerList, id: ServerId, page: &mut Page) -> Result<(), Fault> {
    if list.version() == u32::MAX {
        page.put(" not asked: no version is left");
        return Ok(());
    }
    page.yes(" newest ", list.is_newest(id));
    page.put(",");
    page.done(list.enlist(id))?;
    write!(page, ", version {}", list.version());
    Ok(())
}

fn crash(list: &mut ServerList, id: ServerId, page: &mut Page) {
    if list.version() == u32::MAX {
        return page.put(" not asked: no version is left");
    }
    page.yes(" ", list.crash(id));
    write!(page, ", version {}", list.version());
}

/// Whether the id is known, whether it is up, and whether it has crashed.
fn about(list: &ServerList, id: ServerId, page: &mut Page) {
    page.yes(" known ", list.knows(id));
    page.yes(", up ", list.is_up(id));
    page.yes(", crashed ", list.has_crashed(id));
}

/// The version, all ids with their marks, and then those that are up.
fn write_list(list: &ServerList, desk: &mut Desk) -> Result<(), Fault> {
    let page = &mut desk.page;
    write!(page, " version {}", list.version());
    page.yes(", empty ", list.is_empty());
    write!(page, ", {} ids", list.len());
    let rows = list.rows(desk.alloc)?;
    for (id, up) in rows.as_slice() {
        write!(page, " {id} {}", up_or_crashed(*up));
    }
    page.put("; up");
    page.ids(list.up(desk.alloc)?.as_slice());
    Ok(())
}

/// Whether the list is newer than an empty one, an empty one than it, and it than itself.
fn compare(list: &ServerList, desk: &mut Desk) {
    let empty = ServerList::new(desk.alloc);
    desk.page.yes(" than none ", list.newer_than(&empty));
    desk.page.yes(", none than it ", empty.newer_than(list));
    desk.page.yes(", than itself ", list.newer_than(list));
}
