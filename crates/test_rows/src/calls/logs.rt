//! `rc_headroll`.

use crate::calls::values::{OTHER, OWNER, THIRD, entry};
use crate::lines::Page;
use rc_headroll::LogHead;
use rc_serverlist::ServerList;
use rc_types::{Fault, Phase};
use std::alloc::Global;

/// The calls of a log of one replica and one entry a segment: its head is opened and written to, the backup is lost,
/// and the log rolls.
pub fn of_a_log(alloc: Global, page: &mut Page) -> Result<(), Fault> {
    let servers = ServerList::from_rows(alloc, 1, &[(OWNER, true), (OTHER, true)])?;
    let mut log = LogHead::new(alloc, OWNER, 1, 1);
    write_state("new", &log, page);
    if LogHead::head(&log) == 0 {
        page.put("\n    open_first:");
        page.done(LogHead::open_first(&mut log, alloc, &servers))?;
    }
    write_state("then", &log, page);
    page.yes(
        "\n    stored: ",
        LogHead::stored(&mut log, 1, OTHER, 0, 0, false),
    );
    page.yes("\n    advance: ", LogHead::advance(&mut log));
    write_state("then", &log, page);
    page.put("\n    append:");
    if let Some((seg, offset)) = page.value(LogHead::append(&mut log, entry(alloc)?))? {
        write!(page, " segment {seg} at {offset}");
    }
    page.yes(", is_full ", LogHead::is_full(&log));
    page.yes(
        "\n    stored: ",
        LogHead::stored(&mut log, 1, OTHER, 0, 1, false),
    );
    write_state("then", &log, page);
    roll(alloc, &mut log, page)
}

/// The member is lost to a server that came later, and a roll begins.
fn roll(alloc: Global, log: &mut LogHead, page: &mut Page) -> Result<(), Fault> {
    let rows = [(OWNER, true), (OTHER, false), (THIRD, true)];
    let servers = ServerList::from_rows(alloc, 2, &rows)?;
    if log.has(1) {
        if let Some(ids) = page.value(LogHead::lose(log, alloc, 1, &servers))? {
            page.list("\n    lose: to", ids.as_slice());
        }
    }
    write_head(log, page);
    LogHead::committed_at(log, 1, 1);
    page.put("\n    committed_at:");
    write_head(log, page);
    if log.is_writing() {
        page.put("\n    begin_roll:");
        page.done(LogHead::begin_roll(log, alloc, &servers, &[]))?;
    }
    write_state("then", log, page);
    Ok(())
}

/// The phase, the newest segment, and how much is durable for good.
fn write_state(when: &str, log: &LogHead, page: &mut Page) {
    let phase = match LogHead::phase(log) {
        Phase::Opening => "opening",
        Phase::Closing => "closing",
        Phase::Writing => "writing",
    };
    write!(
        page,
        "\n    {when}: phase {phase}, head {}",
        LogHead::head(log)
    );
    write!(page, ", durable {}", LogHead::durable(log));
}

/// The first segment: its epoch, and whether that is committed.
fn write_head(log: &LogHead, page: &mut Page) {
    if let Some(segment) = LogHead::segment(log, 1) {
        let config = segment.config();
        write!(
            page,
            " segment: length {}, epoch {}",
            segment.len(),
            config.epoch()
        );
        page.yes(" committed ", config.is_committed());
    }
}
