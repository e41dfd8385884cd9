//! What is said of a world that was healed is looked at once more, in the run.

ghost use Rattle.std.specs.Prelude.{◌≡◌};
ghost use Rattle.rc_model.specs.Ids.{is_server};
ghost use Rattle.rc_runbook.specs.Healing as spec;

use crate::deeds::{Dropped, Gone, Served};
use rc_types::{Addr, Body, Event, Message, ServerId};

/// Whether each of these is shown by these messages.
pub(crate) fn are_shown(messages: &[Message], served: &[Served]) -> bool
    ensures { result ≡ spec.are_shown messages.now served.now }
{
    served.iter().all(|one| is_shown(messages, one))
}

/// Whether among these messages the owner acknowledges the write, and shows it.
pub(crate) fn is_shown(messages: &[Message], served: &Served) -> bool
    ensures { result ≡ spec.is_shown messages.now served.now }
{
    is_acknowledged(messages, served) && is_read(messages, served)
}

/// Whether one of these messages acknowledges it.
fn is_acknowledged(messages: &[Message], served: &Served) -> bool
    ensures { result ≡ spec.is_acknowledged messages.now served.now }
{
    messages.iter().any(|message| acknowledges(served, message))
}

/// Whether one of these messages shows it.
fn is_read(messages: &[Message], served: &Served) -> bool
    ensures { result ≡ spec.is_read messages.now served.now }
{
    messages.iter().any(|message| shows(served, message))
}

/// Whether the tablet's owner acknowledges a write of its first key with the version.
fn acknowledges(served: &Served, message: &Message) -> bool
    ensures { result ≡ spec.acknowledges served.now message.now }
{
    match &message.body {
        Body::WriteOk {
            table,
            key,
            version,
            ..
        } => {
            is_from(served.tablet.owner, message.from) && is_first(served, *table, *key, *version)
        }
        _ => false,
    }
}

/// Whether a read at the tablet's owner shows that version.
fn shows(served: &Served, message: &Message) -> bool
    ensures { result ≡ spec.shows served.now message.now }
{
    match &message.body {
        Body::ReadOk {
            table,
            key,
            version,
            ..
        } => {
            is_from(served.tablet.owner, message.from) && is_first(served, *table, *key, *version)
        }
        _ => false,
    }
}

/// Whether it is the first key of the tablet, and its version.
fn is_first(served: &Served, table: u32, key: u64, version: u64) -> bool
    ensures { result ≡ spec.is_first served.now table key version }
{
    table == served.tablet.range.table && key == served.tablet.range.lo && version == served.version
}

/// Whether the address is the owner's.
fn is_from(owner: ServerId, from: Addr) -> bool
    ensures { result ≡ is_server owner from }
{
    match from {
        Addr::Server(id) => id == owner,
        Addr::Coordinator | Addr::Outside => false,
    }
}

/// Whether each of the starts that are named is one that does not name the segment.
pub(crate) fn are_all_drops(events: &[Event], gone: &[Gone]) -> bool
    ensures { result ≡ spec.are_all_drops events.now gone.now }
{
    gone.iter().all(|one| are_drops(events, one))
}

/// The same of one that is gone.
fn are_drops(events: &[Event], gone: &Gone) -> bool
    ensures { result ≡ spec.are_drops events.now gone.now }
{
    gone.drops
        .iter()
        .all(|dropped| is_drop(events, gone.master, gone.seg, dropped))
}

/// Whether the event is a start of the member's host that does not name the segment.
fn is_drop(events: &[Event], master: ServerId, seg: u16, dropped: &Dropped) -> bool
    ensures { result ≡ spec.is_drop events.now master seg dropped.now }
{
    match events.get(dropped.start) {
        Some(Event::Start { host, kept }) => *host == dropped.member.index
            && !is_kept(kept.as_slice(), master, seg),
        _ => false,
    }
}

/// Whether the segment is named.
fn is_kept(kept: &[(ServerId, u16)], master: ServerId, seg: u16) -> bool
    ensures { result ≡ spec.is_named kept.now master seg }
{
    kept.iter().any(|name| name.0 == master && name.1 == seg)
}
