//! What was sent for each place of each master's log.

ghost use Rattle.std.specs.Prelude.{◌≡◌, OnOk, IfOk};
ghost use Rattle.rc_audit.specs.Places.{is_alike, NotesEntry, NotesSent, Indexes};
ghost use Rattle.rc_audit.specs.Places.{entry_of_run, sent_at};

use rc_types::{Addr, Body, Entry, Message, ServerId};
use std::alloc::{AllocError, Global};
use std::collections::BTreeMap;

/// A place of a master's log.
#[derive(Clone, Copy, PartialEq, Eq, PartialOrd, Ord)]
pub struct PlaceKey {
    /// The master.
    pub master: ServerId,
    /// The segment.
    pub seg: u16,
    /// The offset in the segment, in entries.
    pub offset: usize,
}

/// What was sent for a place, as far as a judge asks.
#[derive(Clone, Copy)]
pub struct Seen<'a> {
    /// The entry that was sent first.
    pub first: &'a Entry,
    /// Whether all of them have the term, table, key and version of the first.
    pub alike: bool,
    /// Whether all of them are the same, their values too.
    pub same: bool,
}

/// For each place for which something was sent, what was.
pub type Made<'a> = BTreeMap<PlaceKey, Seen<'a>>;

/// Whether the entries have the same term, table, key and version.
fn is_alike(one: &Entry, other: &Entry) -> bool
    ensures { result ≡ is_alike one.now other.now }
{
    one.term == other.term
        && one.table == other.table
        && one.key == other.key
        && one.version == other.version
}

/// Notes that this entry was sent for this place.
fn note<'a>(made: &mut Made<'a>, place: PlaceKey, entry: &'a Entry) -> Result<(), AllocError>
    ensures { OnOk result (NotesEntry made.old made.new place entry.now) }
{
    let seen = match made.get(&place).copied() {
        None => Seen {
            first: entry,
            alike: true,
            same: true,
        },
        Some(seen) => Seen {
            first: seen.first,
            alike: seen.alike && is_alike(seen.first, entry),
            same: seen.same && *seen.first == *entry,
        },
    };
    made.insert(place, seen)?;
    Ok(())
}

/// Notes entries that were sent together, of which the first stands at `start`. An offset is a
/// `usize`: what would stand beyond the last one stands nowhere.
fn note_entries<'a>(
    made: &mut Made<'a>,
    master: ServerId,
    seg: u16,
    start: usize,
    entries: &'a [Entry],
) -> Result<(), AllocError>
    ensures { OnOk result
        (NotesSent made.old made.new (entry_of_run master seg start entries.now)) }
{
    for (index, entry) in entries.iter().enumerate() {
        let Some(offset) = start.checked_add(index) else {
            break;
        };
        let place = PlaceKey {
            master,
            seg,
            offset,
        };
        note(made, place, entry)?;
    }
    Ok(())
}

/// Notes what this message sends for its sender's log.
fn note_message<'a>(made: &mut Made<'a>, message: &'a Message) -> Result<(), AllocError>
    ensures { OnOk result (NotesSent made.old made.new (sent_at message.now)) }
{
    let Addr::Server(master) = message.from else {
        return Ok(());
    };
    match &message.body {
        Body::Place { seg, entries, .. } => note_entries(made, master, *seg, 0, entries.as_slice()),
        Body::Append {
            seg,
            offset,
            entries,
        } => note_entries(made, master, *seg, *offset, entries.as_slice()),
        _ => Ok(()),
    }
}

/// What was sent for each place, in these messages.
pub(crate) fn made_in<'a>(alloc: Global, messages: &'a [Message]) -> Result<Made<'a>, AllocError>
    ensures { IfOk result (λ made. Indexes made messages.now) }
{
    let mut made = BTreeMap::new(alloc);
    for message in messages {
        note_message(&mut made, message)?;
    }
    Ok(made)
}
