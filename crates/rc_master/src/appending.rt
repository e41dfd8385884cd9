//! An entry goes to the head's members, and is acknowledged once it is durable.

ghost use Rattle.std.specs.Prelude.{◌≡◌, ◌++◌, ◌∷◌, [], ◌<◌, map, length, OnOk, OnErr};
ghost use Rattle.rc_types.specs.declared.messages.Body.TheVariants.{Append, WriteOk};
ghost use Rattle.rc_model.specs.Messages.{to_outside};
ghost use Rattle.rc_model.specs.Log.{head_of};
ghost use Rattle.rc_model.specs.Master.{to_ids, ids_of, not_lost, to_unlost};
ghost use Rattle.rc_model.specs.FollowUps.{write_oks, new_durable};
ghost use Rattle.rc_headroll.specs.LogData.{log_of};
ghost use Rattle.rc_headroll.specs.Places.{log_place};
ghost use Rattle.rc_master.specs.Beginnings.{IsBeginning};

use crate::copies;
use crate::single::{to_outside, to_server};
use rc_headroll::{LogHead, Place};
use rc_types::{Body, Entry, Member, Message, ServerId};
use std::alloc::{AllocError, Global};

/// Adds an Append of this entry, which is to stand at `offset`, to each of these members that isn't
/// lost. The entry is copied once for each.
fn add_to_members(
    alloc: Global,
    own: ServerId,
    seg: u16,
    offset: usize,
    entry: &Entry,
    members: &[Member],
    sent: &mut Vec<Message>,
) -> Result<(), AllocError>
    ensures ok { OnOk result (sent.new.items ≡ sent.old.items ++
        to_ids own (ids_of (not_lost members.now)) (Append seg offset (entry.now ∷ []))) }
    ensures begun { OnErr result (IsBeginning sent.old.items sent.new.items) }
{
    for member in members {
        if !member.lost {
            let entries = copies::list_of(alloc, entry)?;
            let body = Body::Append {
                seg,
                offset,
                entries,
            };
            sent.push(to_server(own, member.id, body))?;
        }
    }
    Ok(())
}

/// Adds an Append of an entry that is to be the head's next one to each of the head's members that
/// isn't lost.
pub(crate) fn add_append(
    alloc: Global,
    log: &LogHead,
    entry: &Entry,
    sent: &mut Vec<Message>,
) -> Result<(), AllocError>
    requires { 0 < (log_of log.now).head }
    ensures ok { OnOk result (sent.new.items ≡ sent.old.items ++ to_unlost (log_of log.now) (log_of log.now).head
        (Append (log_of log.now).head (length (head_of (log_of log.now)).entries) (entry.now ∷ []))) }
    ensures begun { OnErr result (IsBeginning sent.old.items sent.new.items) }
{
    let head = log.newest();
    let members = head.config().members();
    add_to_members(
        alloc,
        log.own(),
        log.head(),
        head.len(),
        entry,
        members,
        sent,
    )
}

/// The answer to the write at this place.
fn write_ok(own: ServerId, place: &Place<'_>) -> Message
    ensures { result ≡ to_outside own (WriteOk place.now.seg place.now.offset place.now.entry.now.term
        place.now.entry.now.table place.now.entry.now.key place.now.entry.now.version) }
{
    to_outside(
        own,
        Body::WriteOk {
            seg: place.seg,
            offset: place.offset,
            term: place.entry.term,
            table: place.entry.table,
            key: place.entry.key,
            version: place.entry.version,
        },
    )
}

/// Acknowledges each client's write among the places that have become durable.
pub(crate) fn add_write_oks(
    alloc: Global,
    log: &LogHead,
    sent: &mut Vec<Message>,
) -> Result<(), AllocError>
    ensures ok { OnOk result (sent.new.items ≡ sent.old.items ++ write_oks log.now.own (new_durable (log_of log.now))) }
    ensures begun { OnErr result (IsBeginning sent.old.items sent.new.items) }
{
    let places = log.newly_durable(alloc)?;
    add_oks_of(log.own(), places.as_slice(), sent)
}

/// Acknowledges each client's write among these places.
fn add_oks_of(
    own: ServerId,
    places: &[Place<'_>],
    sent: &mut Vec<Message>,
) -> Result<(), AllocError>
    ensures ok { OnOk result (sent.new.items ≡ sent.old.items ++ write_oks own (map log_place places.now)) }
    ensures begun { OnErr result (IsBeginning sent.old.items sent.new.items) }
{
    for place in places {
        if place.client {
            sent.push(write_ok(own, place))?;
        }
    }
    Ok(())
}
