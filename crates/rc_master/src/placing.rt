//! Places: a segment goes whole to its members.

ghost use Rattle.std.specs.Prelude.{◌≡◌, ◌++◌, ◌<◌, true, false, map, IfOk, OnOk, OnErr};
ghost use Rattle.rc_types.specs.declared.messages.Body.TheVariants.{Place};
ghost use Rattle.rc_model.specs.Messages.{between};
ghost use Rattle.rc_model.specs.Log.{has_segment};
ghost use Rattle.rc_model.specs.Master.{to_ids, ids_of, place_of, places_head};
ghost use Rattle.rc_headroll.specs.LogData.{log_of};
ghost use Rattle.rc_master.specs.Beginnings.{IsBeginning};
ghost use Rattle.rc_master.specs.Placed.{place_in};

use crate::copies;
use crate::single::to_server;
use rc_headroll::{LogHead, Segment};
use rc_types::{Body, Member, Message, ServerId};
use std::alloc::{AllocError, Global};

/// A segment whole, under its epoch. Its entries are copied once.
pub(crate) fn place_of(
    alloc: Global,
    seg: u16,
    segment: &Segment,
    closed: bool,
) -> Result<Body, AllocError>
    ensures { IfOk result (λ body. body ≡ place_in seg segment.now closed) }
{
    let digest = segment.share_digest()?;
    let entries = copies::copies_of(alloc, segment.entries())?;
    Ok(Body::Place {
        seg,
        epoch: segment.config().epoch(),
        digest,
        entries,
        closed,
    })
}

/// Adds a Place of a segment to each of these ids.
fn add_to_ids(
    alloc: Global,
    own: ServerId,
    seg: u16,
    segment: &Segment,
    closed: bool,
    ids: &[ServerId],
    sent: &mut Vec<Message>,
) -> Result<(), AllocError>
    ensures ok { OnOk result (sent.new.items ≡ sent.old.items ++ to_ids own ids.now (place_in seg segment.now closed)) }
    ensures begun { OnErr result (IsBeginning sent.old.items sent.new.items) }
{
    for id in ids {
        let place = place_of(alloc, seg, segment, closed)?;
        sent.push(to_server(own, *id, place))?;
    }
    Ok(())
}

/// Adds a Place of an open segment to each of its members.
fn add_to_members(
    alloc: Global,
    own: ServerId,
    seg: u16,
    segment: &Segment,
    members: &[Member],
    sent: &mut Vec<Message>,
) -> Result<(), AllocError>
    ensures ok { OnOk result (sent.new.items ≡ sent.old.items ++
        to_ids own (ids_of members.now) (place_in seg segment.now false)) }
    ensures begun { OnErr result (IsBeginning sent.old.items sent.new.items) }
{
    for member in members {
        let place = place_of(alloc, seg, segment, false)?;
        sent.push(to_server(own, member.id, place))?;
    }
    Ok(())
}

/// Adds a Place of the head to each of its members.
pub(crate) fn add_head_places(
    alloc: Global,
    log: &LogHead,
    sent: &mut Vec<Message>,
) -> Result<(), AllocError>
    requires { 0 < (log_of log.now).head }
    ensures ok { OnOk result (sent.new.items ≡ sent.old.items ++ places_head (log_of log.now)) }
    ensures begun { OnErr result (IsBeginning sent.old.items sent.new.items) }
{
    let head = log.newest();
    let members = head.config().members();
    add_to_members(alloc, log.own(), log.head(), head, members, sent)
}

/// Adds a Place of a segment to each of these ids, closed where the segment is shut.
pub(crate) fn add_places(
    alloc: Global,
    log: &LogHead,
    seg: u16,
    ids: &[ServerId],
    sent: &mut Vec<Message>,
) -> Result<(), AllocError>
    requires { has_segment (log_of log.now) seg ≡ true }
    ensures ok { OnOk result (sent.new.items ≡ sent.old.items ++
        to_ids log.now.own ids.now (place_of (log_of log.now) seg ((log_of log.now).segments seg).shut)) }
    ensures begun { OnErr result (IsBeginning sent.old.items sent.new.items) }
{
    let Some(segment) = log.segment(seg) else {
        return Ok(());
    };
    let closed = segment.is_shut();
    add_to_ids(alloc, log.own(), seg, segment, closed, ids, sent)
}
