//! The old head is closed, and segments that no log has any more are dropped.

ghost use Rattle.std.specs.Prelude.{◌≡◌, ◌++◌, ◌<◌, ◌-◌, length, filter, OnOk, OnErr};
ghost use Rattle.rc_types.specs.declared.messages.Body.TheVariants.{Close, Free};
ghost use Rattle.rc_model.specs.Log.{old_head_of};
ghost use Rattle.rc_model.specs.Master.{to_ids, ids_of, not_lost, to_unlost};
ghost use Rattle.rc_model.specs.Segment.{is_unclosed};
ghost use Rattle.rc_model.specs.FollowUps.{frees_segments};
ghost use Rattle.rc_headroll.specs.LogData.{log_of};
ghost use Rattle.rc_master.specs.Beginnings.{IsBeginning};

use crate::single::to_server;
use rc_headroll::{LogHead, Segment};
use rc_types::{Body, Member, Message, ServerId};
use std::alloc::AllocError;

/// Adds a Close of a segment, with its length, to each of its members to which none was sent under
/// their epoch, lost or not.
fn add_closes_of(
    own: ServerId,
    seg: u16,
    segment: &Segment,
    sent: &mut Vec<Message>,
) -> Result<(), AllocError>
    ensures ok { OnOk result (sent.new.items ≡ sent.old.items ++ to_ids own
        (ids_of (filter (is_unclosed segment.now) segment.now.config.members))
        (Close seg (length segment.now.entries))) }
    ensures begun { OnErr result (IsBeginning sent.old.items sent.new.items) }
{
    let len = segment.len();
    for member in segment.config().members() {
        if segment.is_unclosed(member) {
            sent.push(to_server(own, member.id, Body::Close { seg, len }))?;
        }
    }
    Ok(())
}

/// Adds a Close of the old head, with its final length, to each of its members to which none was sent
/// under their epoch, lost or not.
pub(crate) fn add_closes(log: &LogHead, sent: &mut Vec<Message>) -> Result<(), AllocError>
    requires { 1 < (log_of log.now).head }
    ensures ok { OnOk result (sent.new.items ≡ sent.old.items ++ to_ids log.now.own
        (ids_of (filter (is_unclosed (old_head_of (log_of log.now))) (old_head_of (log_of log.now)).config.members))
        (Close ((log_of log.now).head - 1) (length (old_head_of (log_of log.now)).entries))) }
    ensures begun { OnErr result (IsBeginning sent.old.items sent.new.items) }
{
    add_closes_of(log.own(), log.head() - 1, log.previous(), sent)
}

/// Adds a Free of a segment to each of these members that isn't lost.
fn add_frees_to(
    own: ServerId,
    seg: u16,
    members: &[Member],
    sent: &mut Vec<Message>,
) -> Result<(), AllocError>
    ensures ok { OnOk result (sent.new.items ≡ sent.old.items ++
        to_ids own (ids_of (not_lost members.now)) (Free seg)) }
    ensures begun { OnErr result (IsBeginning sent.old.items sent.new.items) }
{
    for member in members {
        if !member.lost {
            sent.push(to_server(own, member.id, Body::Free { seg }))?;
        }
    }
    Ok(())
}

/// Adds a Free of a segment to each of its members that isn't lost. An unknown segment has none.
fn add_frees_of(log: &LogHead, seg: u16, sent: &mut Vec<Message>) -> Result<(), AllocError>
    ensures ok { OnOk result (sent.new.items ≡ sent.old.items ++ to_unlost (log_of log.now) seg (Free seg)) }
    ensures begun { OnErr result (IsBeginning sent.old.items sent.new.items) }
{
    let Some(segment) = log.segment(seg) else {
        return Ok(());
    };
    add_frees_to(log.own(), seg, segment.config().members(), sent)
}

/// Adds a Free of each of these segments to each of its members that isn't lost.
pub(crate) fn add_frees(
    log: &LogHead,
    segs: &[u16],
    sent: &mut Vec<Message>,
) -> Result<(), AllocError>
    ensures ok { OnOk result (sent.new.items ≡ sent.old.items ++ frees_segments (log_of log.now) segs.now) }
    ensures begun { OnErr result (IsBeginning sent.old.items sent.new.items) }
{
    for seg in segs {
        add_frees_of(log, *seg, sent)?;
    }
    Ok(())
}
