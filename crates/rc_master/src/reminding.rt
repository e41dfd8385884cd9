//! The members of segments are reminded.

ghost use Rattle.std.specs.Prelude.{◌≡◌, ◌++◌, ◌&&◌, not, true, OnOk, OnErr};
ghost use Rattle.rc_model.specs.Log.{has_segment, numbers_to};
ghost use Rattle.rc_model.specs.MasterTick.{stood, standing, to_remind, reminds_members, reminds_open};
ghost use Rattle.rc_model.specs.MasterTick.{reminds_shut_members, reminds_shut};
ghost use Rattle.rc_headroll.specs.LogData.{log_of, before_of};
ghost use Rattle.rc_master.specs.Beginnings.{IsBeginning};
ghost use Rattle.rc_master.specs.Reminders.{reminds_if_open, reminds_if_shut};

use crate::single::to_server;
use crate::{lacking, placing};
use rc_headroll::{LogHead, Segment};
use rc_types::{Member, Message};
use std::alloc::{AllocError, Global};

/// Whether the member is to hear of the open segment again: it isn't lost, and the list rules have sent it
/// nothing in this step.
fn is_to_remind(log: &LogHead, seg: u16, member: &Member) -> bool
    ensures { result ≡ (not member.now.lost && stood (before_of log.now) (log_of log.now) seg member.now.id) }
{
    !member.lost && log.stood(seg, member.id)
}

/// Adds what each of an open segment's members lacks.
fn add_to_members(
    alloc: Global,
    log: &LogHead,
    seg: u16,
    segment: &Segment,
    sent: &mut Vec<Message>,
) -> Result<(), AllocError>
    requires { segment.now ≡ (log_of log.now).segments seg }
    ensures ok { OnOk result (sent.new.items ≡ sent.old.items ++
        reminds_members (log_of log.now) seg (to_remind (before_of log.now) (log_of log.now) seg)) }
    ensures begun { OnErr result (IsBeginning sent.old.items sent.new.items) }
{
    for member in segment.config().members() {
        if is_to_remind(log, seg, member) {
            lacking::add_to_member(alloc, log, seg, segment, member, sent)?;
        }
    }
    Ok(())
}

/// Adds what each of a segment's members lacks, if the segment is open.
fn add_if_open(
    alloc: Global,
    log: &LogHead,
    seg: u16,
    sent: &mut Vec<Message>,
) -> Result<(), AllocError>
    requires { has_segment (log_of log.now) seg ≡ true }
    ensures ok { OnOk result (sent.new.items ≡ sent.old.items ++
        reminds_if_open (before_of log.now) (log_of log.now) seg) }
    ensures begun { OnErr result (IsBeginning sent.old.items sent.new.items) }
{
    let Some(segment) = log.segment(seg) else {
        return Ok(());
    };
    if segment.is_shut() {
        return Ok(());
    }
    add_to_members(alloc, log, seg, segment, sent)
}

/// Reminds the members of all open segments of what they have not answered: the segment whole, else
/// what they lack of it, else the Close.
pub(crate) fn add_open_reminders(
    alloc: Global,
    log: &LogHead,
    sent: &mut Vec<Message>,
) -> Result<(), AllocError>
    ensures ok { OnOk result (sent.new.items ≡ sent.old.items ++
        reminds_open (before_of log.now) (log_of log.now) (numbers_to (log_of log.now).head)) }
    ensures begun { OnErr result (IsBeginning sent.old.items sent.new.items) }
{
    let mut done = 0;
    while let Some(seg) = log.next_awake(done) {
        add_if_open(alloc, log, seg, sent)?;
        done = seg;
    }
    Ok(())
}

/// Adds a Place of a shut segment to each of its members that has told nothing, lost or not, save those
/// to which the list rules have sent one in this step.
fn add_to_untold(
    alloc: Global,
    log: &LogHead,
    seg: u16,
    segment: &Segment,
    sent: &mut Vec<Message>,
) -> Result<(), AllocError>
    requires { segment.now ≡ (log_of log.now).segments seg }
    ensures ok { OnOk result (sent.new.items ≡ sent.old.items ++
        reminds_shut_members (log_of log.now) seg (standing (before_of log.now) (log_of log.now) seg)) }
    ensures begun { OnErr result (IsBeginning sent.old.items sent.new.items) }
{
    for member in segment.config().members() {
        if log.stood(seg, member.id) && member.told.is_none() {
            let place = placing::place_of(alloc, seg, segment, true)?;
            sent.push(to_server(log.own(), member.id, place))?;
        }
    }
    Ok(())
}

/// Adds a Place of a segment to each of its members that has told nothing, if the segment is shut and
/// was not freed.
fn add_if_shut(
    alloc: Global,
    log: &LogHead,
    seg: u16,
    sent: &mut Vec<Message>,
) -> Result<(), AllocError>
    requires { has_segment (log_of log.now) seg ≡ true }
    ensures ok { OnOk result (sent.new.items ≡ sent.old.items ++
        reminds_if_shut (before_of log.now) (log_of log.now) seg) }
    ensures begun { OnErr result (IsBeginning sent.old.items sent.new.items) }
{
    let Some(segment) = log.segment(seg) else {
        return Ok(());
    };
    if !segment.is_shut() || segment.is_freed() {
        return Ok(());
    }
    add_to_untold(alloc, log, seg, segment, sent)
}

/// Sends all shut segments that were not freed to those of their members that have told nothing.
pub(crate) fn add_shut_reminders(
    alloc: Global,
    log: &LogHead,
    sent: &mut Vec<Message>,
) -> Result<(), AllocError>
    ensures ok { OnOk result (sent.new.items ≡ sent.old.items ++
        reminds_shut (before_of log.now) (log_of log.now) (numbers_to (log_of log.now).head)) }
    ensures begun { OnErr result (IsBeginning sent.old.items sent.new.items) }
{
    let mut done = 0;
    while let Some(seg) = log.next_awake(done) {
        add_if_shut(alloc, log, seg, sent)?;
        done = seg;
    }
    Ok(())
}
