//! What a member of a segment has not answered is said again.

ghost use Rattle.std.specs.Prelude.{◌≡◌, ◌++◌, Some, IfOk, OnOk, OnErr};
ghost use Rattle.std.specs.Option.{option_to_list};
ghost use Rattle.rc_model.specs.MasterTick.{is_closing_old, lacking, reminds_member};
ghost use Rattle.rc_headroll.specs.LogData.{log_of};
ghost use Rattle.rc_master.specs.Beginnings.{IsBeginning};

use crate::single::to_server;
use crate::{copies, placing};
use rc_headroll::{LogHead, Segment};
use rc_types::{Body, Member, Message, Phase, ServerId, Told};
use std::alloc::{AllocError, Global};

/// Whether the segment is the old head, and is to be closed at its members.
pub(crate) fn is_closing_old(log: &LogHead, seg: u16, segment: &Segment) -> bool
    requires { segment.now ≡ (log_of log.now).segments seg }
    ensures { result ≡ is_closing_old (log_of log.now) seg }
{
    match log.phase() {
        Phase::Closing => {
            u32::from(seg) + 1 == u32::from(log.head()) && segment.config().is_committed()
        }
        Phase::Opening | Phase::Writing => false,
    }
}

/// What a member that has told so much lacks: further entries, else the Close of a segment that is
/// being closed. Of the entries only those that it lacks are copied.
fn rest_for(
    alloc: Global,
    log: &LogHead,
    seg: u16,
    segment: &Segment,
    told: Told,
) -> Result<Option<Body>, AllocError>
    requires { segment.now ≡ (log_of log.now).segments seg }
    ensures { IfOk result (λ body. option_to_list body ≡ lacking (log_of log.now) seg (Some told)) }
{
    let entries = segment.entries();
    let len = entries.len();
    if told.len < len {
        return Ok(Some(Body::Append {
            seg,
            offset: told.len,
            entries: copies::copies_of(alloc, &entries[told.len..])?,
        }));
    }
    if is_closing_old(log, seg, segment) && !told.closed {
        return Ok(Some(Body::Close { seg, len }));
    }
    Ok(None)
}

/// What a member lacks: the segment whole where it has told nothing, else the rest.
fn lacking(
    alloc: Global,
    log: &LogHead,
    seg: u16,
    segment: &Segment,
    told: Option<Told>,
) -> Result<Option<Body>, AllocError>
    requires { segment.now ≡ (log_of log.now).segments seg }
    ensures { IfOk result (λ body. option_to_list body ≡ lacking (log_of log.now) seg told) }
{
    match told {
        None => {
            let place = placing::place_of(alloc, seg, segment, false)?;
            Ok(Some(place))
        }
        Some(told) => rest_for(alloc, log, seg, segment, told),
    }
}

/// Adds what one member lacks.
pub(crate) fn add_to_member(
    alloc: Global,
    log: &LogHead,
    seg: u16,
    segment: &Segment,
    member: &Member,
    sent: &mut Vec<Message>,
) -> Result<(), AllocError>
    requires { segment.now ≡ (log_of log.now).segments seg }
    ensures ok { OnOk result (sent.new.items ≡ sent.old.items ++ reminds_member (log_of log.now) seg member.now) }
    ensures begun { OnErr result (IsBeginning sent.old.items sent.new.items) }
{
    let Some(body) = lacking(alloc, log, seg, segment, member.told)? else {
        return Ok(());
    };
    sent.push(to_server(log.own(), member.id, body))?;
    Ok(())
}
