//! What all members of the log's segments have is durable.

ghost use Rattle.std.specs.Prelude.{◌≡◌, ◌≤◌, ◌++◌, length, OnOk};
ghost use Rattle.rc_model.specs.Log.{durable_now};
ghost use Rattle.rc_model.specs.FollowUps.{write_oks, new_durable};
ghost use Rattle.rc_headroll.specs.LogData.{log_of, before_of};

use crate::appending::add_write_oks;
use rc_headroll::LogHead;
use rc_ownership::Ownership;
use rc_types::Message;
use std::alloc::{AllocError, Global};

/// Places that all members have are durable for good, and each client's write among those that have become so
/// is acknowledged.
pub(crate) fn acknowledge(
    alloc: Global,
    log: &mut LogHead,
    ownership: &mut Ownership,
    sent: &mut Vec<Message>,
) -> Result<(), AllocError>
    requires more { (log_of log.old).durable ≤ durable_now (log_of log.old) }
    requires noted { durable_now (log_of log.old) ≤ length ownership.old.noted }
    ensures log { OnOk result (log_of log.new ≡ record (log_of log.old) { durable = durable_now (log_of log.old) }) }
    ensures notes { OnOk result
        (ownership.new ≡ record ownership.old { durable = durable_now (log_of log.old) }) }
    ensures sends { OnOk result (sent.new.items ≡ sent.old.items ++
        write_oks log.old.own (new_durable (log_of log.old))) }
    ensures log_before { before_of log.new ≡ before_of log.old }
    ensures notes_before { ownership.new.before ≡ ownership.old.before }
{
    add_write_oks(alloc, log, sent)?;
    ownership.set_durable(log.durable_now());
    log.keep_durable();
    Ok(())
}
