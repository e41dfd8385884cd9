//! All that a master says again when its timer goes off.

ghost use Rattle.std.specs.Prelude.{◌≡◌, ◌++◌, take, OnOk, OnErr};
ghost use Rattle.rc_model.specs.Log.{places_of, replayed_at};
ghost use Rattle.rc_model.specs.MasterTick.{reminds};
ghost use Rattle.rc_headroll.specs.LogData.{log_of, before_of};
ghost use Rattle.rc_ownership.specs.Owner.{replayed_of};
ghost use Rattle.rc_master.specs.Beginnings.{IsBeginning};
ghost use Rattle.rc_master.specs.Sender.{sender};
ghost use Rattle.rc_master.specs.Tasks.{AreTasksOf};

use crate::tasks::Task;
use crate::{again, reminding};
use rc_headroll::LogHead;
use rc_ownership::Ownership;
use rc_types::Message;
use std::alloc::{AllocError, Global};

/// Adds all that was not answered, but for what the list rules have just sent.
pub(crate) fn add_reminders(
    alloc: Global,
    log: &LogHead,
    ownership: &Ownership,
    tasks: &[Task],
    sent: &mut Vec<Message>,
) -> Result<(), AllocError>
    requires durable { replayed_of ownership.now ≡ replayed_at (take (log_of log.now).durable
        (places_of (log_of log.now))) }
    requires tasks { AreTasksOf ownership.now.own.parts tasks.now }
    ensures ok { OnOk result (sent.new.items ≡ sent.old.items ++
        (reminds (before_of log.now) (sender (log_of log.now) ownership.now.own tasks.now)).1) }
    ensures begun { OnErr result (IsBeginning sent.old.items sent.new.items) }
{
    reminding::add_open_reminders(alloc, log, sent)?;
    reminding::add_shut_reminders(alloc, log, sent)?;
    again::add_commits_again(log, sent)?;
    again::add_fetches_again(log, ownership, tasks, sent)?;
    again::add_recovered_again(alloc, log, ownership, tasks, sent)?;
    again::add_ready_again(log, ownership, sent)
}
