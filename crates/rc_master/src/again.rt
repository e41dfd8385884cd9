//! What the coordinator and the holders of rows have not answered is said again.

ghost use Rattle.std.specs.Prelude.{◌≡◌, ◌++◌, [], true, slice_get, take, OnOk, OnErr};
ghost use Rattle.std.specs.Option.{option_map_or};
ghost use Rattle.rc_model.specs.Log.{has_segment, places_of, replayed_at};
ghost use Rattle.rc_model.specs.MasterTick.{commits_again, fetches_again, recovered_again, ready_again};
ghost use Rattle.rc_headroll.specs.LogData.{log_of};
ghost use Rattle.rc_ownership.specs.Owner.{replayed_of};
ghost use Rattle.rc_master.specs.Beginnings.{IsBeginning};
ghost use Rattle.rc_master.specs.Reminders.{commit_again, recovered_of};
ghost use Rattle.rc_master.specs.Sender.{sender};
ghost use Rattle.rc_master.specs.Tasks.{AreTasksOf, fetches_of};

use crate::single::{commit, ready, recovered};
use crate::tasks::Task;
use rc_headroll::LogHead;
use rc_ownership::Ownership;
use rc_types::{Message, ServerId};
use std::alloc::{AllocError, Global};

/// Adds the Commit of a segment, where one was sent and not answered.
fn add_commit_again(log: &LogHead, seg: u16, sent: &mut Vec<Message>) -> Result<(), AllocError>
    requires { has_segment (log_of log.now) seg ≡ true }
    ensures ok { OnOk result (sent.new.items ≡ sent.old.items ++ commit_again (log_of log.now) seg) }
    ensures begun { OnErr result (IsBeginning sent.old.items sent.new.items) }
{
    let Some(segment) = log.segment(seg) else {
        return Ok(());
    };
    if segment.awaits_commit() {
        sent.push(commit(log, seg))?;
    }
    Ok(())
}

/// Adds the Commit of each segment of which one was sent and not answered, and which is placed on all
/// its members.
pub(crate) fn add_commits_again(log: &LogHead, sent: &mut Vec<Message>) -> Result<(), AllocError>
    ensures ok { OnOk result (sent.new.items ≡ sent.old.items ++ commits_again (log_of log.now)) }
    ensures begun { OnErr result (IsBeginning sent.old.items sent.new.items) }
{
    let mut done = 0;
    while let Some(seg) = log.next_awake(done) {
        add_commit_again(log, seg, sent)?;
        done = seg;
    }
    Ok(())
}

/// Adds a Fetch of each row of a task that has not come.
fn add_fetches_of(
    own: ServerId,
    ownership: &Ownership,
    task: &Task,
    sent: &mut Vec<Message>,
) -> Result<(), AllocError>
    ensures ok { OnOk result (sent.new.items ≡ sent.old.items ++
        fetches_of own ownership.now.own task.now) }
    ensures begun { OnErr result (IsBeginning sent.old.items sent.new.items) }
{
    let term = task.part().term;
    for row in task.rows() {
        if ownership.awaits_data(term, row.seg, row.holder) {
            sent.push(task.fetch(own, row))?;
        }
    }
    Ok(())
}

/// Adds a Fetch of each row that has not come of the task at a place.
fn add_fetches_at(
    own: ServerId,
    ownership: &Ownership,
    tasks: &[Task],
    place: usize,
    sent: &mut Vec<Message>,
) -> Result<(), AllocError>
    ensures ok { OnOk result (sent.new.items ≡ sent.old.items ++
        option_map_or (fetches_of own ownership.now.own) (slice_get tasks.now place) []) }
    ensures begun { OnErr result (IsBeginning sent.old.items sent.new.items) }
{
    match tasks.get(place) {
        Some(task) => add_fetches_of(own, ownership, task, sent),
        None => Ok(()),
    }
}

/// Adds a Fetch of each row of these tasks that has not come. It looks at those tasks alone whose part may
/// be unfinished.
pub(crate) fn add_fetches_again(
    log: &LogHead,
    ownership: &Ownership,
    tasks: &[Task],
    sent: &mut Vec<Message>,
) -> Result<(), AllocError>
    requires { AreTasksOf ownership.now.own.parts tasks.now }
    ensures ok { OnOk result (sent.new.items ≡ sent.old.items ++
        fetches_again (sender (log_of log.now) ownership.now.own tasks.now) tasks.now) }
    ensures begun { OnErr result (IsBeginning sent.old.items sent.new.items) }
{
    for place in ownership.unfinished() {
        add_fetches_at(log.own(), ownership, tasks, *place, sent)?;
    }
    Ok(())
}

/// Adds a Recovered for each of these terms.
fn add_recovered(
    own: ServerId,
    ownership: &Ownership,
    tasks: &[Task],
    terms: &[u32],
    sent: &mut Vec<Message>,
) -> Result<(), AllocError>
    requires { AreTasksOf ownership.now.own.parts tasks.now }
    ensures ok { OnOk result (sent.new.items ≡ sent.old.items ++ recovered_of own tasks.now terms.now) }
    ensures begun { OnErr result (IsBeginning sent.old.items sent.new.items) }
{
    for term in terms {
        sent.push(recovered(own, ownership, tasks, *term))?;
    }
    Ok(())
}

/// Adds a Recovered for each part that is complete and was not granted yet.
pub(crate) fn add_recovered_again(
    alloc: Global,
    log: &LogHead,
    ownership: &Ownership,
    tasks: &[Task],
    sent: &mut Vec<Message>,
) -> Result<(), AllocError>
    requires durable { replayed_of ownership.now ≡ replayed_at (take (log_of log.now).durable
        (places_of (log_of log.now))) }
    requires tasks { AreTasksOf ownership.now.own.parts tasks.now }
    ensures ok { OnOk result (sent.new.items ≡ sent.old.items ++
        recovered_again (sender (log_of log.now) ownership.now.own tasks.now)) }
    ensures begun { OnErr result (IsBeginning sent.old.items sent.new.items) }
{
    let Ok(terms) = ownership.awaiting_grant(alloc) else {
        return Err(AllocError);
    };
    add_recovered(log.own(), ownership, tasks, terms.as_slice(), sent)
}

/// Adds a Ready where the head takes entries and nothing was granted yet.
pub(crate) fn add_ready_again(
    log: &LogHead,
    ownership: &Ownership,
    sent: &mut Vec<Message>,
) -> Result<(), AllocError>
    ensures ok { OnOk result (sent.new.items ≡ sent.old.items ++
        ready_again (sender (log_of log.now) ownership.now.own [])) }
    ensures begun { OnErr result (IsBeginning sent.old.items sent.new.items) }
{
    if log.is_writing() && !ownership.has_grants() {
        sent.push(ready(log.own()))?;
    }
    Ok(())
}
