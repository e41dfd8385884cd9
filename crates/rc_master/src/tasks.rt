//! What a master keeps of a part that it is to recover, and the Fetches for it.

ghost use Rattle.std.specs.Prelude.{◌≡◌, ◌++◌, map, slice_get, IfOk, OnOk, OnErr};
ghost use Rattle.std.specs.Option.{option_map_or};
ghost use Rattle.rc_model.specs.FollowUps.{attempt_of};
ghost use Rattle.rc_model.specs.MasterStep.{task_of};
ghost use Rattle.rc_model.specs.MasterTick.{fetch_of};
ghost use Rattle.rc_master.specs.Beginnings.{IsBeginning};
ghost use Rattle.rc_master.specs.Tasks.{AreTasksOf};

use crate::single::to_server;
use rc_ownership::Ownership;
use rc_types::{Body, Message, Part, PlanRow, Seq, ServerId};
use std::alloc::{AllocError, Global};
use std::marker::Model;

/// A part that a master is to recover: in which attempt, of whose log, and in which rows that log is.
#[derive(Drop)]
pub(crate) struct Task {
    attempt: u32,
    master: ServerId,
    rows: Seq<PlanRow>,
    part: Part,
}

impl Model for Task {
    ghost use Rattle.rc_model.specs.Master.{Task as TaskModel};

    ghost Value = { TaskModel };

    ghost view = { λ t. record { attempt = t.attempt; master = t.master; rows = t.rows; part = t.part } };
}

impl Task {
    /// The task of this part, in this attempt of the crashed master, whose log is in these rows.
    pub(crate) fn new(attempt: u32, master: ServerId, rows: Seq<PlanRow>, part: Part) -> Task
        ensures { result ≡ task_of attempt master rows part }
    {
        Task {
            attempt,
            master,
            rows,
            part,
        }
    }

    /// The part.
    pub(crate) fn part(&self) -> Part
        ensures { result ≡ self.now.part }
    {
        self.part
    }

    /// The rows of the crashed master's log.
    pub(crate) fn rows(&self) -> &[PlanRow]
        ensures { result.now ≡ self.now.rows }
    {
        self.rows.as_slice()
    }

    /// Of each row its segment and its holder.
    pub(crate) fn holders(&self, alloc: Global) -> Result<Vec<(u16, ServerId)>, AllocError>
        ensures { IfOk result (λ names. names.items ≡ map (λ row. (row.seg, row.holder)) self.now.rows) }
    {
        self.rows()
            .iter()
            .map(|row| (row.seg, row.holder))
            .collect(alloc)
    }

    /// The Fetch of one of its rows.
    pub(crate) fn fetch(&self, own: ServerId, row: &PlanRow) -> Message
        ensures { result ≡ fetch_of own self.now row.now }
    {
        let body = Body::Fetch {
            attempt: self.attempt,
            master: self.master,
            seg: row.seg,
            len: row.len,
            part: self.part,
        };
        to_server(own, row.holder, body)
    }
}

/// The attempt of the task at a place, 0 where there is none.
fn attempt_at(tasks: &[Task], place: usize) -> u32
    ensures { result ≡ option_map_or (λ task. task.attempt) (slice_get tasks.now place) 0 }
{
    match tasks.get(place) {
        Some(task) => task.attempt,
        None => 0,
    }
}

/// The attempt in which the part of this term was given, 0 where none was: by one look-up of the part.
pub(crate) fn attempt_of(term: u32, ownership: &Ownership, tasks: &[Task]) -> u32
    requires { AreTasksOf ownership.now.own.parts tasks.now }
    ensures { result ≡ attempt_of term tasks.now }
{
    match ownership.place_of(term) {
        Some(place) => attempt_at(tasks, place),
        None => 0,
    }
}

/// Adds a Fetch of each row of a task, to its holder.
pub(crate) fn add_fetches(
    own: ServerId,
    task: &Task,
    sent: &mut Vec<Message>,
) -> Result<(), AllocError>
    ensures ok { OnOk result (sent.new.items ≡ sent.old.items ++ map (fetch_of own task.now) task.now.rows) }
    ensures begun { OnErr result (IsBeginning sent.old.items sent.new.items) }
{
    for row in task.rows() {
        sent.push(task.fetch(own, row))?;
    }
    Ok(())
}
