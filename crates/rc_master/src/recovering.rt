//! Parts of crashed masters' logs that a master is to recover.

ghost use Rattle.std.specs.Prelude.{◌≡◌, ◌++◌, ◌≤◌, length, OnOk};
ghost use Rattle.rc_model.specs.MasterStep.{task_of, begins_task, takes_plan};
ghost use Rattle.rc_master.specs.View.{state_view, before_step, IsNoted};

use crate::state::State;
use crate::tasks::{Task, add_fetches};
use rc_types::{Message, Part, PlanRow, Seq, ServerId, TryClone};
use std::alloc::AllocError;

impl State {
    /// A plan: each of its parts, in their order.
    pub(crate) fn take_plan(
        &mut self,
        attempt: u32,
        crashed: ServerId,
        rows: &Seq<PlanRow>,
        parts: &[Part],
        sent: &mut Vec<Message>,
    ) -> Result<(), AllocError>
        requires noted { IsNoted self.old }
        requires kept { self.old.kept ≤ length self.old.tasks.items }
        ensures state { OnOk result
            (state_view self.new ≡ (takes_plan attempt crashed rows.now parts.now (state_view self.old)).0) }
        ensures sends { OnOk result (sent.new.items ≡ sent.old.items ++
            (takes_plan attempt crashed rows.now parts.now (state_view self.old)).1) }
        ensures noted { OnOk result (IsNoted self.new) }
        ensures before { before_step self.new ≡ before_step self.old }
    {
        for part in parts {
            self.begin_part(attempt, crashed, rows, *part, sent)?;
        }
        Ok(())
    }

    /// A part whose term isn't known is begun, and each of its rows is fetched from its holder.
    fn begin_part(
        &mut self,
        attempt: u32,
        crashed: ServerId,
        rows: &Seq<PlanRow>,
        part: Part,
        sent: &mut Vec<Message>,
    ) -> Result<(), AllocError>
        requires noted { IsNoted self.old }
        requires kept { self.old.kept ≤ length self.old.tasks.items }
        ensures state { OnOk result
            (state_view self.new ≡ (begins_task (task_of attempt crashed rows.now part) (state_view self.old)).0) }
        ensures sends { OnOk result (sent.new.items ≡ sent.old.items ++
            (begins_task (task_of attempt crashed rows.now part) (state_view self.old)).1) }
        ensures noted { OnOk result (IsNoted self.new) }
        ensures kept { OnOk result (self.new.kept ≤ length self.new.tasks.items) }
        ensures before { before_step self.new ≡ before_step self.old }
    {
        if self.ownership.knows_term(part.term) {
            return Ok(());
        }
        let task = Task::new(attempt, crashed, rows.try_clone(self.alloc)?, part);
        add_fetches(self.log.own(), &task, sent)?;
        let holders = task.holders(self.alloc)?;
        self.ownership
            .begin_part(self.alloc, part, holders.as_slice())?;
        self.tasks.push(task)?;
        Ok(())
    }
}
