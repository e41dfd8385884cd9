//! The end of a recovered part is told.

ghost use Rattle.std.specs.Prelude.{◌≡◌, ◌++◌, is_some, IfOk, OnOk};
ghost use Rattle.rc_model.specs.Ownership.{to_answer, after_answer};
ghost use Rattle.rc_ownership.specs.Owner.{replayed_of};
ghost use Rattle.rc_master.specs.Tasks.{AreTasksOf};
ghost use Rattle.rc_master.specs.Telling.{told_of};

use crate::single::recovered;
use crate::tasks::Task;
use rc_ownership::Ownership;
use rc_types::{Message, ServerId};
use std::alloc::AllocError;

/// The end of the first part that is complete is told, once. The answer says whether there was one.
pub(crate) fn tell_part(
    own: ServerId,
    ownership: &mut Ownership,
    tasks: &[Task],
    sent: &mut Vec<Message>,
) -> Result<bool, AllocError>
    requires { AreTasksOf ownership.old.own.parts tasks.now }
    ensures told { IfOk result (λ told. told ≡ is_some (to_answer (replayed_of ownership.old) ownership.old.own)) }
    ensures owner { OnOk result (ownership.new ≡
        record ownership.old { own = after_answer (replayed_of ownership.old) ownership.old.own }) }
    ensures sends { OnOk result (sent.new.items ≡ sent.old.items ++
        told_of own tasks.now (to_answer (replayed_of ownership.old) ownership.old.own)) }
    ensures before { ownership.new.before ≡ ownership.old.before }
{
    let Some(term) = ownership.complete() else {
        return Ok(false);
    };
    sent.push(recovered(own, ownership, tasks, term))?;
    Ok(true)
}
