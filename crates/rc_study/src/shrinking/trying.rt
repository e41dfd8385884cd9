//! What is left of a scenario is played.

ghost use Rattle.rc_world.specs.HostView.{IsWithinLimits};

use crate::shrinking::courses::{Item, Move};
use crate::shrinking::goals::Goal;
use rc_reading::ScenarioEvent;
use rc_runs::Run;
use rc_types::{Body, Event, Fault, Setup, TryClone};
use std::alloc::Global;
use std::slice;

/// A scenario, and the line that its report is to have.
#[derive(Clone, Copy)]
pub(crate) struct Task<'a> {
    pub(crate) alloc: Global,
    pub(crate) setup: &'a Setup,
    pub(crate) events: &'a [ScenarioEvent],
    pub(crate) goal: Goal<'a>,
}

impl Task<'_> {
    /// The event that this item is.
    pub(crate) fn event(&self, item: Item) -> Option<&ScenarioEvent> {
        self.events.get(item.left.place)
    }

    /// Whether this item is a delivery.
    pub(crate) fn is_delivery(&self, item: Item) -> bool {
        let event = self.event(item);
        matches!(event, Some(ScenarioEvent::Core(Event::Deliver(_))))
    }

    /// Whether this item is a write or a delivery.
    fn is_write_or_delivery(&self, item: Item) -> bool {
        match self.event(item) {
            Some(ScenarioEvent::Core(Event::Ask { body, .. })) => matches!(
                body,
                Body::Write { .. }
            ),
            _ => self.is_delivery(item),
        }
    }
}

/// Which of the events that are left are not played, and whether deliveries keep their messages or their numbers.
#[derive(Clone, Copy)]
pub(crate) struct Cut {
    pub(crate) from: usize,
    pub(crate) to: usize,
    /// Whether only the passes over the messages among them are left out.
    pub(crate) settles: bool,
    pub(crate) moves: bool,
}

impl Cut {
    /// Whether the item at this place is left out.
    pub(crate) fn has(&self, task: Task<'_>, at: usize, item: Item) -> bool {
        self.from <= at
            && at < self.to
            && (!self.settles || matches!(task.event(item), Some(ScenarioEvent::Settle { .. })))
    }
}

/// What is left after this cut, if the report still has such a line.
pub(crate) fn without(task: Task<'_>, course: &[Item], cut: Cut) -> Result<Option<Vec<Item>>, Fault>
    requires { IsWithinLimits task.setup.now }
{
    if !is_in_reach(task, course, cut) {
        return Ok(None);
    }
    let mut moved = Move::new(task.alloc);
    if keeps_line(task, course, cut, &mut moved)? {
        return Ok(Some(moved.next));
    }
    Ok(None)
}

/// Whether what is left after this cut may have such a line, as far as its writes tell.
fn is_in_reach(task: Task<'_>, course: &[Item], cut: Cut) -> bool {
    let items = course.iter().enumerate();
    let played = items.filter(|(at, item)| !cut.has(task, *at, **item));
    let counted = played.filter(|(_, item)| task.is_write_or_delivery(**item));
    task.goal.is_in_reach(counted.count())
}

/// Plays what is left after this cut: whether the report still has such a line.
fn keeps_line(task: Task<'_>, course: &[Item], cut: Cut, moved: &mut Move) -> Result<bool, Fault>
    requires { IsWithinLimits task.setup.now }
{
    let setup = task.setup.try_clone(task.alloc)?;
    let mut run = Run::new(task.alloc, setup, task.alloc);
    if play_left(task, course, cut, &mut run, moved)? {
        return Ok(true);
    }
    let last = moved.next.len().saturating_sub(1);
    let stopped = moved.is_stopped.then_some(last);
    task.goal
        .is_reported(task.alloc, run.world().sent(), stopped)
}

/// Plays what is left after this cut, until a message has such a line, or an event is not possible: whether a message
/// has one.
fn play_left(
    task: Task<'_>,
    course: &[Item],
    cut: Cut,
    run: &mut Run<Global>,
    moved: &mut Move,
) -> Result<bool, Fault> {
    let mut seen = 0usize;
    for (at, item) in course.iter().enumerate() {
        let item = *item;
        if !cut.has(task, at, item) && go_on(task, run, moved, item, cut.moves)? {
            let sent = run.world().sent();
            moved.sent(sent.len())?;
            if seen < sent.len() && task.goal.is_told(task.alloc, &sent[seen..])? {
                return Ok(true);
            }
            seen = sent.len();
        } else if moved.is_stopped {
            return Ok(false);
        } else {
            moved.leave_out()?;
        }
    }
    Ok(false)
}

/// Plays this event, if it is not a delivery of a message that is gone: whether it has happened.
fn go_on(
    task: Task<'_>,
    run: &mut Run<Global>,
    moved: &mut Move,
    item: Item,
    moves: bool,
) -> Result<bool, Fault> {
    let Some(event) = task.event(item) else {
        return Ok(false);
    };
    let mut message = item.left.message;
    if moves && task.is_delivery(item) {
        match moved.message(item.origin) {
            Some(number) => message = number,
            None => return Ok(false),
        }
    }
    moved.keep(item.left.place, message)?;
    match played(task.alloc, run, event, message) {
        Err(Fault::OutOfMemory) => Err(Fault::OutOfMemory),
        played => {
            moved.is_stopped = played.is_err();
            Ok(played.is_ok())
        }
    }
}

/// Plays an event. If it is a delivery, it is of this message.
fn played(
    alloc: Global,
    run: &mut Run<Global>,
    event: &ScenarioEvent,
    message: usize,
) -> Result<(), Fault> {
    match event {
        ScenarioEvent::Core(Event::Deliver(_)) => run.take(alloc, &Event::Deliver(message)),
        ScenarioEvent::Core(core) => run.take(alloc, core),
        ScenarioEvent::Settle { .. } => {
            let played = run.play_all(alloc, slice::from_ref(event), &mut ());
            played.map_err(|(_, fault)| fault)
        }
    }
}
