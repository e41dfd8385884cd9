//! The search.

ghost use Rattle.rc_world.specs.HostView.{IsWithinLimits};

use crate::shrinking::courses::{Item, NOWHERE};
use crate::shrinking::goals::Goal;
use crate::shrinking::saving::{Left, saved_scenario};
use crate::shrinking::trying::{Cut, Task, without};
use rc_reading::{Scenario, ScenarioEvent};
use rc_types::{Event, Fault};
use std::alloc::{AllocError, Global};

/// Pieces of this size and below are many, so they are passed over where larger ones could not go either.
const SMALL: usize = 4;

/// After how many sizes in turn of which no piece could go.
const MOST_VAIN: usize = 2;

/// A scenario with as few of this one's events that its report still has a line that begins with the text, and none of
/// them can be left out; `None`, where the report of the scenario itself has no such line.
///
/// # Errors
///
/// `OutOfMemory` (F1): memory was refused.
pub fn shrink(alloc: Global, scenario: &Scenario, keep: &str) -> Result<Option<String>, Fault>
    requires { IsWithinLimits scenario.now.setup }
{
    let task = Task {
        alloc,
        setup: &scenario.setup,
        events: scenario.events.as_slice(),
        goal: Goal::of(keep),
    };
    let whole = whole(alloc, task.events)?;
    let nothing = Cut {
        from: 0,
        to: 0,
        settles: false,
        moves: false,
    };
    let Some(first) = without(task, whole.as_slice(), nothing)? else {
        return Ok(None);
    };
    let last = searched(task, first)?;
    let left: Vec<Left> = last.iter().map(|item| item.left).collect(alloc)?;
    let text = saved_scenario(alloc, task.setup, task.events, left.as_slice())?;
    Ok(Some(text))
}

/// All of these events, of each the message that it delivers; 0 where it is no delivery.
fn whole(alloc: Global, events: &[ScenarioEvent]) -> Result<Vec<Item>, AllocError> {
    let mut items = Vec::new(alloc);
    for (place, event) in events.iter().enumerate() {
        let message = match event {
            ScenarioEvent::Core(Event::Deliver(number)) => *number,
            _ => 0,
        };
        let (left, origin) = (Left { place, message }, NOWHERE);
        items.push(Item { left, origin })?;
    }
    Ok(items)
}

/// Leaves out as much as it can: first of the passes over the messages alone, since each delivers what an earlier one
/// would have; then of all events.
fn searched(task: Task<'_>, first: Vec<Item>) -> Result<Vec<Item>, Fault>
    requires { IsWithinLimits task.setup.now }
{
    let course = in_pieces(task, first, true)?;
    let mut course = in_pieces(task, course, false)?;
    for _ in 0..=course.len() {
        let before = course.len();
        course = thinned(task, course, 1, false)?;
        if course.len() == before {
            break;
        }
    }
    Ok(course)
}

/// Leaves out halves of what is left, then quarters and so on, or of them only the passes over the messages; but no
/// small pieces, and no such passes, where of two larger sizes in turn none could go.
fn in_pieces(task: Task<'_>, first: Vec<Item>, settles: bool) -> Result<Vec<Item>, Fault>
    requires { IsWithinLimits task.setup.now }
{
    let mut course = first;
    let mut size = course.len();
    let mut vain = 0usize;
    let (least, large) = if settles { (1, usize::MAX) } else { (2, SMALL) };
    for _ in 0..usize::BITS {
        size /= 2;
        if size > large || (size >= least && vain < MOST_VAIN) {
            let before = course.len();
            course = thinned(task, course, size, settles)?;
            let is_vain = course.len() == before;
            vain = if is_vain { vain.saturating_add(1) } else { 0 };
        }
    }
    Ok(course)
}

/// Leaves out as many pieces of this size as it can, from the last one to the first; of each only its passes over the
/// messages, where `settles` says so.
fn thinned(task: Task<'_>, first: Vec<Item>, size: usize, settles: bool) -> Result<Vec<Item>, Fault>
    requires { IsWithinLimits task.setup.now }
{
    let mut course = first;
    let count = course.len();
    for back in 1..=count {
        let from = count.saturating_sub(back);
        if size == 0 || from % size != 0 {
            continue;
        }
        let cut = Cut {
            from,
            to: from.saturating_add(size),
            settles,
            moves: true,
        };
        if let Some(next) = shorter(task, course.as_slice(), cut)? {
            course = next;
        }
    }
    Ok(course)
}

/// What is left after this cut, or, of a single event before a delivery, after one after which deliveries keep their
/// numbers, if the report still has such a line.
fn shorter(task: Task<'_>, course: &[Item], cut: Cut) -> Result<Option<Vec<Item>>, Fault>
    requires { IsWithinLimits task.setup.now }
{
    let mut items = course.iter().enumerate();
    if !items.any(|(at, item)| cut.has(task, at, *item)) {
        return Ok(None);
    }
    let next = without(task, course, cut)?;
    let is_single = cut.to == cut.from.saturating_add(1);
    let mut rest = course.iter().skip(cut.to);
    if next.is_none() && is_single && rest.any(|item| task.is_delivery(*item)) {
        let mut stays = cut;
        stays.moves = false;
        return without(task, course, stays);
    }
    Ok(next)
}
