//! Attempts by their numbers, of which that of number k stands at place k - 1.

ghost use Rattle.std.specs.Prelude.{◌≡◌};
ghost use Rattle.std.specs.Option.{option_copied};
ghost use Rattle.rc_model.specs.Deciding.{part_of_sender};
ghost use Rattle.rc_attempts.specs.Lookups.{number_of, attempt_of, knowing};

use crate::attempts::Attempt;
use indexmap::IndexMap;
use rc_types::{Part, ServerId};

/// The attempt of this number.
pub fn attempt_of(attempts: &[Attempt], number: u32) -> Option<&Attempt>
    ensures { option_copied result ≡ attempt_of attempts.now number }
{
    match number {
        0 => None,
        _ => attempts.get(number as usize - 1),
    }
}

/// The number of a master's current attempt, and 0 where it has none.
pub fn current_number(current: &IndexMap<ServerId, u32>, master: ServerId) -> u32
    ensures { result ≡ number_of current.now.entries master }
{
    match current.get(&master) {
        Some(number) => *number,
        None => 0,
    }
}

/// The part of this term that the id has in the attempt of this number, where that is its master's current one.
pub fn part_of_sender(
    attempts: &[Attempt],
    current: &IndexMap<ServerId, u32>,
    id: ServerId,
    number: u32,
    term: u32,
) -> Option<Part>
    ensures { result ≡ part_of_sender (knowing attempts.now current.now.entries) id number term }
{
    let Some(attempt) = attempt_of(attempts, number) else {
        return None;
    };
    if current_number(current, attempt.master()) != number {
        return None;
    }
    attempt.part_in(id, term)
}
