//! The places of the parts that may be unfinished, and of those whose end may be untold: what the timer and a step look
//! at in the place of all parts that were ever begun.

ghost use Rattle.std.specs.Prelude.{◌≡◌, filter, find, IfOk};
ghost use Rattle.std.specs.List.{filter_map};
ghost use Rattle.rc_ownership.specs.Notes.{replayed_in};
ghost use Rattle.rc_ownership.specs.Parts.{parts_in};
ghost use Rattle.rc_ownership.specs.Unfinished.{HoldUnfinished, HoldUntold, is_finished, is_unfinished, is_untold};
ghost use Rattle.rc_ownership.specs.Unfinished.{is_due, is_awaiting, awaiting_at};

use crate::grants::Grants;
use crate::notes::Notes;
use crate::part::FetchedPart;
use indexmap::IndexMap;
use std::alloc::{AllocError, Global};

/// Whether the part waits for no row, its end was told, and its term is granted.
fn is_finished(part: &FetchedPart, grants: &Grants) -> bool
    ensures { result ≡ is_finished grants.now part.now }
{
    part.awaits_none() && part.is_answered() && grants.owns_term(part.term())
}

/// Whether the part at a place isn't finished.
fn is_unfinished(begun: &IndexMap<u32, FetchedPart>, grants: &Grants, place: usize) -> bool
    ensures { result ≡ is_unfinished grants.now begun.now.entries place }
{
    match begun.get_index(place) {
        Some((_, part)) => !is_finished(part, grants),
        None => false,
    }
}

/// Keeps the places of the parts that aren't finished.
fn keep_unfinished(begun: &IndexMap<u32, FetchedPart>, grants: &Grants, places: &mut Vec<usize>)
    ensures { places.new.items ≡ filter (is_unfinished grants.now begun.now.entries) places.old.items }
{
    places.retain(|place| is_unfinished(begun, grants, *place));
}

/// Whether so many of some places are enough to go over them all: more than half of them. So two places are looked at
/// for each that may be let go.
fn are_many(count: usize, places: usize) -> bool {
    places / 2 < count
}

/// Lets go the places of parts that are finished, where as many may be as makes it worth while.
pub(crate) fn let_go_finished(
    begun: &IndexMap<u32, FetchedPart>,
    grants: &Grants,
    places: &mut Vec<usize>,
    count: &mut usize,
)
    ensures { HoldUnfinished grants.now places.old.items (parts_in begun.now.entries) →
        HoldUnfinished grants.now places.new.items (parts_in begun.now.entries) }
{
    if !are_many(*count, places.len()) {
        return;
    }
    keep_unfinished(begun, grants, places);
    *count = 0;
}

/// Whether the end of the part at a place wasn't told.
fn is_untold(begun: &IndexMap<u32, FetchedPart>, place: usize) -> bool
    ensures { result ≡ is_untold begun.now.entries place }
{
    match begun.get_index(place) {
        Some((_, part)) => !part.is_answered(),
        None => false,
    }
}

/// Keeps the places of the parts whose end wasn't told.
fn keep_untold(begun: &IndexMap<u32, FetchedPart>, places: &mut Vec<usize>)
    ensures { places.new.items ≡ filter (is_untold begun.now.entries) places.old.items }
{
    places.retain(|place| is_untold(begun, *place));
}

/// Lets go the places of parts whose end was told, where as many may be as makes it worth while.
pub(crate) fn let_go_told(
    begun: &IndexMap<u32, FetchedPart>,
    places: &mut Vec<usize>,
    count: &mut usize,
)
    ensures { HoldUntold places.old.items (parts_in begun.now.entries) →
        HoldUntold places.new.items (parts_in begun.now.entries) }
{
    if !are_many(*count, places.len()) {
        return;
    }
    keep_untold(begun, places);
    *count = 0;
}

/// Whether the part at a place is complete and its end wasn't told.
fn is_due(begun: &IndexMap<u32, FetchedPart>, notes: &Notes, place: usize) -> bool
    ensures { result ≡ is_due (replayed_in notes.now) begun.now.entries place }
{
    match begun.get_index(place) {
        Some((_, part)) => part.is_to_answer(notes),
        None => false,
    }
}

/// The first of these places whose part is complete and whose end wasn't told.
pub(crate) fn first_due(
    begun: &IndexMap<u32, FetchedPart>,
    notes: &Notes,
    places: &[usize],
) -> Option<usize>
    ensures { result ≡ find (is_due (replayed_in notes.now) begun.now.entries) places.now }
{
    places
        .iter()
        .copied()
        .find(|place| is_due(begun, notes, *place))
}

/// Whether the part is complete and its term isn't granted yet.
fn is_awaiting(part: &FetchedPart, notes: &Notes, grants: &Grants) -> bool
    ensures { result ≡ is_awaiting (replayed_in notes.now) grants.now part.now }
{
    part.is_complete(notes) && !grants.owns_term(part.term())
}

/// The term of the part at a place, where the part is complete and its term isn't granted yet.
fn awaiting_at(
    begun: &IndexMap<u32, FetchedPart>,
    notes: &Notes,
    grants: &Grants,
    place: usize,
) -> Option<u32>
    ensures { result ≡ awaiting_at (replayed_in notes.now) grants.now begun.now.entries place }
{
    match begun.get_index(place) {
        Some((_, part)) if is_awaiting(part, notes, grants) => Some(part.term()),
        _ => None,
    }
}

/// The terms of those parts at these places that are complete and not granted yet.
pub(crate) fn awaiting_terms(
    alloc: Global,
    begun: &IndexMap<u32, FetchedPart>,
    notes: &Notes,
    grants: &Grants,
    places: &[usize],
) -> Result<Vec<u32>, AllocError>
    ensures { IfOk result (λ terms. terms.items ≡ filter_map
        (awaiting_at (replayed_in notes.now) grants.now begun.now.entries) places.now) }
{
    places
        .iter()
        .filter_map(|place| awaiting_at(begun, notes, grants, *place))
        .collect(alloc)
}
