//! Going back: the parts that changed since `begin` was called are undone, the newest change first.

ghost use Rattle.std.specs.Prelude.{◌≡◌, [], vec_capacity};
ghost use Rattle.rc_ownership.specs.Parts.{undone};

use crate::part::{Before, FetchedPart};
use indexmap::IndexMap;

/// Each part is again what it was before each of these changes, the newest one first.
pub(crate) fn undo(begun: &mut IndexMap<u32, FetchedPart>, touched: &mut Vec<(u32, Before)>)
    ensures entries { begun.new.entries ≡ undone touched.old.items begun.old.entries }
    ensures none { touched.new.items ≡ [] }
    ensures room { vec_capacity touched.new ≡ vec_capacity touched.old }
{
    while let Some((term, before)) = touched.pop() {
        if let Some(part) = begun.get_mut(&term) {
            part.go_back(before);
        }
    }
}
