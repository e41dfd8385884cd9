//! What was kept of segments, by their numbers.

ghost use Rattle.std.specs.Prelude.{◌≡◌, ◌∷◌, ◌++◌, ◌<◌, ◌≤◌, [], None, length, nat_lt, is_some, OnOk, IfSome};
ghost use Rattle.std.specs.Prelude.{option_to_list};
ghost use Rattle.std.specs.Option.{option_copied};
ghost use Rattle.rc_headroll.specs.Before.{other_of};

use rc_config::SegmentState;
use std::alloc::{AllocError, Global};
use std::marker::Model;

/// What was kept of segments, of each at most once. Room is taken beforehand, for all segments of a log; to keep one of
/// them takes no memory. Each call but `make_room` costs the same however many there is room for.
#[derive(Drop)]
pub(crate) struct Others {
    /// For each number that there is room for, the place at which it stands among those kept, where it is one of them;
    /// else any.
    places: Vec<usize>,
    /// The numbers and what was kept, in the order in which they were added.
    kept: Vec<(u16, SegmentState)>,
}

impl Model for Others {
    ghost use Rattle.std.specs.Prelude.{length, ◌≤◌, vec_capacity};
    ghost use Rattle.rc_headroll.specs.Before.{OthersKept, ArePlaced};

    ghost Value = { OthersKept };

    ghost view = { λ o. record { kept = o.kept.items; room = length o.places.items } };

    ghost invariant = { λ o. ArePlaced o.places.items o.kept.items
        × (length o.places.items ≤ vec_capacity o.kept) };
}

impl Others {
    /// Nothing was kept, and there is no room. It takes no memory.
    pub(crate) fn new(alloc: Global) -> Others
        ensures kept { result.kept ≡ [] }
        ensures room { result.room ≡ 0 }
    {
        Others {
            places: Vec::new(alloc),
            kept: Vec::new(alloc),
        }
    }

    /// From here on there is room for each number below this one. Where memory is refused, there is as much as before.
    pub(crate) fn make_room(&mut self, room: usize) -> Result<(), AllocError>
        ensures kept { self.new.kept ≡ self.old.kept }
        ensures made { OnOk result (room ≤ self.new.room) }
        ensures grows { self.old.room ≤ self.new.room }
    {
        if room <= self.places.len() {
            return Ok(());
        }
        self.kept.reserve(room.saturating_sub(self.kept.len()))?;
        self.places.resize(room, 0)?;
        Ok(())
    }

    /// What was kept of a segment.
    pub(crate) fn get(&self, seg: u16) -> Option<&SegmentState>
        ensures { option_copied result ≡ other_of self.now.kept seg }
    {
        let Some(place) = self.places.get(usize::from(seg)) else {
            return None;
        };
        let Some((number, state)) = self.kept.get(*place) else {
            return None;
        };
        if *number != seg {
            return None;
        }
        Some(state)
    }

    /// Keeps this of a segment of which nothing was kept. It takes no memory.
    pub(crate) fn add(&mut self, seg: u16, state: SegmentState)
        requires new { other_of self.old.kept seg ≡ None }
        requires room { seg < self.old.room }
        ensures kept { self.new.kept ≡ self.old.kept ++ (seg, state) ∷ [] }
        ensures room { self.new.room ≡ self.old.room }
    {
        self.places[usize::from(seg)] = self.kept.len();
        self.kept.push((seg, state)).unwrap();
    }

    /// Takes out what was kept last.
    pub(crate) fn pop(&mut self) -> Option<(u16, SegmentState)>
        ensures kept { self.old.kept ≡ self.new.kept ++ option_to_list result }
        ensures found { is_some result ≡ nat_lt 0 (length self.old.kept) }
        ensures once { IfSome result (λ last. other_of self.new.kept last.0 ≡ None) }
        ensures room { self.new.room ≡ self.old.room }
    {
        self.kept.pop()
    }

    /// Forgets what was kept. The time depends on how much it was.
    pub(crate) fn clear(&mut self)
        ensures kept { self.new.kept ≡ [] }
        ensures room { self.new.room ≡ self.old.room }
    {
        self.kept.clear();
    }
}
