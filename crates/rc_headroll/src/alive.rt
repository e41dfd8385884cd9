//! Segments of which an entry was found that isn't outdated, so that a roll need not go over them again.

ghost use Rattle.std.specs.Prelude.{◌≡◌, ◌≤◌, length, take, IfSome};
ghost use Rattle.rc_model.specs.Log.{entries_of};
ghost use Rattle.rc_ownership.specs.Groups.{IsAliveAt};
ghost use Rattle.rc_headroll.specs.Alive.{IsFound};
ghost use Rattle.rc_headroll.specs.LogData.{log_of};

use crate::log::LogHead;
use rc_ownership::group_of;
use std::alloc::AllocError;

/// An entry of a segment that wasn't outdated when it was found.
#[derive(Clone, Copy)]
pub struct AliveEntry {
    /// The group of its key under its term.
    pub group: usize,
    /// How many entries of the log were durable.
    pub durable: usize,
    /// How many entries of the segment stand before it.
    pub offset: usize,
}

impl LogHead {
    /// What was found last of the segment, if anything was since the log went back.
    pub fn found(&self, seg: u16) -> Option<&AliveEntry>
        ensures { IfSome result (λ found.
            IsFound (entries_of (log_of self.now)) ((log_of self.now).segments seg).entries found.now) }
    {
        let Some(Some(found)) = self.alive.get(usize::from(seg)) else {
            return None;
        };
        Some(found)
    }

    /// Keeps in mind that the entry of this segment with so many before it isn't outdated by the log's first `durable`
    /// entries, if there is memory for it.
    pub fn keep_found(&mut self, seg: u16, offset: usize, durable: usize)
        requires within { durable ≤ length (entries_of (log_of self.old)) }
        requires alive { IsAliveAt (take durable (entries_of (log_of self.old)))
            ((log_of self.old).segments seg).entries offset }
        ensures { self.new ≡ self.old }
    {
        let Some(segment) = self.segment(seg) else {
            return;
        };
        let Some((entry, _)) = segment.entries().get(offset) else {
            return;
        };
        let group = group_of(entry);
        if self.make_room(seg).is_err() {
            return;
        }
        self.set_found(
            seg,
            AliveEntry {
                group,
                durable,
                offset,
            },
        );
    }

    /// From here on something can be kept of the segment.
    fn make_room(&mut self, seg: u16) -> Result<(), AllocError>
        ensures { self.new ≡ self.old }
    {
        let place = usize::from(seg);
        if self.alive.len() <= place {
            self.alive.resize(place + 1, None)?;
        }
        Ok(())
    }

    /// This was found of the segment, for which there is room.
    fn set_found(&mut self, seg: u16, found: AliveEntry)
        requires { IsFound (entries_of (log_of self.old)) ((log_of self.old).segments seg).entries found }
        ensures { self.new ≡ self.old }
    {
        let place = usize::from(seg);
        if place < self.alive.len() {
            self.alive[place] = Some(found);
        }
    }
}
