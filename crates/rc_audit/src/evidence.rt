//! The messages that are judged, with what they made of each place.

ghost use Rattle.std.specs.Prelude.{◌≡◌, IfOk};
ghost use Rattle.std.specs.Option.{option_map};
ghost use Rattle.rc_model.specs.Made.{made};
ghost use Rattle.rc_model.specs.Breach.{is_one_entry, all_agree};
ghost use Rattle.rc_audit.specs.Places.{Indexes, Indexes-prop, summary_in, summary_of};
ghost use Rattle.rc_audit.specs.Writes.{ack_of};

use crate::places::{Made, PlaceKey, Seen, made_in};
use crate::writes::AckedWrite;
use rc_types::{Message, ServerId};
use std::alloc::{AllocError, Global};

/// The messages that are judged, with an index of what was sent for each place.
#[derive(Drop)]
pub struct Evidence<'a> {
    /// The messages.
    pub messages: &'a [Message],
    /// What was sent for each place.
    pub made: Made<'a>,
    ghost indexed: { Indexes made messages.now } by { Indexes-prop made messages.now },
}

impl<'a> Evidence<'a> {
    /// The evidence of these messages.
    pub fn new(alloc: Global, messages: &'a [Message]) -> Result<Evidence<'a>, AllocError>
        ensures { IfOk result (λ evidence. evidence.messages.now ≡ messages.now) }
    {
        let made = made_in(alloc, messages)?;
        Ok(Evidence { messages, made })
    }

    /// What was sent for this place.
    fn seen_at(&self, master: ServerId, seg: u16, offset: usize) -> Option<Seen<'a>>
        ensures { option_map summary_in result ≡
            summary_of (made self.now.messages.now master seg offset) }
    {
        let place = PlaceKey {
            master,
            seg,
            offset,
        };
        self.made.get(&place).copied()
    }

    /// Whether exactly one entry was sent for this place, once or more often.
    pub(crate) fn is_made_one_way(&self, master: ServerId, seg: u16, offset: usize) -> bool
        ensures { result ≡ is_one_entry (made self.now.messages.now master seg offset) }
    {
        match self.seen_at(master, seg, offset) {
            None => false,
            Some(seen) => seen.same,
        }
    }

    /// Whether all that was sent for the place of an acknowledged write is that write.
    pub fn all_agree(&self, master: ServerId, write: &AckedWrite) -> bool
        ensures { result ≡ all_agree (ack_of write.now)
            (made self.now.messages.now master write.now.seg write.now.offset) }
    {
        match self.seen_at(master, write.seg, write.offset) {
            None => true,
            Some(seen) => write.agrees(seen.first) && seen.alike,
        }
    }
}
