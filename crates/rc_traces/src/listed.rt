//! The messages of a list, an item at a time.

ghost use Rattle.std.specs.Prelude.{◌≡◌, IfOk};
ghost use Rattle.rc_traces.specs.Listed.{one_more, takes_listed};

use crate::codes::Codes;
use json::Reader;
use rc_reading::ReadFault;
use rc_reading::lists::{Items, Said};
use rc_types::Message;
use std::alloc::{AllocError, Global};

/// What a list says, an item at a time.
#[derive(Drop)]
pub(crate) enum Listed {
    /// These messages.
    Coded(Codes),
    /// The place of the first item that says no message.
    Wrong(usize),
}

impl<R: Said<Message>> Items<R> for Listed {
    ghost takes = { takes_listed R.said };

    fn take(
        so_far: &mut Option<Listed>,
        alloc: Global,
        reader: &mut Reader<'_>,
        depth: usize,
    ) -> Result<(), ReadFault> {
        let one = R::read(alloc, reader, depth)?;
        if let Some(all) = so_far.take() {
            *so_far = Some(longer(all, one)?);
        }
        Ok(())
    }
}

/// One more message at the end, or the place of an item that says none.
fn longer(all: Listed, one: Option<Message>) -> Result<Listed, AllocError>
    ensures { IfOk result (λ longer. longer ≡ one_more all one) }
{
    match (all, one) {
        (Listed::Coded(mut codes), Some(one)) => {
            codes.add(&one)?;
            Ok(Listed::Coded(codes))
        }
        (Listed::Coded(codes), None) => Ok(Listed::Wrong(codes.next_place())),
        (Listed::Wrong(place), _) => Ok(Listed::Wrong(place)),
    }
}
