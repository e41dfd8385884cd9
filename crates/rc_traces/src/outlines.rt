//! Messages without the entries that they carry.

ghost use Rattle.std.specs.Prelude.{◌≡◌};
ghost use Rattle.rc_traces.specs.Outline.{outline_of, without_entries};

use crate::fields::Fields;
use json::Reader;
use rc_reading::ReadFault;
use rc_reading::lists::Said;
use rc_types::{Body, Message, Seq};
use std::alloc::Global;

/// Reads a message, and keeps all of it but its entries.
#[derive(Clone, Copy)]
pub(crate) struct Outline {}

/// The message with no entries.
fn without_entries(alloc: Global, message: Message) -> Message
    ensures { result ≡ without_entries message }
{
    let Message { from, to, body } = message;
    let body = match body {
        Body::Place {
            seg,
            epoch,
            digest,
            entries: _,
            closed,
        } => Body::Place {
            seg,
            epoch,
            digest,
            entries: Seq::new(alloc),
            closed,
        },
        Body::Append {
            seg,
            offset,
            entries: _,
        } => Body::Append {
            seg,
            offset,
            entries: Seq::new(alloc),
        },
        other => other,
    };
    Message { from, to, body }
}

impl Said<Message> for Outline {
    ghost said = { outline_of };

    fn read(
        alloc: Global,
        reader: &mut Reader<'_>,
        depth: usize,
    ) -> Result<Option<Message>, ReadFault> {
        let message = Fields::read(alloc, reader, depth)?;
        Ok(message.map(|message| without_entries(alloc, message)))
    }
}
