//! A step that its node has taken, and that the journal does not have yet.

ghost use Rattle.std.specs.Prelude.{◌≡◌, None, Some};

use rc_types::{Event, Message};

/// An event of a node, with what the node has sent in it.
#[derive(Drop)]
pub(crate) struct Offer {
    pub(crate) event: Event,
    pub(crate) messages: Vec<Message>,
}

/// Puts an offer where there is none.
pub(crate) fn put(place: &mut Option<Offer>, offer: Offer)
    requires { place.old ≡ None }
    ensures { place.new ≡ Some offer }
{
    *place = Some(offer);
}

/// Takes away the message that is held, if there is one.
pub(crate) fn let_go(held: &mut Option<(usize, Message)>)
    ensures { held.new ≡ None }
{
    *held = None;
}

/// Holds this message, in place of the one that was held, if there was one.
pub(crate) fn keep(held: &mut Option<(usize, Message)>, number: usize, message: Message)
    ensures { held.new ≡ Some (number, message) }
{
    *held = Some((number, message));
}
