//! The rule of a ledger, and the kinds of step.

ghost use Rattle.rc_wire.specs.Moves.{tells_look, tells_add};
ghost use Rattle.rc_wire.specs.Views.{idle, after_dealing, newcomer, desk_alone, place_alone, with_guest};

use crate::view::View;
use atomic_table::{Join, Play, Seat, Split, TableRule};
use rc_types::{Event, Setup};

/// A token of a ledger, of no bytes: what its holder knows.
pub type Pass = Seat<Event, View>;

/// The rule: there is one history, and each token knows only what is true of it.
pub struct Law;

impl TableRule<Event, View, Setup> for Law {
    ghost use Rattle.rc_wire.specs.Law.{Kept};
    ghost use Rattle.rc_wire.specs.Views.{at_desk, new_desk};

    ghost holds = { λ setup s. Kept setup s.views };

    ghost first = { λ setup. at_desk (new_desk setup) };
}

/// The keeper gives one more node a seat.
pub(crate) struct Deal;

impl Split<View> for Deal {
    ghost left = { after_dealing };

    ghost right = { newcomer };
}

/// A token gives all that it knows to a new one.
pub(crate) struct Leave;

impl Split<View> for Leave {
    ghost left = { λ _. idle };

    ghost right = { λ view. view };
}

/// The keeper takes a seat as its guest.
pub(crate) struct Host;

impl Join<View> for Host {
    ghost both = { with_guest };

    ghost spent = { idle };
}

/// The guest sees the whole history.
pub(crate) struct Look;

impl Play<Event, View> for Look {
    ghost then = { tells_look };
}

/// An event of the guest is added.
pub(crate) struct Add;

impl Play<Event, View> for Add {
    ghost then = { tells_add };
}

/// The keeper lets its guest go.
pub(crate) struct Part;

impl Split<View> for Part {
    ghost left = { desk_alone };

    ghost right = { place_alone };
}
