//! The seats of a new wire.

ghost use Rattle.std.specs.Prelude.{◌≡◌, ◌<◌, ◌≤◌, IfOk};
ghost use Rattle.rc_world.specs.HostView.{IsWithinLimits};
ghost use Rattle.rc_wire.specs.JournalCalls.{new_places};
ghost use Rattle.rc_wire.specs.Views.{name_at};
ghost use Rattle.rc_wire.specs.Seats.{new_seats};

use crate::names::Naming;
use crate::seat::Seat;
use crate::token::Token;
use rc_types::{NodeName, Setup};
use std::alloc::{AllocError, Global};

/// The seats that these tokens are for, in order.
pub(crate) fn seats_of<N: Naming>(
    alloc: Global,
    setup: &Setup,
    tokens: Vec<Token<N>>,
) -> Result<Vec<Seat<N>>, AllocError>
    requires setup { setup.now ≡ N.wire.setup }
    requires limits { IsWithinLimits setup.now }
    requires tokens { tokens.items ≡ new_places N.wire.nodes }
    requires few { N.wire.nodes ≤ 258 }
    ensures { IfOk result (λ seats. seats.items ≡ new_seats N.wire.nodes) }
{
    let mut tokens = tokens;
    let nodes = tokens.len();
    let mut seats = Vec::with_capacity(alloc, nodes)?;
    for number in 0..nodes {
        let token = tokens.remove(0);
        seats.push(Seat::new(alloc, name_at(number), setup, token))?;
    }
    Ok(seats)
}

/// Whose seat has this number.
fn name_at(number: usize) -> NodeName
    requires { number < 258 }
    ensures { result ≡ name_at number }
{
    match number {
        0 => NodeName::Outside,
        1 => NodeName::Coordinator,
        _ => NodeName::Host((number - 2) as u8),
    }
}
