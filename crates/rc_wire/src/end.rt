//! The end of a wire.

ghost use Rattle.std.specs.Prelude.{◌≡◌, All, IfOk};
ghost use Rattle.rc_world.specs.HostView.{IsWithinLimits};
ghost use Rattle.rc_wire.specs.Sound.{IsHistory};
ghost use Rattle.rc_wire.specs.SeatCalls.{IsSeat, Covers};

use crate::journal::Journal;
use crate::names::Naming;
use crate::seat::Seat;
use rc_types::TryClone;
use rc_world::{World, run};
use std::alloc::{AllocError, Global};

/// The world of the journal's events.
pub(crate) fn replayed<N: Naming>(
    alloc: Global,
    journal: &Journal<N>,
) -> Result<World<Global>, AllocError>
    requires { IsWithinLimits N.wire.setup }
    ensures setup { IfOk result (λ world. world.setup ≡ N.wire.setup) }
    ensures events { IfOk result (λ world. world.events ≡ journal.now) }
    ensures history { IfOk result (λ world. IsHistory N.wire world.events) }
{
    let setup = journal.setup().try_clone(alloc)?;
    match run(alloc, World::new(alloc, setup, alloc), journal.events()) {
        Ok(world) => Ok(world),
        // (each event was possible when it was noted)
        Err((_, _, fault)) => Err(fault.only_memory()),
    }
}

/// Each seat looks for the last time.
pub(crate) fn look_at_last<N: Naming>(journal: &mut Journal<N>, seats: Vec<Seat<N>>)
    ensures journal { journal.new ≡ journal.old }
    ensures covers { All (Covers N.wire.setup journal.old) seats.items }
    ensures whole { All (IsSeat N.wire.setup) seats.items }
{
    let mut seats = seats;
    while let Some(seat) = seats.pop() {
        look(journal, seat);
    }
}

/// The seat looks, and is done. With its name it is said what is true of each seat.
fn look<N: Naming>(journal: &mut Journal<N>, seat: Seat<N>)
    ensures journal { journal.new ≡ journal.old }
    ensures covers { Covers N.wire.setup journal.old seat }
    ensures whole { IsSeat N.wire.setup seat }
{
    let mut seat = seat;
    let _ = seat.name();
    seat.see(journal);
}
