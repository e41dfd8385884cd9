//! A run of a world over a list of events.

ghost use Rattle.std.specs.Prelude.{◌≡◌, ◌⊎◌, ◌↔◌, ◌<◌, false, length, take, slice_get};
ghost use Rattle.std.specs.Prelude.{IfOk, IfErr, OnOk};
ghost use Rattle.std.specs.Option.{IfSome};
ghost use Rattle.rc_types.specs.declared.faults.Fault.TheVariants.{OutOfMemory, BadEvent};
ghost use Rattle.rc_world.specs.Happened.{with_events, can_happen, AllHappen};

use crate::world::World;
use rc_types::{Event, Fault};
use std::alloc::{Allocator, Global};

/// Takes these events, one after another.
///
/// # Errors
///
/// The world after the events before event n, with n and the fault: `BadEvent` (F18) where event n
/// is not possible or 200,000 events have happened, `OutOfMemory` (F1) where memory was refused.
pub fn run<A: Allocator + Clone>(
    alloc: Global,
    world: World<A>,
    events: &[Event],
) -> Result<World<A>, (World<A>, usize, Fault)>
    ensures ok { IfOk result (λ after. after ≡ with_events world events.now) }
    ensures possible { OnOk result (AllHappen world events.now) }
    ensures stopped { IfErr result (λ stop.
        (stop.1 < length events.now) × (stop.0 ≡ with_events world (take stop.1 events.now))) }
    ensures begun { IfErr result (λ stop. AllHappen world (take stop.1 events.now)) }
    ensures bad { IfErr result (λ stop. (stop.2 ≡ BadEvent) ↔
        IfSome (slice_get events.now stop.1) (λ event. can_happen stop.0 event ≡ false)) }
    ensures fault { IfErr result (λ stop. (stop.2 ≡ OutOfMemory) ⊎ (stop.2 ≡ BadEvent)) }
{
    let mut world = world;
    for (index, event) in events.iter().enumerate() {
        if let Err(fault) = world.take(alloc, event) {
            return Err((world, index, fault));
        }
    }
    Ok(world)
}
