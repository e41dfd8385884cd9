//! What a scenario says: a setup, and the events that happen in turn.

use crate::hosts::Hosts;
use crate::kinds::Kinds;
use rc_types::{Event, Seq, Setup};

/// A scenario of either format.
#[derive(Drop)]
pub struct Scenario {
    /// What its world is opened with.
    pub setup: Setup,
    /// The events, in order.
    pub events: Seq<ScenarioEvent>,
}

/// One event of a scenario: one event of the world, or a pass over the messages.
#[derive(Drop)]
pub enum ScenarioEvent {
    /// This event of the world.
    Core(Event),
    /// One pass over the messages, which delivers each that nothing has delivered yet, except those
    /// to the outside, those whose body is of one of the kinds, and those to a server on one of the
    /// hosts.
    Settle {
        /// The kinds of bodies that are left out.
        kinds: Kinds,
        /// The hosts whose servers are left out.
        hosts: Hosts,
    },
}
