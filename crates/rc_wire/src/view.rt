//! What a token of the ledger knows. No value of these types is made.

use rc_types::{Event, Setup};
use std::collections::LinkedList;

/// What the one token that keeps the history knows: what the world was opened with, all that has
/// happened, and how many nodes have a seat.
pub struct Desk {
    /// What the world was opened with.
    pub setup: Setup,
    /// All that has happened.
    pub history: LinkedList<Event>,
    /// How many nodes have a seat.
    pub next: u64,
}

/// What the token of a node's seat knows: the node's number, the history as far as it has seen it,
/// and the node's own events in it.
pub struct Place {
    /// The node's number.
    pub node: u64,
    /// The history as far as the seat has seen it.
    pub seen: LinkedList<Event>,
    /// The node's own events in it.
    pub mine: LinkedList<Event>,
}

/// What a token knows: it keeps the history, or sits for a node, or both, or nothing.
pub struct View {
    /// What it knows where it keeps the history.
    pub desk: Option<Desk>,
    /// What it knows where it sits for a node.
    pub place: Option<Place>,
}
