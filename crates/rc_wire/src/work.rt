//! What a seat can be given to do.

use rc_types::{Body, Order, Seq, ServerId};

/// What a seat's node is to do: one event of the node, without what the seat knows by itself.
#[derive(Drop)]
pub enum Work {
    /// The node takes the message that the seat holds.
    Fetched,
    /// The outside asks this server to write or read.
    Ask { to: ServerId, body: Body },
    /// The timer of the coordinator, or of the server that runs on the host.
    Tick,
    /// The server that runs on the host stops.
    Stop,
    /// The host is started, and keeps these of its open replicas.
    Start { kept: Seq<(ServerId, u16)> },
    /// The coordinator is told this.
    Order(Order),
}
