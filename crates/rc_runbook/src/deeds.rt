//! What was done and why, and what is gone.

use rc_types::{ServerId, Tablet};

/// What was done, and why.
#[derive(Clone, Copy)]
pub struct Deed {
    /// How many events had happened before it.
    pub after: usize,
    /// What was done, and why.
    pub why: Why,
}

/// Why something was done.
#[derive(Clone, Copy)]
pub enum Why {
    /// Power was cut: each server that ran was stopped, and then each host started.
    PowerCut,
    /// A host was started, since its last server does not run.
    Stopped(u8),
    /// A host was started that never was before, since too few others run.
    TooFew(u8),
    /// A server was stopped and its host started, since its id has crashed and it still runs.
    Zombie(ServerId),
    /// A server was stopped and its host started, since it owns a tablet, is up, and takes no write.
    Stuck(ServerId),
    /// A server was suspected, since its id is up and it does not run.
    Silent(ServerId),
    /// A server was suspected again, since its recovery was decided and can't go on.
    Again(ServerId),
    /// The recovery of a server was decided, since all servers that are up have answered.
    Answered(ServerId),
}

/// A tablet that is served.
#[derive(Clone, Copy)]
pub struct Served {
    /// The tablet.
    pub tablet: Tablet,
    /// The version that its owner has acknowledged for a new write of its first key, and shown in a read.
    pub version: u64,
}

/// A segment that is gone, with its witness. Events are counted from 0.
#[derive(Drop)]
pub struct Gone {
    /// Whose log it was in.
    pub master: ServerId,
    /// The segment.
    pub seg: u16,
    /// The epoch under which it was placed.
    pub epoch: u16,
    /// The event after which the master knew that it was placed on all its members.
    pub placed: usize,
    /// For each of its members the start at which its host has dropped it.
    pub drops: Vec<Dropped>,
}

/// A host was started without an open replica that it had.
#[derive(Clone, Copy)]
pub struct Dropped {
    /// The member of the segment.
    pub member: ServerId,
    /// The event: a start of its host.
    pub start: usize,
}
