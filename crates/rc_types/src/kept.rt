//! Plain data that nodes keep, and that the definitions of the protocol speak of.

use crate::ids::ServerId;
use crate::rows::KeyRange;

/// What a member of a segment has told under the segment's present epoch.
#[derive(Clone, Copy)]
pub struct Told {
    /// The greatest length, in entries.
    pub len: usize,
    /// Whether it has told that its replica is closed.
    pub closed: bool,
}

/// A member of a segment: a backup that is to keep a replica of it.
#[derive(Clone, Copy)]
pub struct Member {
    /// The backup.
    pub id: ServerId,
    /// Whether the master knows that it has crashed.
    pub lost: bool,
    /// What it has told under the present epoch, if anything.
    pub told: Option<Told>,
}

/// What a master does with its head.
#[derive(Clone, Copy)]
pub enum Phase {
    /// A new head is being placed on its members. So it is before the first head too.
    Opening,
    /// The new head is placed, and the old one is being closed.
    Closing,
    /// The head takes entries.
    Writing,
}

/// A range that was granted to a master, and the term of that ownership.
#[derive(Clone, Copy)]
pub struct GrantedRange {
    /// The keys.
    pub range: KeyRange,
    /// The term.
    pub term: u32,
}

/// A grant that the coordinator has made; it remembers each for good.
#[derive(Clone, Copy)]
pub struct Grant {
    /// The keys.
    pub range: KeyRange,
    /// The term of the ownership.
    pub term: u32,
    /// The term before it, 0 where the table was created.
    pub previous: u32,
    /// The attempt in which it was recovered, 0 where the table was created.
    pub attempt: u32,
    /// To whom it went.
    pub owner: ServerId,
}
