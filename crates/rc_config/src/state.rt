//! What a step can change of a segment.

use crate::{Config, MemberIds};

/// What a step can change of a segment, kept so that the change can be undone.
pub struct SegmentState {
    /// How many entries there were.
    pub len: usize,
    /// The members, and the epoch under which they were.
    pub config: Config,
    /// Whether a Commit was sent under that epoch.
    pub commit_sent: bool,
    /// The members to which a Close was sent under that epoch.
    pub closes_sent: MemberIds,
    /// Whether the segment was shut.
    pub shut: bool,
    /// Whether it was freed.
    pub freed: bool,
}

impl Drop for SegmentState {
    fn drop(self) {
        let SegmentState {
            len: _,
            config: _,
            commit_sent: _,
            closes_sent: _,
            shut: _,
            freed: _,
        } = self;
    }
}
