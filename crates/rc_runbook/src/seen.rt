//! What was seen of the servers.

use rc_types::ServerId;

/// What was seen of the servers, by whoever asks what is due: a coordinator's loop with its timers, or an operator. A
/// server that is in none of the lists is left alone.
#[derive(Clone, Copy)]
pub struct Seen<'a> {
    /// From whom something has come lately.
    pub heard: &'a [ServerId],
    /// From whom nothing has come for longer than one waits.
    pub silent: &'a [ServerId],
    /// Who refuses the writes to its own tablets, and goes on refusing them though the servers have settled: an owner
    /// that was never told so (F2), one whose log is full (F6) or has no epoch left (F19), one that never finds
    /// backups (F3, F4) though enough hosts are up.
    pub stuck: &'a [ServerId],
}
