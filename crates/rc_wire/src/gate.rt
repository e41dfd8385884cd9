//! What a caller can do around each commit.

use rc_types::NodeName;
use std::sync::Wait;

/// Called by each thread around each of its commits, without a lock.
pub trait Gate: Sync {
    /// The seat's step is computed, and about to be committed.
    fn before_commit<R: Wait>(&self, rt: &R, seat: NodeName);

    /// It has been committed.
    fn after_commit<R: Wait>(&self, rt: &R, seat: NodeName);
}
