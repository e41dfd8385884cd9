//! Why a node was not saved.

use thiserror::Error;

/// Why a node was not saved.
#[derive(Clone, Copy, PartialEq, Eq, Error)]
pub enum SaveFault {
    /// Memory was refused.
    #[error("memory was refused")]
    OutOfMemory,
    /// The node is the outside, which keeps nothing.
    #[error("the outside keeps nothing")]
    Outside,
}

/// For a debugger a fault is its text.
impl std::fmt::Debug for SaveFault {
    fn fmt<W: std::fmt::Write>(&self, f: &mut std::fmt::Formatter<W>) -> std::fmt::Result {
        write!(f, "{self}")
    }
}
