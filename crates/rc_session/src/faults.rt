//! Why a session has not done what it was called for.

use thiserror::Error;

/// Why a session has not done what it was called for. After each nothing has changed.
#[derive(Clone, Copy, PartialEq, Eq, Error)]
pub enum SessionFault {
    /// Memory was refused. Call again later.
    #[error("memory was refused")]
    NoMemory,
    /// The bytes are no work, or no message: not just those that `rc_keeping` or `rc_codec` makes of one.
    #[error("the bytes are malformed")]
    Malformed,
    /// It can't be done now: the node can't be given this work, or something has to be taken or written first.
    #[error("it can't be done now")]
    Refused,
    /// The node's numbers do not suffice for one more step.
    #[error("the node's numbers are used up")]
    UsedUp,
    /// A number is out of its range.
    #[error("a number is out of its range")]
    OutOfRange,
    /// The file begins with no save: the node has forgotten what others know, and must not start.
    #[error("the file begins with no save")]
    NoSave,
    /// Fewer bytes of the file are good than were known to be safe: the node must not start.
    #[error("bytes are missing that were safe")]
    TooShort,
}

/// For a debugger a fault is its text.
impl std::fmt::Debug for SessionFault {
    fn fmt<W: std::fmt::Write>(&self, f: &mut std::fmt::Formatter<W>) -> std::fmt::Result {
        write!(f, "{self}")
    }
}
