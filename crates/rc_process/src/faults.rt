//! Why a message was not taken, and why a process has not come back.

use thiserror::Error;

/// Why a process has not come back from its file.
#[derive(Clone, Copy, PartialEq, Eq, Error)]
pub enum BackFault {
    /// The file begins with no save.
    #[error("the file begins with no save")]
    NoSave,
    /// Fewer bytes of the file are good than were known to be safe.
    #[error("bytes are missing that were safe")]
    TooShort,
    /// Memory was refused.
    #[error("memory was refused")]
    NoMemory,
    /// The node's numbers do not suffice for one more step.
    #[error("the node's numbers are used up")]
    NoRoom,
}

/// For a debugger a fault is its text.
impl std::fmt::Debug for BackFault {
    fn fmt<W: std::fmt::Write>(&self, f: &mut std::fmt::Formatter<W>) -> std::fmt::Result {
        write!(f, "{self}")
    }
}

/// Why a message that has come as bytes was not taken.
#[derive(Clone, Copy, PartialEq, Eq, Error)]
pub enum MessageFault {
    /// The bytes are no message.
    #[error("the bytes are no message")]
    Malformed,
    /// Memory was refused.
    #[error("memory was refused")]
    NoMemory,
    /// The node's numbers do not suffice for one more step.
    #[error("the node's numbers are used up")]
    NoRoom,
}

/// For a debugger a fault is its text.
impl std::fmt::Debug for MessageFault {
    fn fmt<W: std::fmt::Write>(&self, f: &mut std::fmt::Formatter<W>) -> std::fmt::Result {
        write!(f, "{self}")
    }
}
