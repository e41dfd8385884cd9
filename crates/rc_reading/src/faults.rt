//! Why no scenario or trace was read.

ghost use Rattle.std.specs.Prelude.{◌≡◌};

use json::Invalid;
use std::alloc::{AllocError, AllocFailed};
use thiserror::Error;

/// Why nothing was read.
#[derive(Clone, Copy, Debug, PartialEq, Eq, Error)]
pub enum ReadFault {
    /// F1: memory was refused.
    #[error("F1: a growth, or the making of a thread, was refused")]
    OutOfMemory,
    /// F17: the text is wrong at this place: 0 where the bytes are no JSON text or too many, 1 where the
    /// object or a member other than its events or messages is wrong, or these are no list, and 2 + i
    /// where event or message i is wrong. The least place counts.
    #[error("F17: bad input at {0}")]
    BadInput(usize),
}

/// What has no memory says nothing of the text.
impl From<AllocError> for ReadFault {
    ghost use Rattle.rc_reading.specs.declared.faults.ReadFault.TheVariants.{OutOfMemory};

    ghost from_gives = { λ _ e. e ≡ OutOfMemory };

    fn from(_: AllocError) -> ReadFault {
        ReadFault::OutOfMemory
    }
}

/// What could not be stored for want of memory says nothing of the text.
impl<T: Drop> From<AllocFailed<T>> for ReadFault {
    ghost use Rattle.rc_reading.specs.declared.faults.ReadFault.TheVariants.{OutOfMemory};

    ghost from_gives = { λ _ e. e ≡ OutOfMemory };

    fn from(_: AllocFailed<T>) -> ReadFault {
        ReadFault::OutOfMemory
    }
}

/// What is no JSON text is wrong at place 0.
impl From<Invalid> for ReadFault {
    ghost use Rattle.rc_reading.specs.declared.faults.ReadFault.TheVariants.{BadInput};

    ghost from_gives = { λ _ e. e ≡ BadInput 0 };

    fn from(_: Invalid) -> ReadFault {
        ReadFault::BadInput(0)
    }
}
