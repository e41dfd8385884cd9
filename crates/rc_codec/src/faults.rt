//! Why bytes give nothing.

ghost use Rattle.std.specs.Prelude.{◌≡◌};

use std::alloc::{AllocError, AllocFailed};
use thiserror::Error;

/// Why bytes were not decoded.
#[derive(Clone, Copy, Error)]
pub enum DecodeFault {
    /// Memory was refused.
    #[error("memory was refused")]
    OutOfMemory,
    /// The bytes begin with no coding.
    #[error("the bytes begin with no coding")]
    Malformed,
}

/// For a debugger a fault is its text.
impl std::fmt::Debug for DecodeFault {
    fn fmt<W: std::fmt::Write>(&self, f: &mut std::fmt::Formatter<W>) -> std::fmt::Result {
        write!(f, "{self}")
    }
}

/// What has no memory is `OutOfMemory`.
impl From<AllocError> for DecodeFault {
    ghost use Rattle.rc_codec.specs.declared.faults.DecodeFault.TheVariants.{OutOfMemory};

    ghost from_gives = { λ _ e. e ≡ OutOfMemory };

    fn from(_: AllocError) -> DecodeFault {
        DecodeFault::OutOfMemory
    }
}

/// What could not be stored for want of memory is `OutOfMemory`.
impl<T: Drop> From<AllocFailed<T>> for DecodeFault {
    ghost use Rattle.rc_codec.specs.declared.faults.DecodeFault.TheVariants.{OutOfMemory};

    ghost from_gives = { λ _ e. e ≡ OutOfMemory };

    fn from(_: AllocFailed<T>) -> DecodeFault {
        DecodeFault::OutOfMemory
    }
}
