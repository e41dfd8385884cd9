//! What has a coding, and what is read back.

ghost use Rattle.std.specs.Prelude.{◌≡◌, ◌++◌, ◌∷◌, ℕ, List, Option, OnOk, OnErr};
ghost use Rattle.rc_codec.specs.Parts.{Begins};
ghost use Rattle.rc_codec.specs.Reading.{Gives};

use crate::faults::DecodeFault;
use std::alloc::{AllocError, Global};

/// What has a coding: its bytes are determined.
pub trait Put {
    /// Its bytes.
    ghost code: { Self → List ℕ };

    /// Adds its bytes at the end. Where memory is refused some of them may stand there.
    fn put(&self, out: &mut Vec<u8>) -> Result<(), AllocError>
        ensures ok { OnOk result (out.new.items ≡ out.old.items ++ code self.now) }
        ensures err { OnErr result (Begins out.old.items out.new.items) };
}

/// What can be read at the front of bytes.
pub trait Take {
    /// What stands at the front, and the bytes after it.
    ghost read: { List ℕ → Option (Self × List ℕ) };

    /// What stands at the front, and the bytes after it.
    fn take(alloc: Global, bytes: &[u8]) -> Result<(Self, &[u8]), DecodeFault>
        ensures { Gives (λ x. (x.0, x.1.now)) result (read bytes.now) };
}

/// What is pointed to.
impl<T: Put> Put for &T {
    ghost code = { λ x. T.code x.now };

    fn put(&self, out: &mut Vec<u8>) -> Result<(), AllocError> {
        (**self).put(out)
    }
}

/// A kind in one byte, and its fields.
pub fn put_kind<F: Put + Drop>(kind: u8, fields: F, out: &mut Vec<u8>) -> Result<(), AllocError>
    ensures ok { OnOk result (out.new.items ≡ out.old.items ++ kind ∷ F.code fields) }
    ensures err { OnErr result (Begins out.old.items out.new.items) }
{
    (kind, fields).put(out)
}
