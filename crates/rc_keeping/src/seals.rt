//! Bytes with their length and their sum before them, whatever they say.

ghost use Rattle.std.specs.Prelude.{◌≡◌, ◌++◌, ◌∷◌, IfOk, IfErr, OnOk, OnErr};
ghost use Rattle.rc_codec.specs.Claims.{BeginsWithNone};
ghost use Rattle.rc_codec.specs.Reading.{Gives};
ghost use Rattle.rc_codec.specs.declared.faults.DecodeFault.TheVariants.{Malformed};
ghost use Rattle.rc_keeping.specs.Spelling.{sealed};
ghost use Rattle.rc_keeping.specs.Readers.{opened_with, opened_at};

use crate::records::{put_sealed, put_sealed_after, sum_of};
use rc_codec::{DecodeFault, Take};
use std::alloc::{AllocError, Global};

/// Adds these bytes at the end of `out`, with their length and their sum before them, as a record has them.
///
/// # Errors
///
/// Memory was refused; `out` is as before.
pub fn seal(code: &[u8], out: &mut Vec<u8>) -> Result<(), AllocError>
    ensures ok { OnOk result (out.new.items ≡ out.old.items ++ sealed code.now) }
    ensures err { OnErr result (out.new.items ≡ out.old.items) }
{
    put_sealed(code, out)
}

/// Adds a byte and these bytes behind it at the end of `out`, as `seal` does where they stand in one piece.
///
/// # Errors
///
/// Memory was refused; `out` is as before.
pub fn seal_after(first: u8, code: &[u8], out: &mut Vec<u8>) -> Result<(), AllocError>
    ensures ok { OnOk result (out.new.items ≡ out.old.items ++ sealed (first ∷ code.now)) }
    ensures err { OnErr result (out.new.items ≡ out.old.items) }
{
    put_sealed_after(first, code, out)
}

/// The bytes that stand at the front with their length and their sum before them, and what follows. Nothing is copied.
///
/// # Errors
///
/// `Malformed` where no bytes stand there so: they are cut short, or do not have their sum; `OutOfMemory` where memory
/// was refused.
pub fn unseal(alloc: Global, bytes: &[u8]) -> Result<(&[u8], &[u8]), DecodeFault>
    ensures opened { IfOk result (λ found. bytes.now ≡ sealed found.0.now ++ found.1.now) }
    ensures refused { IfErr result (λ fault. fault ≡ Malformed → BeginsWithNone sealed bytes.now) }
{
    match open(alloc, bytes) {
        Ok(found) => Ok(found),
        Err(fault) => Err(fault),
    }
}

/// The head, and then the bytes that it speaks of.
#[tactic(auto, unfolding(crate::specs::Readers::opened_at))]
fn open(alloc: Global, bytes: &[u8]) -> Result<(&[u8], &[u8]), DecodeFault>
    ensures { Gives (λ x. (x.0.now, x.1.now)) result (opened_at bytes.now) }
{
    let ((length, sum), rest) = <(usize, u32)>::take(alloc, bytes)?;
    open_summed(length, sum, rest)
}

/// So many bytes, that have this sum.
#[tactic(auto, unfolding(crate::specs::Readers::opened_with))]
fn open_summed(length: usize, sum: u32, bytes: &[u8]) -> Result<(&[u8], &[u8]), DecodeFault>
    ensures { Gives (λ x. (x.0.now, x.1.now)) result (opened_with length sum bytes.now) }
{
    if bytes.len() < length {
        return Err(DecodeFault::Malformed);
    }
    let (code, rest) = bytes.split_at(length);
    if sum_of(code) == sum {
        Ok((code, rest))
    } else {
        Err(DecodeFault::Malformed)
    }
}
