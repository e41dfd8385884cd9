//! A record of a journal: the length of a coded work, a sum over its bytes, and these bytes.

ghost use Rattle.std.specs.Prelude.{◌≡◌, ◌++◌, ◌/◌, [], ◌∷◌, OnOk, OnErr};
ghost use Rattle.rc_codec.specs.Parts.{Begins, eight_bytes, four_bytes};
ghost use Rattle.rc_codec.specs.Reading.{Gives};
ghost use Rattle.rc_keeping.specs.Spelling.{sum_from, sum_with, sum_of, sealed};
ghost use Rattle.rc_keeping.specs.Readers.{alone_at, summed_at, sealed_at, record_at};

use crate::works::take_coded;
use rc_codec::{DecodeFault, Take};
use rc_types::NodeWork;
use std::alloc::{AllocError, Global};

/// Where a sum over bytes begins, so that bytes that are all 0 do not have the sum 0.
const FIRST_SUM: u64 = 14_695_981_039_346_656_037;

/// By what a sum is multiplied with each number, so that the upper bits depend on all of them. It is odd, so that
/// different numbers have different products.
const FACTOR: u64 = 11_400_714_819_323_198_485;

/// The sum over these bytes.
pub(crate) fn sum_of(bytes: &[u8]) -> u32
    ensures { result ≡ sum_of bytes.now }
{
    upper_half(sum_from(FIRST_SUM, bytes))
}

/// The sum over a byte and these bytes behind it.
#[tactic(auto, using(crate::proofs::Sum::eight, crate::proofs::Sum::one))]
fn sum_after(first: u8, bytes: &[u8]) -> u32
    ensures { result ≡ sum_of (first ∷ bytes.now) }
{
    match bytes.split_first_chunk::<7>() {
        Some(([a, b, c, d, e, f, g], rest)) => {
            let number = u64::from_le_bytes([first, *a, *b, *c, *d, *e, *f, *g]);
            upper_half(sum_from(sum_with(FIRST_SUM, number), rest))
        }
        None => upper_half(sum_from(sum_with(FIRST_SUM, u64::from(first)), bytes)),
    }
}

/// A sum over bytes that goes on from another one.
#[tactic(auto, unfolding(crate::specs::Spelling::sum_from), using(crate::proofs::Sum::eight, crate::proofs::Sum::one))]
fn sum_from(from: u64, bytes: &[u8]) -> u64
    ensures { result ≡ sum_from from bytes.now }
{
    let mut sum = from;
    let mut rest = bytes;
    while let Some((eight, after)) = rest.split_first_chunk::<8>() {
        sum = sum_with(sum, u64::from_le_bytes(*eight));
        rest = after;
    }
    while let Some((byte, after)) = rest.split_first() {
        sum = sum_with(sum, u64::from(*byte));
        rest = after;
    }
    sum
}

/// A sum with one more number.
fn sum_with(sum: u64, number: u64) -> u64
    ensures { result ≡ sum_with sum number }
{
    let product = (sum ^ number).wrapping_mul(FACTOR);
    product ^ (product >> 32)
}

/// The upper half of a sum, which is written down.
fn upper_half(sum: u64) -> u32
    ensures { result ≡ sum / 4294967296 }
{
    (sum >> 32) as u32
}

/// Adds these bytes with their length and their sum at the end of a journal, which has all of it, or is as before.
#[tactic(auto, unfolding(rc_codec::specs::Parts::Begins))]
pub(crate) fn put_sealed(code: &[u8], journal: &mut Vec<u8>) -> Result<(), AllocError>
    ensures ok { OnOk result (journal.new.items ≡ journal.old.items ++ sealed code.now) }
    ensures err { OnErr result (journal.new.items ≡ journal.old.items) }
{
    let length = journal.len();
    match put_parts(code, journal) {
        Ok(()) => Ok(()),
        Err(fault) => {
            journal.truncate(length);
            Err(fault)
        }
    }
}

/// The length, the sum and the bytes. Where memory is refused some of it may stand there.
#[tactic(auto, using(rc_codec::proofs::Beginning::begins_after))]
fn put_parts(code: &[u8], journal: &mut Vec<u8>) -> Result<(), AllocError>
    ensures ok { OnOk result (journal.new.items ≡ journal.old.items ++ sealed code.now) }
    ensures err { OnErr result (Begins journal.old.items journal.new.items) }
{
    put_all(&head(code.len(), sum_of(code)), journal)?;
    put_all(code, journal)
}

/// Adds these bytes behind one more, as `put_sealed` adds all of them in one piece.
#[tactic(auto, unfolding(rc_codec::specs::Parts::Begins))]
pub(crate) fn put_sealed_after(
    first: u8,
    code: &[u8],
    journal: &mut Vec<u8>,
) -> Result<(), AllocError>
    ensures ok { OnOk result (journal.new.items ≡ journal.old.items ++ sealed (first ∷ code.now)) }
    ensures err { OnErr result (journal.new.items ≡ journal.old.items) }
{
    let length = journal.len();
    match put_parts_after(first, code, journal) {
        Ok(()) => Ok(()),
        Err(fault) => {
            journal.truncate(length);
            Err(fault)
        }
    }
}

/// The length, the sum, the first byte and the others. Where memory is refused some of it may stand there.
#[tactic(auto, using(rc_codec::proofs::Beginning::begins_after))]
fn put_parts_after(first: u8, code: &[u8], journal: &mut Vec<u8>) -> Result<(), AllocError>
    ensures ok { OnOk result (journal.new.items ≡ journal.old.items ++ sealed (first ∷ code.now)) }
    ensures err { OnErr result (Begins journal.old.items journal.new.items) }
{
    let Some(length) = code.len().checked_add(1) else {
        return Err(AllocError);
    };
    put_all(&head_after(length, sum_after(first, code), first), journal)?;
    put_all(code, journal)
}

/// What stands before bytes: how many there are, and their sum.
#[tactic(auto, using(rc_codec::proofs::Digits::four_are_le, rc_codec::proofs::Digits::eight_are_le))]
fn head(length: usize, sum: u32) -> [u8; 12]
    ensures { result ≡ eight_bytes length ++ four_bytes sum }
{
    let [a, b, c, d, e, f, g, h] = (length as u64).to_le_bytes();
    let [i, j, k, l] = sum.to_le_bytes();
    [a, b, c, d, e, f, g, h, i, j, k, l]
}

/// The same, and the first of the bytes.
fn head_after(length: usize, sum: u32, first: u8) -> [u8; 13]
    ensures { result ≡ eight_bytes length ++ four_bytes sum ++ first ∷ [] }
{
    let [a, b, c, d, e, f, g, h, i, j, k, l] = head(length, sum);
    [a, b, c, d, e, f, g, h, i, j, k, l, first]
}

/// The bytes themselves, in one step.
#[tactic(auto, using(rc_codec::proofs::Beginning::begins_same))]
fn put_all(code: &[u8], journal: &mut Vec<u8>) -> Result<(), AllocError>
    ensures ok { OnOk result (journal.new.items ≡ journal.old.items ++ code.now) }
    ensures err { OnErr result (Begins journal.old.items journal.new.items) }
{
    journal.extend_from_slice(code)?;
    Ok(())
}

/// The record that the bytes begin with, and the bytes after it.
#[tactic(auto, unfolding(crate::specs::Readers::record_at))]
pub(crate) fn take_record(alloc: Global, bytes: &[u8]) -> Result<(NodeWork, &[u8]), DecodeFault>
    ensures { Gives (λ x. (x.0, x.1.now)) result (record_at bytes.now) }
{
    let ((length, sum), rest) = <(usize, u32)>::take(alloc, bytes)?;
    take_sealed(alloc, length, sum, rest)
}

/// A work in so many bytes, that have this sum.
#[tactic(auto, unfolding(crate::specs::Readers::sealed_at))]
fn take_sealed(
    alloc: Global,
    length: usize,
    sum: u32,
    bytes: &[u8],
) -> Result<(NodeWork, &[u8]), DecodeFault>
    ensures { Gives (λ x. (x.0, x.1.now)) result (sealed_at length sum bytes.now) }
{
    if bytes.len() < length {
        return Err(DecodeFault::Malformed);
    }
    let (code, rest) = bytes.split_at(length);
    match take_summed(alloc, sum, code) {
        Ok(work) => Ok((work, rest)),
        Err(fault) => Err(fault),
    }
}

/// The work that these bytes are, where they have this sum.
#[tactic(auto, unfolding(crate::specs::Readers::summed_at))]
fn take_summed(alloc: Global, sum: u32, code: &[u8]) -> Result<NodeWork, DecodeFault>
    ensures { Gives (λ work. work) result (summed_at sum code.now) }
{
    if sum_of(code) == sum {
        take_alone(alloc, code)
    } else {
        Err(DecodeFault::Malformed)
    }
}

/// The work that these bytes are.
#[tactic(auto, unfolding(crate::specs::Readers::alone_at))]
fn take_alone(alloc: Global, code: &[u8]) -> Result<NodeWork, DecodeFault>
    ensures { Gives (λ work. work) result (alone_at code.now) }
{
    match take_coded(alloc, code) {
        Ok((work, [])) => Ok(work),
        Ok(_) => Err(DecodeFault::Malformed),
        Err(fault) => Err(fault),
    }
}
