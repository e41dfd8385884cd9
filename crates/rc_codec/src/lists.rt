//! Values, and lists.

ghost use Rattle.std.specs.Prelude.{◌≡◌, ◌++◌, OnOk, OnErr};
ghost use Rattle.std.specs.List.{flat_map};
ghost use Rattle.rc_codec.specs.Parts.{Begins, bytes};
ghost use Rattle.rc_codec.specs.Reading.{Gives, bytes_at, each_at};

use crate::coded::{Put, Take};
use crate::faults::DecodeFault;
use rc_types::{Seq, Shared};
use std::alloc::{AllocError, Global};

/// 0 where there is none; else 1, the length in eight bytes, and the bytes.
impl Put for Option<Shared<u8>> {
    ghost use Rattle.rc_codec.specs.Fields.{value_code};

    ghost code = { value_code };

    #[tactic(auto, using(crate::proofs::Beginning::begins_same, crate::proofs::Beginning::begins_after))]
    fn put(&self, out: &mut Vec<u8>) -> Result<(), AllocError> {
        match self {
            None => 0u8.put(out),
            Some(value) => {
                1u8.put(out)?;
                put_bytes(value.as_slice(), out)
            }
        }
    }
}

/// A length in eight bytes, and the bytes.
#[tactic(auto, using(crate::proofs::Beginning::begins_after))]
fn put_bytes(value: &[u8], out: &mut Vec<u8>) -> Result<(), AllocError>
    ensures ok { OnOk result (out.new.items ≡ out.old.items ++ bytes value.now) }
    ensures err { OnErr result (Begins out.old.items out.new.items) }
{
    value.len().put(out)?;
    put_all(value, out)
}

/// The bytes themselves, in one step.
#[tactic(auto, using(crate::proofs::Beginning::begins_same))]
fn put_all(value: &[u8], out: &mut Vec<u8>) -> Result<(), AllocError>
    ensures ok { OnOk result (out.new.items ≡ out.old.items ++ value.now) }
    ensures err { OnErr result (Begins out.old.items out.new.items) }
{
    out.extend_from_slice(value)?;
    Ok(())
}

impl Take for Option<Shared<u8>> {
    ghost use Rattle.rc_codec.specs.Fields.{value_at};

    ghost read = { value_at };

    fn take(alloc: Global, bytes: &[u8]) -> Result<(Option<Shared<u8>>, &[u8]), DecodeFault> {
        match bytes {
            [0, rest @ ..] => Ok((None, rest)),
            [1, rest @ ..] => {
                let (value, rest) = take_bytes(alloc, rest)?;
                Ok((Some(value), rest))
            }
            _ => Err(DecodeFault::Malformed),
        }
    }
}

/// A length in eight bytes, and that many bytes. Memory is taken once the length is seen to fit.
#[tactic(auto, unfolding(crate::specs::Reading::bytes_at))]
fn take_bytes(alloc: Global, bytes: &[u8]) -> Result<(Shared<u8>, &[u8]), DecodeFault>
    ensures { Gives (λ x. (x.0, x.1.now)) result (bytes_at bytes.now) }
{
    let (length, rest) = usize::take(alloc, bytes)?;
    if rest.len() < length {
        return Err(DecodeFault::Malformed);
    }
    let (value, rest) = rest.split_at(length);
    let value = Vec::from_slice(alloc, value)?;
    Ok((Shared::from_vec(alloc, value)?, rest))
}

/// The number of elements in eight bytes, and each element.
impl<T: Put> Put for Seq<T> {
    ghost use Rattle.rc_codec.specs.Parts.{listed};

    ghost code = { listed T.code };

    #[tactic(auto, using(crate::proofs::Beginning::begins_same, crate::proofs::Beginning::begins_after))]
    fn put(&self, out: &mut Vec<u8>) -> Result<(), AllocError> {
        self.len().put(out)?;
        put_each(self.as_slice(), out)
    }
}

impl<T: Put> Put for Shared<T> {
    ghost use Rattle.rc_codec.specs.Parts.{listed};

    ghost code = { listed T.code };

    #[tactic(auto, using(crate::proofs::Beginning::begins_same, crate::proofs::Beginning::begins_after))]
    fn put(&self, out: &mut Vec<u8>) -> Result<(), AllocError> {
        self.len().put(out)?;
        put_each(self.as_slice(), out)
    }
}

/// Each element, in order.
#[tactic(auto, using(crate::proofs::Beginning::begins_after))]
fn put_each<T: Put>(items: &[T], out: &mut Vec<u8>) -> Result<(), AllocError>
    ensures ok { OnOk result (out.new.items ≡ out.old.items ++ flat_map T.code items.now) }
    ensures err { OnErr result (Begins out.old.items out.new.items) }
{
    for item in items {
        item.put(out)?;
    }
    Ok(())
}

impl<T: Take + Drop> Take for Seq<T> {
    ghost use Rattle.rc_codec.specs.Reading.{listed_at};

    ghost read = { listed_at T.read };

    #[tactic(auto, unfolding(crate::specs::Reading::listed_at))]
    fn take(alloc: Global, bytes: &[u8]) -> Result<(Seq<T>, &[u8]), DecodeFault> {
        let (count, rest) = usize::take(alloc, bytes)?;
        let (items, rest) = take_each(alloc, count, rest)?;
        Ok((Seq::from_vec(items), rest))
    }
}

impl<T: Take + Drop> Take for Shared<T> {
    ghost use Rattle.rc_codec.specs.Reading.{listed_at};

    ghost read = { listed_at T.read };

    #[tactic(auto, unfolding(crate::specs::Reading::listed_at))]
    fn take(alloc: Global, bytes: &[u8]) -> Result<(Shared<T>, &[u8]), DecodeFault> {
        let (count, rest) = usize::take(alloc, bytes)?;
        let (items, rest) = take_each(alloc, count, rest)?;
        if items.is_empty() {
            // an empty list takes no memory
            return Ok((Shared::empty(), rest));
        }
        Ok((Shared::from_vec(alloc, items)?, rest))
    }
}

/// This many elements. The list grows as they are read.
fn take_each<T: Take + Drop>(
    alloc: Global,
    count: usize,
    bytes: &[u8],
) -> Result<(Vec<T>, &[u8]), DecodeFault>
    ensures { Gives (λ x. (x.0.items, x.1.now)) result (each_at T.read count bytes.now) }
{
    let mut items = Vec::new(alloc);
    let mut rest = bytes;
    for _ in 0..count {
        let (item, after) = T::take(alloc, rest)?;
        items.push(item)?;
        rest = after;
    }
    Ok((items, rest))
}
