//! Numbers, in as many bytes as their types have, the least byte first; and flags.

use crate::coded::{Put, Take};
use crate::faults::DecodeFault;
use std::alloc::{AllocError, Global};

impl Put for u8 {
    ghost use Rattle.rc_codec.specs.Parts.{byte};

    ghost code = { byte };

    #[tactic(auto, using(crate::proofs::Beginning::begins_same))]
    fn put(&self, out: &mut Vec<u8>) -> Result<(), AllocError> {
        out.push(*self)?;
        Ok(())
    }
}

impl Take for u8 {
    ghost use Rattle.rc_codec.specs.Fields.{u8_at};

    ghost read = { u8_at };

    fn take(_alloc: Global, bytes: &[u8]) -> Result<(u8, &[u8]), DecodeFault> {
        match bytes {
            [a, rest @ ..] => Ok((*a, rest)),
            [] => Err(DecodeFault::Malformed),
        }
    }
}

impl Put for u16 {
    ghost use Rattle.rc_codec.specs.Parts.{two_bytes};

    ghost code = { two_bytes };

    #[tactic(auto, using(crate::proofs::Beginning::begins_same))]
    fn put(&self, out: &mut Vec<u8>) -> Result<(), AllocError> {
        out.extend_from_slice(&self.to_le_bytes())?;
        Ok(())
    }
}

impl Take for u16 {
    ghost use Rattle.rc_codec.specs.Fields.{u16_at};

    ghost read = { u16_at };

    #[tactic(auto, using(crate::proofs::Digits::number_short))]
    fn take(_alloc: Global, bytes: &[u8]) -> Result<(u16, &[u8]), DecodeFault> {
        match bytes {
            [a, b, rest @ ..] => Ok((u16::from_le_bytes([*a, *b]), rest)),
            _ => Err(DecodeFault::Malformed),
        }
    }
}

impl Put for u32 {
    ghost use Rattle.rc_codec.specs.Parts.{four_bytes};

    ghost code = { four_bytes };

    #[tactic(auto, using(crate::proofs::Beginning::begins_same, crate::proofs::Digits::four_are_le))]
    fn put(&self, out: &mut Vec<u8>) -> Result<(), AllocError> {
        out.extend_from_slice(&self.to_le_bytes())?;
        Ok(())
    }
}

impl Take for u32 {
    ghost use Rattle.rc_codec.specs.Fields.{u32_at};

    ghost read = { u32_at };

    #[tactic(auto, using(crate::proofs::Digits::number_short))]
    fn take(_alloc: Global, bytes: &[u8]) -> Result<(u32, &[u8]), DecodeFault> {
        match bytes {
            [a, b, c, d, rest @ ..] => Ok((u32::from_le_bytes([*a, *b, *c, *d]), rest)),
            _ => Err(DecodeFault::Malformed),
        }
    }
}

impl Put for u64 {
    ghost use Rattle.rc_codec.specs.Parts.{eight_bytes};

    ghost code = { eight_bytes };

    #[tactic(auto, using(crate::proofs::Beginning::begins_same, crate::proofs::Digits::eight_are_le))]
    fn put(&self, out: &mut Vec<u8>) -> Result<(), AllocError> {
        out.extend_from_slice(&self.to_le_bytes())?;
        Ok(())
    }
}

impl Take for u64 {
    ghost use Rattle.rc_codec.specs.Fields.{u64_at};

    ghost read = { u64_at };

    #[tactic(auto, using(crate::proofs::Digits::number_short))]
    fn take(_alloc: Global, bytes: &[u8]) -> Result<(u64, &[u8]), DecodeFault> {
        match bytes {
            [a, b, c, d, e, f, g, h, rest @ ..] => {
                let number = u64::from_le_bytes([*a, *b, *c, *d, *e, *f, *g, *h]);
                Ok((number, rest))
            }
            _ => Err(DecodeFault::Malformed),
        }
    }
}

/// In eight bytes.
impl Put for usize {
    ghost use Rattle.rc_codec.specs.Parts.{eight_bytes};

    ghost code = { eight_bytes };

    fn put(&self, out: &mut Vec<u8>) -> Result<(), AllocError> {
        (*self as u64).put(out)
    }
}

impl Take for usize {
    ghost use Rattle.rc_codec.specs.Fields.{u64_at};

    ghost read = { u64_at };

    fn take(alloc: Global, bytes: &[u8]) -> Result<(usize, &[u8]), DecodeFault> {
        let (number, rest) = u64::take(alloc, bytes)?;
        Ok((number as usize, rest))
    }
}

/// 1 where it holds, 0 where it doesn't.
impl Put for bool {
    ghost use Rattle.rc_codec.specs.Parts.{flag};

    ghost code = { flag };

    #[tactic(auto, using(crate::proofs::Beginning::begins_same))]
    fn put(&self, out: &mut Vec<u8>) -> Result<(), AllocError> {
        let byte = if *self { 1 } else { 0 };
        out.push(byte)?;
        Ok(())
    }
}

impl Take for bool {
    ghost use Rattle.rc_codec.specs.Reading.{flag_at};

    ghost read = { flag_at };

    fn take(_alloc: Global, bytes: &[u8]) -> Result<(bool, &[u8]), DecodeFault> {
        match bytes {
            [0, rest @ ..] => Ok((false, rest)),
            [1, rest @ ..] => Ok((true, rest)),
            _ => Err(DecodeFault::Malformed),
        }
    }
}
