//! Several fields, one after the other.

ghost use Rattle.std.specs.Prelude.{◌++◌};
ghost use Rattle.rc_codec.specs.Reading.{◌⊗◌, three, four, five, six};

use crate::coded::{Put, Take};
use crate::faults::DecodeFault;
use std::alloc::{AllocError, Global};

impl<A: Put, B: Put> Put for (A, B) {
    ghost code = { λ p. A.code p.0 ++ B.code p.1 };

    #[tactic(auto, using(crate::proofs::Beginning::begins_after))]
    fn put(&self, out: &mut Vec<u8>) -> Result<(), AllocError> {
        self.0.put(out)?;
        self.1.put(out)
    }
}

impl<A: Put, B: Put, C: Put> Put for (A, B, C) {
    ghost code = { λ p. A.code p.0 ++ B.code p.1 ++ C.code p.2 };

    fn put(&self, out: &mut Vec<u8>) -> Result<(), AllocError> {
        ((&self.0, &self.1), &self.2).put(out)
    }
}

impl<A: Put, B: Put, C: Put, D: Put> Put for (A, B, C, D) {
    ghost code = { λ p. A.code p.0 ++ B.code p.1 ++ C.code p.2 ++ D.code p.3 };

    fn put(&self, out: &mut Vec<u8>) -> Result<(), AllocError> {
        ((&self.0, &self.1, &self.2), &self.3).put(out)
    }
}

impl<A: Put, B: Put, C: Put, D: Put, E: Put> Put for (A, B, C, D, E) {
    ghost code = { λ p. A.code p.0 ++ B.code p.1 ++ C.code p.2 ++ D.code p.3 ++ E.code p.4 };

    fn put(&self, out: &mut Vec<u8>) -> Result<(), AllocError> {
        ((&self.0, &self.1, &self.2, &self.3), &self.4).put(out)
    }
}

impl<A: Put, B: Put, C: Put, D: Put, E: Put, F: Put> Put for (A, B, C, D, E, F) {
    ghost code = { λ p. A.code p.0 ++ B.code p.1 ++ C.code p.2 ++ D.code p.3 ++ E.code p.4 ++ F.code p.5 };

    fn put(&self, out: &mut Vec<u8>) -> Result<(), AllocError> {
        ((&self.0, &self.1, &self.2, &self.3, &self.4), &self.5).put(out)
    }
}

impl<A: Take + Drop, B: Take + Drop> Take for (A, B) {
    ghost read = { A.read ⊗ B.read };

    fn take(alloc: Global, bytes: &[u8]) -> Result<((A, B), &[u8]), DecodeFault> {
        let (a, rest) = A::take(alloc, bytes)?;
        let (b, rest) = B::take(alloc, rest)?;
        Ok(((a, b), rest))
    }
}

impl<A: Take + Drop, B: Take + Drop, C: Take + Drop> Take for (A, B, C) {
    ghost read = { three A.read B.read C.read };

    fn take(alloc: Global, bytes: &[u8]) -> Result<((A, B, C), &[u8]), DecodeFault> {
        let (((a, b), c), rest) = <((A, B), C)>::take(alloc, bytes)?;
        Ok(((a, b, c), rest))
    }
}

impl<A: Take + Drop, B: Take + Drop, C: Take + Drop, D: Take + Drop> Take for (A, B, C, D) {
    ghost read = { four A.read B.read C.read D.read };

    fn take(alloc: Global, bytes: &[u8]) -> Result<((A, B, C, D), &[u8]), DecodeFault> {
        let (((a, b, c), d), rest) = <((A, B, C), D)>::take(alloc, bytes)?;
        Ok(((a, b, c, d), rest))
    }
}

impl<A: Take + Drop, B: Take + Drop, C: Take + Drop, D: Take + Drop, E: Take + Drop> Take
    for (A, B, C, D, E) {
    ghost read = { five A.read B.read C.read D.read E.read };

    fn take(alloc: Global, bytes: &[u8]) -> Result<((A, B, C, D, E), &[u8]), DecodeFault> {
        let (((a, b, c, d), e), rest) = <((A, B, C, D), E)>::take(alloc, bytes)?;
        Ok(((a, b, c, d, e), rest))
    }
}

impl<
    A: Take + Drop,
    B: Take + Drop,
    C: Take + Drop,
    D: Take + Drop,
    E: Take + Drop,
    F: Take + Drop,
> Take for (A, B, C, D, E, F) {
    ghost read = { six A.read B.read C.read D.read E.read F.read };

    fn take(alloc: Global, bytes: &[u8]) -> Result<((A, B, C, D, E, F), &[u8]), DecodeFault> {
        let (((a, b, c, d, e), f), rest) = <((A, B, C, D, E), F)>::take(alloc, bytes)?;
        Ok(((a, b, c, d, e, f), rest))
    }
}
