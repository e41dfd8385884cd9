//! Bytes that are one work, and nothing behind it.

ghost use Rattle.std.specs.Prelude.{◌≡◌, ◌⊎◌, Ok, Err, IfOk, IfErr};
ghost use Rattle.rc_types.specs.declared.events.NodeWork.{NodeWork as Given};
ghost use Rattle.rc_codec.specs.declared.faults.DecodeFault.TheVariants.{Malformed, OutOfMemory};
ghost use Rattle.rc_keeping.specs.Spelling.{coded_work};
ghost use Rattle.rc_session.specs.Claims.{IsNoWork};

use rc_codec::DecodeFault;
use rc_keeping::decode_work;
use rc_types::NodeWork;
use std::alloc::Global;

/// The work that these bytes are.
///
/// # Errors
///
/// `Malformed`: they are none, or one and more. `OutOfMemory`: memory was refused.
pub(crate) fn whole_work(alloc: Global, bytes: &[u8]) -> Result<NodeWork, DecodeFault>
    ensures coded { IfOk result (λ work. bytes.now ≡ coded_work work) }
    ensures found { (work : Given) → bytes.now ≡ coded_work work →
        (result ≡ Ok work) ⊎ (result ≡ Err OutOfMemory) }
    ensures malformed { IfErr result (λ fault. fault ≡ Malformed → IsNoWork bytes.now) }
{
    match decode_work(alloc, bytes) {
        Ok((work, count)) => {
            if count == bytes.len() {
                Ok(work)
            } else {
                Err(DecodeFault::Malformed)
            }
        }
        Err(fault) => Err(fault),
    }
}
