//! The different segments of a digest, ascending.

ghost use Rattle.std.specs.Prelude.{◌≡◌, IfOk, IfErr};
ghost use Rattle.rc_model.specs.Ascending.{ascending};

use rc_types::Fault;
use std::alloc::Global;

/// The different segments of a digest, ascending.
pub fn ascending(alloc: Global, digest: &[u16]) -> Result<Vec<u16>, Fault>
    ensures ok { IfOk result (λ segs. segs.items ≡ ascending digest.now) }
    ensures err { IfErr result (λ e. e ≡ Fault.OutOfMemory) }
{
    let mut segs = digest.to_vec(alloc)?;
    segs.sort_unstable();
    segs.dedup();
    Ok(segs)
}
