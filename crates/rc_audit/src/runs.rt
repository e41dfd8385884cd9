//! How many places of each segment, from its first on, were made one way.

ghost use Rattle.std.specs.Prelude.{◌≡◌, IfOk};
ghost use Rattle.rc_audit.specs.Runs.{run_at, IsRun, AreRuns};

use crate::evidence::Evidence;
use rc_types::ServerId;
use std::alloc::{AllocError, Global};
use std::collections::BTreeMap;

/// A segment of a master's log.
#[derive(Clone, Copy, PartialEq, Eq, PartialOrd, Ord)]
pub struct SegmentKey {
    /// The master.
    pub master: ServerId,
    /// The segment.
    pub seg: u16,
}

/// For each segment, how many places from its first on were made one way.
pub type Runs = BTreeMap<SegmentKey, usize>;

/// The run of this segment.
pub fn run_of(runs: &Runs, master: ServerId, seg: u16) -> usize
    ensures { result ≡ run_at runs.now master seg }
{
    let segment = SegmentKey { master, seg };
    runs.get(&segment).copied().unwrap_or(0)
}

/// How many places of this segment, from its first on, were made one way.
fn count_run(evidence: &Evidence<'_>, master: ServerId, seg: u16) -> usize
    ensures { IsRun evidence.now.messages.now master seg result }
{
    for offset in 0..usize::MAX {
        if !evidence.is_made_one_way(master, seg, offset) {
            return offset;
        }
    }
    usize::MAX
}

/// The runs of all segments. A segment of which the first place was not made has none.
pub fn runs_in(alloc: Global, evidence: &Evidence<'_>) -> Result<Runs, AllocError>
    ensures { IfOk result (λ runs. AreRuns runs evidence.now.messages.now) }
{
    let mut runs = BTreeMap::new(alloc);
    for place in evidence.made.keys() {
        if place.offset == 0 {
            let (master, seg) = (place.master, place.seg);
            let run = count_run(evidence, master, seg);
            runs.insert(SegmentKey { master, seg }, run)?;
        }
    }
    Ok(runs)
}
