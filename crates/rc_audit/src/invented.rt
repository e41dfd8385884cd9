//! Nothing recovered is invented.

ghost use Rattle.std.specs.Prelude.{◌≡◌, List, IfOk};
ghost use Rattle.rc_types.specs.declared.messages.Message.{Message};
ghost use Rattle.rc_model.specs.Ascending.{ascending};
ghost use Rattle.rc_model.specs.Recovered.{accepted};
ghost use Rattle.rc_model.specs.Breach.{first_invented, first_invented_from};
ghost use Rattle.rc_model.specs.Breach.{invented_of, segments_of};
ghost use Rattle.rc_audit.specs.Recoveries.{accepted_of};
ghost use Rattle.rc_audit.specs.Runs.{AreRuns};

use crate::evidence::Evidence;
use crate::recoveries::{Recovery, number_of, reaches, recovery_in};
use crate::runs::{Runs, run_of};
use rc_types::Breach;
use std::alloc::{AllocError, Global};

/// The first place of the segment below `reach` that was not made one way: the one after its run.
fn invented_in_segment(
    runs: &Runs,
    recovery: &Recovery<'_>,
    seg: u16,
    reach: usize,
) -> Option<Breach>
    ensures { (sent : List Message) → AreRuns runs.now sent →
        result ≡ first_invented_from sent (accepted_of recovery.now) seg 0 reach }
{
    let run = run_of(runs, recovery.master, seg);
    if reach <= run {
        return None;
    }
    Some(Breach::Invented {
        attempt: recovery.attempt,
        master: recovery.master,
        seg,
        offset: run,
    })
}

/// The first place of this recovery that was not made one way.
fn invented_in(
    alloc: Global,
    runs: &Runs,
    recovery: &Recovery<'_>,
) -> Result<Option<Breach>, AllocError>
    ensures { IfOk result (λ found. (sent : List Message) → AreRuns runs.now sent → found ≡
        first_invented sent (accepted_of recovery.now) (ascending (segments_of recovery.now.rows.now))) }
{
    let reaches = reaches(alloc, recovery.rows)?;
    for seg in reaches.keys() {
        let reach = number_of(&reaches, *seg);
        let invented = invented_in_segment(runs, recovery, *seg, reach);
        if invented.is_some() {
            return Ok(invented);
        }
    }
    Ok(None)
}

/// The first place of a recovery that was not made one way, of the first recovery that has one.
pub(crate) fn invented_place(
    alloc: Global,
    evidence: &Evidence<'_>,
    runs: &Runs,
) -> Result<Option<Breach>, AllocError>
    requires { AreRuns runs.now evidence.now.messages.now }
    ensures { IfOk result (λ found. found ≡
        invented_of evidence.now.messages.now (accepted evidence.now.messages.now)) }
{
    for message in evidence.messages {
        let Some(recovery) = recovery_in(&message.body) else {
            continue;
        };
        let invented = invented_in(alloc, runs, &recovery)?;
        if invented.is_some() {
            return Ok(invented);
        }
    }
    Ok(None)
}
