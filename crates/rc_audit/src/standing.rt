//! What the acknowledged writes of each master ask of a recovery of it.

ghost use Rattle.std.specs.Prelude.{◌≡◌, OnOk, IfOk};
ghost use Rattle.rc_model.specs.Recovered.{acknowledged};
ghost use Rattle.rc_audit.specs.Writes.{ack_of};
ghost use Rattle.rc_audit.specs.Standings.{StandsFor, AddsWrite};

use crate::evidence::Evidence;
use crate::recoveries::{BySegment, raise};
use crate::writes::{AckedWrite, acked_in};
use rc_types::ServerId;
use std::alloc::{AllocError, Global};
use std::collections::BTreeMap;

/// The acknowledged writes of one master, taken together.
#[derive(Drop)]
pub struct Standing {
    /// Whether all that was sent for the place of each is that write.
    pub all_agree: bool,
    /// The greatest acknowledged offset of each segment that has one.
    pub tops: BySegment,
}

/// The standing of each master that has acknowledged a write.
pub type Standings = BTreeMap<ServerId, Standing>;

/// Notes one acknowledged write of this master.
fn note_write(
    alloc: Global,
    standings: &mut Standings,
    master: ServerId,
    write: &AckedWrite,
    agrees: bool,
) -> Result<(), AllocError>
    ensures { OnOk result
        (AddsWrite standings.old standings.new master (ack_of write.now) agrees) }
{
    let mut standing = match standings.remove(&master) {
        Some(standing) => standing,
        None => Standing {
            all_agree: true,
            tops: BTreeMap::new(alloc),
        },
    };
    standing.all_agree = standing.all_agree && agrees;
    raise(&mut standing.tops, write.seg, write.offset)?;
    standings.insert(master, standing)?;
    Ok(())
}

/// The standing of each master in these messages.
pub fn standings_in(alloc: Global, evidence: &Evidence<'_>) -> Result<Standings, AllocError>
    ensures { IfOk result (λ standings. StandsFor standings evidence.now.messages.now
        (acknowledged evidence.now.messages.now)) }
{
    let mut standings = BTreeMap::new(alloc);
    for message in evidence.messages {
        let Some((master, write)) = acked_in(message) else {
            continue;
        };
        let agrees = evidence.all_agree(master, &write);
        note_write(alloc, &mut standings, master, &write, agrees)?;
    }
    Ok(standings)
}
