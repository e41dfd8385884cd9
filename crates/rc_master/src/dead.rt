//! Which segments of a log are dead.

ghost use Rattle.std.specs.Prelude.{◌≡◌, ◌<◌, true, false, take, map, IfOk};
ghost use Rattle.rc_model.specs.Log.{entries_of};
ghost use Rattle.rc_model.specs.Versions.{is_dead};
ghost use Rattle.rc_model.specs.Master.{is_dead_segment, dead_segments};
ghost use Rattle.rc_headroll.specs.LogData.{log_of};
ghost use Rattle.rc_ownership.specs.Owner.{durable_of};
ghost use Rattle.rc_master.specs.Keeper.{keeper};

use rc_headroll::LogHead;
use rc_ownership::Ownership;
use std::alloc::{AllocError, Global};

/// The dead segments of the head's digest, where the master frees any.
pub(crate) fn dead_segments(
    alloc: Global,
    free: bool,
    log: &mut LogHead,
    ownership: &mut Ownership,
) -> Result<Vec<u16>, AllocError>
    requires durable { durable_of ownership.old ≡ take (log_of log.old).durable (entries_of (log_of log.old)) }
    requires some { 0 < (log_of log.old).head }
    ensures dead { IfOk result (λ segs. segs.items ≡ dead_segments (keeper free (log_of log.old))) }
    ensures log { log.new ≡ log.old }
    ensures same { ownership.new ≡ ownership.old }
{
    let mut dead = Vec::new(alloc);
    if !free {
        return Ok(dead);
    }
    ownership.watch_groups(alloc);
    let digest = log.newest().share_digest()?;
    let segs = digest.as_slice();
    for seg in segs {
        if is_dead_segment(*seg, log, ownership) {
            dead.push(*seg)?;
        }
    }
    Ok(dead)
}

/// Whether the segment is shut and each of its entries has a greater version of its key under its term among
/// the durable ones. One that is found to have none is kept in mind.
fn is_dead_segment(seg: u16, log: &mut LogHead, ownership: &Ownership) -> bool
    requires { durable_of ownership.now ≡ take (log_of log.old).durable (entries_of (log_of log.old)) }
    ensures dead { result ≡ is_dead_segment (keeper true (log_of log.old)) seg }
    ensures log { log.new ≡ log.old }
{
    if is_known_alive(seg, log, ownership) {
        return false;
    }
    let Some(segment) = log.segment(seg) else {
        return false;
    };
    if !segment.is_shut() {
        return false;
    }
    let start = log.found(seg).map_or(0, |found| found.offset);
    let Some(offset) = ownership.find_alive(segment.entries(), start) else {
        return true;
    };
    log.keep_found(seg, offset, ownership.durable());
    false
}

/// Whether an entry of the segment was found that is still known not to be outdated. It is no walk.
fn is_known_alive(seg: u16, log: &LogHead, ownership: &Ownership) -> bool
    requires { durable_of ownership.now ≡ take (log_of log.now).durable (entries_of (log_of log.now)) }
    ensures { result ≡ true → is_dead (durable_of ownership.now)
        (map (λ one. one.0) ((log_of log.now).segments seg).entries) ≡ false }
{
    match log.found(seg) {
        Some(found) => ownership.is_quiet(found.group, found.durable),
        None => false,
    }
}
