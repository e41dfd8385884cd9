//! A full head is rolled.

ghost use Rattle.std.specs.Prelude.{◌≡◌, ◌<◌, ◌++◌, ◌⊎◌, true, take, Ok, Err, OnOk, IfErr};
ghost use Rattle.rc_types.specs.declared.faults.Fault.TheVariants.{OutOfMemory};
ghost use Rattle.rc_model.specs.Log.{entries_of, is_writing};
ghost use Rattle.rc_model.specs.Heads.{begin_roll};
ghost use Rattle.rc_model.specs.Master.{dead_segments, places_head};
ghost use Rattle.rc_headroll.specs.LogData.{log_of, before_of};
ghost use Rattle.rc_ownership.specs.Owner.{durable_of};
ghost use Rattle.rc_master.specs.Keeper.{keeper};

use crate::dead::dead_segments;
use crate::placing::add_head_places;
use rc_headroll::LogHead;
use rc_ownership::Ownership;
use rc_serverlist::ServerList;
use rc_types::{Fault, Message};
use std::alloc::Global;

/// A roll begins: the next head, whose digest leaves out the dead segments where the master frees any, is opened
/// on the servers that `choose` names, and its Places are sent.
///
/// # Errors
///
/// F6 exactly where the head is the last segment, else F4 exactly where `choose` finds too few: then nothing has
/// changed. Else only memory can be refused (F1).
pub(crate) fn roll(
    alloc: Global,
    servers: &ServerList,
    free: bool,
    log: &mut LogHead,
    ownership: &mut Ownership,
    sent: &mut Vec<Message>,
) -> Result<(), Fault>
    requires writing { is_writing log.old.phase ≡ true }
    requires some { 0 < (log_of log.old).head }
    requires durable { durable_of ownership.old ≡ take (log_of log.old).durable (entries_of (log_of log.old)) }
    ensures ok { OnOk result (begin_roll servers.now (dead_segments (keeper free (log_of log.old))) (log_of log.old)
        ≡ (log_of log.new, Ok true)) }
    ensures sends { OnOk result (sent.new.items ≡ sent.old.items ++ places_head (log_of log.new)) }
    ensures err { IfErr result (λ fault. (fault ≡ OutOfMemory)
        ⊎ (begin_roll servers.now (dead_segments (keeper free (log_of log.old))) (log_of log.old)
        ≡ (log_of log.new, Err fault))) }
    ensures unchanged { IfErr result (λ fault. (fault ≡ OutOfMemory)
        ⊎ ((log.new ≡ log.old) × (sent.new.items ≡ sent.old.items))) }
    ensures before { before_of log.new ≡ before_of log.old }
    ensures same { ownership.new ≡ ownership.old }
{
    let dead = dead_segments(alloc, free, log, ownership)?;
    log.begin_roll(alloc, servers, dead.as_slice())?;
    add_head_places(alloc, log, sent)?;
    Ok(())
}
