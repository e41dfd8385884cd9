//! The greatest versions that a recovery has of the keys of its log.

ghost use Rattle.std.specs.Prelude.{◌≡◌, ◌&&◌, nat_lt, OnOk, IfOk};
ghost use Rattle.rc_model.specs.Recovered.{Ack};
ghost use Rattle.rc_model.specs.Breach.{holds_greater, is_greater};
ghost use Rattle.rc_audit.specs.Recoveries.{HasReaches};
ghost use Rattle.rc_audit.specs.Senders.{messages_in};
ghost use Rattle.rc_audit.specs.Superseded.{Supersedes, greater_below, says_above, superseded_in};

use crate::highs::{Highs, key_of, note_version};
use crate::recoveries::{BySegment, Recovery, number_of};
use crate::senders::Sent;
use rc_types::{Body, Entry, Message};
use std::alloc::{AllocError, Global};
use std::collections::BTreeMap;

/// Notes the version of the entry at this offset, where that is below `reach`.
fn note_entry(
    highs: &mut Highs,
    offset: usize,
    entry: &Entry,
    reach: usize,
) -> Result<(), AllocError>
    ensures { OnOk result
        (Supersedes highs.old highs.new (λ ack. nat_lt offset reach && is_greater ack entry.now)) }
{
    if offset < reach {
        note_version(highs, key_of(entry), entry.version)?;
    }
    Ok(())
}

/// Notes the versions of the entries below `reach`, of those that were sent together, of which the
/// first stands at `start`.
fn note_entries(
    highs: &mut Highs,
    start: usize,
    entries: &[Entry],
    reach: usize,
) -> Result<(), AllocError>
    ensures { OnOk result
        (Supersedes highs.old highs.new (λ ack. greater_below reach ack start entries.now)) }
{
    for (index, entry) in entries.iter().enumerate() {
        note_entry(highs, start.saturating_add(index), entry, reach)?;
    }
    Ok(())
}

/// Notes the versions of the entries that this message sends for places that are recovered.
fn note_message(
    highs: &mut Highs,
    recovery: &Recovery<'_>,
    reaches: &BySegment,
    message: &Message,
) -> Result<(), AllocError>
    requires { HasReaches reaches.now recovery.now.rows.now }
    ensures { OnOk result (Supersedes highs.old highs.new
        (λ ack. holds_greater recovery.now.rows.now ack message.now.body)) }
{
    match &message.body {
        Body::Place { seg, entries, .. } => {
            let reach = number_of(reaches, *seg);
            note_entries(highs, 0, entries.as_slice(), reach)?;
            Ok(())
        }
        Body::Append {
            seg,
            offset,
            entries,
        } => {
            let reach = number_of(reaches, *seg);
            note_entries(highs, *offset, entries.as_slice(), reach)?;
            Ok(())
        }
        _ => Ok(()),
    }
}

/// The greatest version of each key under each term, of the entries that these messages send for
/// places that the recovery has.
pub fn recovered_highs(
    alloc: Global,
    sent: &Sent<'_>,
    recovery: &Recovery<'_>,
    reaches: &BySegment,
) -> Result<Highs, AllocError>
    requires { HasReaches reaches.now recovery.now.rows.now }
    ensures { IfOk result (λ highs. (ack : Ack) → says_above highs ack ≡
        superseded_in recovery.now.rows.now (messages_in sent.now) ack) }
{
    let mut highs = BTreeMap::new(alloc);
    for message in sent.messages.iter() {
        note_message(&mut highs, recovery, reaches, message)?;
    }
    Ok(highs)
}
