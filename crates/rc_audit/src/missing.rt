//! Nothing acknowledged is missing.

ghost use Rattle.std.specs.Prelude.{◌≡◌, ◌≤◌, ◌↔◌, List, ℕ, true, None, IfOk, unwrap_or};
ghost use Rattle.std.specs.Ordering.{nat_cmp};
ghost use Rattle.std.specs.BTreeMap.{get};
ghost use Rattle.rc_model.specs.Recovered.{acknowledged, all_acknowledged, accepted};
ghost use Rattle.rc_model.specs.Breach.{is_missing as is_missing_from, missing_of};
ghost use Rattle.rc_model.specs.Breach.{first_missing as first_missing_of};
ghost use Rattle.rc_audit.specs.Writes.{ack_of};
ghost use Rattle.rc_audit.specs.Recoveries.{accepted_of, HasReaches};
ghost use Rattle.rc_types.specs.declared.messages.Message.{Message};
ghost use Rattle.rc_audit.specs.Clean.{AreClean};
ghost use Rattle.rc_audit.specs.Senders.{AreSenders, messages_in, sent_by};
ghost use Rattle.rc_audit.specs.Superseded.{HasSuperseded};
ghost use Rattle.rc_audit.specs.Standings.{kept_at, below_at, one_above, StandsFor};

use crate::evidence::Evidence;
use crate::highs::{Highs, has_above};
use crate::recoveries::{BySegment, Recovery, number_of, reaches, recovery_in};
use crate::senders::{Senders, Sent};
use crate::standing::Standings;
use crate::superseded::recovered_highs;
use crate::writes::{AckedWrite, write_in};
use rc_types::{Breach, PlanRow, ServerId};
use std::alloc::{AllocError, Global};
use std::collections::BTreeMap;

/// What the number of rows is made with: odd, and its bits are spread.
const MIX: u64 = 0x9e37_79b9_7f4a_7c15;

/// Whether each of these offsets is below what is reached of its segment.
fn is_covered(tops: &BySegment, reaches: &BySegment) -> bool
    ensures { (result ≡ true) ↔ ((s : ℕ) →
        one_above (get nat_cmp tops.now s) ≤ unwrap_or (get nat_cmp reaches.now s) 0) }
{
    for (seg, top) in tops {
        if number_of(reaches, *seg) <= *top {
            return false;
        }
    }
    true
}

/// Whether no acknowledged write of this master is missing from what is reached.
fn is_kept(standings: &Standings, master: ServerId, reaches: &BySegment) -> bool
    ensures { (result ≡ true) ↔ ((kept_at standings.now master ≡ true) × ((s : ℕ) →
        below_at standings.now master s ≤ unwrap_or (get nat_cmp reaches.now s) 0)) }
{
    match standings.get(&master) {
        None => true,
        Some(standing) => standing.all_agree && is_covered(&standing.tops, reaches),
    }
}

/// Whether this acknowledged write of the recovery's master is missing from it.
fn is_missing(
    evidence: &Evidence<'_>,
    recovery: &Recovery<'_>,
    reaches: &BySegment,
    highs: &Highs,
    write: &AckedWrite,
) -> bool
    requires reached { HasReaches reaches.now recovery.now.rows.now }
    requires superseded { HasSuperseded highs.now evidence.now.messages.now (accepted_of recovery.now) }
    ensures { result ≡ is_missing_from evidence.now.messages.now
        (accepted_of recovery.now) (ack_of write.now) }
{
    let is_held = write.offset < number_of(reaches, write.seg);
    if !is_held && !has_above(highs, write.term_key(), write.version) {
        return true;
    }
    !evidence.all_agree(recovery.master, write)
}

/// The first acknowledged write of the recovery's master that is missing from it.
fn first_missing(
    evidence: &Evidence<'_>,
    sent: &Sent<'_>,
    recovery: &Recovery<'_>,
    reaches: &BySegment,
    highs: &Highs,
) -> Option<Breach>
    requires reached { HasReaches reaches.now recovery.now.rows.now }
    requires superseded { HasSuperseded highs.now evidence.now.messages.now (accepted_of recovery.now) }
    ensures { result ≡ first_missing_of evidence.now.messages.now (accepted_of recovery.now)
        (all_acknowledged (messages_in sent.now)) }
{
    for message in sent.messages.iter() {
        let Some(write) = write_in(&message.body) else {
            continue;
        };
        if is_missing(evidence, recovery, reaches, highs, &write) {
            return Some(Breach::Missing {
                attempt: recovery.attempt,
                master: recovery.master,
                seg: write.seg,
                offset: write.offset,
            });
        }
    }
    None
}

/// The first write that is missing from this recovery, whose master sent these messages.
fn missing_among(
    alloc: Global,
    evidence: &Evidence<'_>,
    sent: &Sent<'_>,
    recovery: &Recovery<'_>,
    reaches: &BySegment,
) -> Result<Option<Breach>, AllocError>
    requires reached { HasReaches reaches.now recovery.now.rows.now }
    requires sent { messages_in sent.now ≡ sent_by recovery.now.master evidence.now.messages.now }
    ensures { IfOk result (λ found. found ≡
        first_missing_of evidence.now.messages.now (accepted_of recovery.now)
        (acknowledged evidence.now.messages.now recovery.now.master)) }
{
    let highs = recovered_highs(alloc, sent, recovery, reaches)?;
    Ok(first_missing(evidence, sent, recovery, reaches, &highs))
}

/// The first write that is missing from this recovery. A recovery is mostly seen to miss nothing by
/// the standing of its master alone; the messages of the master are gone over for one in which not
/// each acknowledged place is.
fn missing_from(
    alloc: Global,
    evidence: &Evidence<'_>,
    senders: &Senders<'_>,
    standings: &Standings,
    recovery: &Recovery<'_>,
) -> Result<Option<Breach>, AllocError>
    requires senders { AreSenders senders.now evidence.now.messages.now }
    requires standings { StandsFor standings.now evidence.now.messages.now
        (acknowledged evidence.now.messages.now) }
    ensures { IfOk result (λ found. found ≡
        first_missing_of evidence.now.messages.now (accepted_of recovery.now)
        (acknowledged evidence.now.messages.now recovery.now.master)) }
{
    let reaches = reaches(alloc, recovery.rows)?;
    if is_kept(standings, recovery.master, &reaches) {
        return Ok(None);
    }
    let Some(sent) = senders.get(&recovery.master) else {
        return Ok(None);
    };
    missing_among(alloc, evidence, sent, recovery, &reaches)
}

/// The rows of a recovery that was seen to miss nothing.
#[derive(Clone, Copy)]
pub struct Clean<'a> {
    /// The rows.
    pub rows: &'a [PlanRow],
}

/// Under what a recovery that was seen to miss nothing is found again: its master, and a number made of its rows.
#[derive(Clone, Copy, PartialEq, Eq, PartialOrd, Ord)]
pub struct CleanKey {
    /// The master.
    pub master: ServerId,
    /// The number.
    pub mark: u64,
}

/// The number goes on by one more number of a row.
fn mixed(mark: u64, number: u64) -> u64 {
    (mark ^ number).wrapping_mul(MIX).rotate_left(29)
}

/// A number made of the rows. Other rows mostly have another one; that they are the same is looked at itself.
fn mark_of(rows: &[PlanRow]) -> u64 {
    let mut mark = MIX;
    for row in rows {
        let holder = u64::from(row.holder.generation) << 8 | u64::from(row.holder.index);
        mark = mixed(mark, u64::from(row.seg));
        mark = mixed(mark, holder);
        mark = mixed(mark, row.len as u64);
    }
    mark
}

/// Under what this recovery is found again.
fn key_of(recovery: &Recovery<'_>) -> CleanKey
    ensures { result.master ≡ recovery.now.master }
{
    CleanKey {
        master: recovery.master,
        mark: mark_of(recovery.rows),
    }
}

/// Whether a recovery of this master with these rows was seen to miss nothing.
fn is_clean(clean: &BTreeMap<CleanKey, Clean<'_>>, key: CleanKey, recovery: &Recovery<'_>) -> bool
    requires { key.master ≡ recovery.now.master }
    ensures { result ≡ true → (sent : List Message) → AreClean clean.now sent →
        first_missing_of sent (accepted_of recovery.now) (acknowledged sent recovery.now.master) ≡ None }
{
    match clean.get(&key).copied() {
        None => false,
        Some(clean) => clean.rows == recovery.rows,
    }
}

/// The first write that is missing from a recovery, of the first recovery that misses one. A
/// recovery with the rows of an earlier one of the same master needs no second look.
pub(crate) fn missing_write(
    alloc: Global,
    evidence: &Evidence<'_>,
    senders: &Senders<'_>,
    standings: &Standings,
) -> Result<Option<Breach>, AllocError>
    requires senders { AreSenders senders.now evidence.now.messages.now }
    requires standings { StandsFor standings.now evidence.now.messages.now
        (acknowledged evidence.now.messages.now) }
    ensures { IfOk result (λ found. found ≡
        missing_of evidence.now.messages.now (accepted evidence.now.messages.now)) }
{
    let mut clean = BTreeMap::new(alloc);
    for message in evidence.messages {
        let Some(recovery) = recovery_in(&message.body) else {
            continue;
        };
        let key = key_of(&recovery);
        if is_clean(&clean, key, &recovery) {
            continue;
        }
        let missing = missing_from(alloc, evidence, senders, standings, &recovery)?;
        if missing.is_some() {
            return Ok(missing);
        }
        let rows = recovery.rows;
        clean.insert(key, Clean { rows })?;
    }
    Ok(None)
}
