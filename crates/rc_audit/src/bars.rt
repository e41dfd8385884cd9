//! The greatest version of a key that was acknowledged under the terms before a term.

ghost use Rattle.std.specs.Prelude.{◌≡◌, List, ℕ, true, OnOk, IfOk};
ghost use Rattle.std.specs.Ordering.{nat_cmp};
ghost use Rattle.std.specs.BTreeSet.{contains};
ghost use Rattle.rc_types.specs.declared.messages.Message.{Message};
ghost use Rattle.rc_model.specs.Recovered.{ack_in};
ghost use Rattle.rc_audit.specs.Bars.{AreBars, HasLevels, IsBar, NotesAcks};
ghost use Rattle.rc_audit.specs.Grants.{AreGrants};
ghost use Rattle.rc_audit.specs.Highs.{high_at, is_level};

use crate::earlier::terms_before;
use crate::grants::Grants;
use crate::highs::{Highs, TermKey, high_of, note_version};
use crate::writes::write_in;
use rc_types::Message;
use std::alloc::{AllocError, Global};
use std::collections::{BTreeMap, BTreeSet};

/// For each key under a term that was asked for, the greatest version that was acknowledged of it
/// under an earlier term, if there is one.
pub type Bars = BTreeMap<TermKey, Option<u64>>;

/// Notes the version that this message acknowledges, if it does.
fn note_acked(highs: &mut Highs, message: &Message) -> Result<(), AllocError>
    ensures { OnOk result (NotesAcks highs.old highs.new (ack_in message.now.body)) }
{
    let Some(write) = write_in(&message.body) else {
        return Ok(());
    };
    note_version(highs, write.term_key(), write.version)?;
    Ok(())
}

/// The greatest acknowledged version of each key under each term.
pub fn acked_highs(alloc: Global, messages: &[Message]) -> Result<Highs, AllocError>
    ensures { IfOk result (λ highs. HasLevels highs messages.now) }
{
    let mut highs = BTreeMap::new(alloc);
    for message in messages {
        note_acked(&mut highs, message)?;
    }
    Ok(highs)
}

/// The greater of two greatest versions.
fn higher(one: Option<u64>, other: Option<u64>) -> Option<u64>
    ensures one { (v : ℕ) → is_level one v ≡ true → is_level result v ≡ true }
    ensures other { (v : ℕ) → is_level other v ≡ true → is_level result v ≡ true }
{
    match (one, other) {
        (None, other) => other,
        (one, None) => one,
        (Some(one), Some(other)) => Some(one.max(other)),
    }
}

/// The greatest version of this key under any of these terms.
fn highest_of(before: &BTreeSet<u32>, highs: &Highs, table: u32, key: u64) -> Option<u64>
    ensures { (term v : ℕ) → contains nat_cmp before.now term ≡ true →
        is_level (high_at highs.now (record { term = term; table = table; key = key })) v ≡ true →
        is_level result v ≡ true }
{
    let mut highest = None;
    for term in before {
        let high = high_of(
            highs,
            TermKey {
                term: *term,
                table,
                key,
            },
        );
        highest = higher(highest, high);
    }
    highest
}

/// The greatest version of this key that was acknowledged under a term before its own.
fn find_bar(
    alloc: Global,
    grants: &Grants,
    highs: &Highs,
    key: TermKey,
) -> Result<Option<u64>, AllocError>
    ensures { IfOk result (λ bar. (sent : List Message) →
        AreGrants grants.now sent → HasLevels highs.now sent → IsBar bar sent key) }
{
    let before = terms_before(alloc, grants, key.term, key.table, key.key)?;
    Ok(highest_of(&before, highs, key.table, key.key))
}

/// The same, which is found once for each key under a term.
pub fn bar_of(
    alloc: Global,
    grants: &Grants,
    highs: &Highs,
    bars: &mut Bars,
    key: TermKey,
) -> Result<Option<u64>, AllocError>
    ensures bar { IfOk result (λ bar. (sent : List Message) →
        AreGrants grants.now sent → HasLevels highs.now sent → AreBars bars.old sent → IsBar bar sent key) }
    ensures bars { OnOk result ((sent : List Message) →
        AreGrants grants.now sent → HasLevels highs.now sent → AreBars bars.old sent → AreBars bars.new sent) }
{
    if let Some(bar) = bars.get(&key).copied() {
        return Ok(bar);
    }
    let bar = find_bar(alloc, grants, highs, key)?;
    bars.insert(key, bar)?;
    Ok(bar)
}
