//! The terms that come before a term, at a point.

ghost use Rattle.std.specs.Prelude.{◌≡◌, List, [], ◌∷◌, ℕ, OnOk, IfOk};
ghost use Rattle.rc_types.specs.declared.messages.Message.{Message};
ghost use Rattle.rc_audit.specs.Earlier.{AreEarlier, Follows, NotesTerm};
ghost use Rattle.rc_audit.specs.Grants.{AreGrants, grants_at};

use crate::grants::{Grant, Grants};
use std::alloc::{AllocError, Global};
use std::collections::BTreeSet;

/// Notes a term, and that the ones before it are still to be found, where it is a new one.
fn note_term(
    before: &mut BTreeSet<u32>,
    waiting: &mut Vec<u32>,
    term: u32,
) -> Result<(), AllocError>
    ensures { OnOk result (NotesTerm before.old before.new waiting.old.items waiting.new.items term) }
{
    if before.insert(term)? {
        waiting.push(term)?;
    }
    Ok(())
}

/// Notes the previous term of a grant that holds the point.
fn follow_grant(
    grant: &Grant,
    table: u32,
    key: u64,
    before: &mut BTreeSet<u32>,
    waiting: &mut Vec<u32>,
) -> Result<(), AllocError>
    ensures { OnOk result (Follows table key (grant.now ∷ [])
        before.old before.new waiting.old.items waiting.new.items) }
{
    if grant.range.holds(table, key) {
        note_term(before, waiting, grant.previous)?;
    }
    Ok(())
}

/// Notes the previous terms of those of these grants that hold the point.
fn follow_grants(
    grants: &[Grant],
    table: u32,
    key: u64,
    before: &mut BTreeSet<u32>,
    waiting: &mut Vec<u32>,
) -> Result<(), AllocError>
    ensures { OnOk result (Follows table key grants.now
        before.old before.new waiting.old.items waiting.new.items) }
{
    for grant in grants {
        follow_grant(grant, table, key, before, waiting)?;
    }
    Ok(())
}

/// Notes the previous terms of a term, by its grants that hold the point.
fn follow(
    grants: &Grants,
    term: u32,
    table: u32,
    key: u64,
    before: &mut BTreeSet<u32>,
    waiting: &mut Vec<u32>,
) -> Result<(), AllocError>
    ensures { OnOk result (Follows table key (grants_at grants.now term)
        before.old before.new waiting.old.items waiting.new.items) }
{
    let Some(of_term) = grants.get(&term) else {
        return Ok(());
    };
    follow_grants(of_term.grants.as_slice(), table, key, before, waiting)?;
    Ok(())
}

/// All terms that come before this one, by grants that hold the point. Each of them is gone over
/// once, so the search ends also where previous terms go in a circle.
pub fn terms_before(
    alloc: Global,
    grants: &Grants,
    term: u32,
    table: u32,
    key: u64,
) -> Result<BTreeSet<u32>, AllocError>
    ensures { IfOk result (λ before. (sent : List Message) → AreGrants grants.now sent →
        AreEarlier before sent table key term) }
{
    let mut before = BTreeSet::new(alloc);
    let mut waiting = Vec::new(alloc);
    waiting.push(term)?;
    while let Some(later) = waiting.pop() {
        follow(grants, later, table, key, &mut before, &mut waiting)?;
    }
    Ok(before)
}
