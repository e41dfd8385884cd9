//! The values of each version.

ghost use Rattle.std.specs.Prelude.{◌≡◌, ◌≢◌, IfOk, MatchBool};
ghost use Rattle.rc_clients.specs.Operations.{value_of as value_said};
ghost use Rattle.rc_clients.specs.Evidence.{ElseTwoValues};

use crate::doubled::{VersionName, version_name};
use crate::events::ClientEvent;
use crate::judging::Violation;
use crate::operations::{Operation, operation_at, value_of};
use std::alloc::{AllocError, Global};
use std::collections::BTreeMap;

/// Of each version the first operation.
pub(crate) type Firsts = BTreeMap<VersionName, Operation>;

/// Of each version the first operation; or the first one with another value than one of its version before it.
pub(crate) fn firsts_in(
    alloc: Global,
    history: &[ClientEvent],
) -> Result<Result<Firsts, Violation>, AllocError>
    ensures { IfOk result (ElseTwoValues history.now) }
{
    let mut firsts = BTreeMap::new(alloc);
    for moment in 0..history.len() {
        let Some(operation) = operation_at(history, moment) else {
            continue;
        };
        let name = version_name(&operation);
        if let Some(first) = firsts.get(&name).copied() {
            if is_like(history, &first, &operation) {
                continue;
            }
            return Ok(Err(Violation::TwoValues(first.response, moment)));
        }
        firsts.insert(name, operation)?;
    }
    Ok(Ok(firsts))
}

/// Whether both have one value.
fn is_like(history: &[ClientEvent], one: &Operation, other: &Operation) -> bool
    ensures { MatchBool result (value_said history.now one.now ≡ value_said history.now other.now)
        (value_said history.now one.now ≢ value_said history.now other.now) }
{
    value_of(history, one) == value_of(history, other)
}
