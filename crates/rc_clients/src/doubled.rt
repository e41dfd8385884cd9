//! The writes of each version.

ghost use Rattle.std.specs.Prelude.{◌≡◌, IfOk};
ghost use Rattle.rc_clients.specs.Evidence.{ElseTwoWrites, version_of, write_at};

use crate::events::ClientEvent;
use crate::judging::Violation;
use crate::operations::{Kind, Operation, operation_at};
use std::alloc::{AllocError, Global};
use std::collections::BTreeMap;

/// A version of a key.
#[derive(Clone, Copy, PartialEq, Eq, PartialOrd, Ord)]
pub(crate) struct VersionName {
    /// The table.
    pub(crate) table: u32,
    /// The key in it.
    pub(crate) key: u64,
    /// The version.
    pub(crate) version: u64,
}

/// For each version, the moment at which an operation of it was answered.
pub(crate) type ByVersion = BTreeMap<VersionName, usize>;

/// The version of an operation.
pub(crate) fn version_name(operation: &Operation) -> VersionName
    ensures { result ≡ version_of operation.now }
{
    VersionName {
        table: operation.table,
        key: operation.key,
        version: operation.version,
    }
}

/// The writes that were answered; or the first one with a version that another got before it.
pub(crate) fn writes_in(
    alloc: Global,
    history: &[ClientEvent],
) -> Result<Result<ByVersion, Violation>, AllocError>
    ensures { IfOk result (ElseTwoWrites history.now) }
{
    let mut writes = BTreeMap::new(alloc);
    for moment in 0..history.len() {
        let Some(operation) = write_at(history, moment) else {
            continue;
        };
        let name = version_name(&operation);
        if let Some(other) = writes.get(&name).copied() {
            return Ok(Err(Violation::TwoWrites(other, moment)));
        }
        writes.insert(name, moment)?;
    }
    Ok(Ok(writes))
}

/// The write that is answered at this moment, if one is.
fn write_at(history: &[ClientEvent], moment: usize) -> Option<Operation>
    ensures { result ≡ write_at history.now moment }
{
    let operation = operation_at(history, moment)?;
    match operation.kind {
        Kind::Write => Some(operation),
        Kind::Read => None,
    }
}
