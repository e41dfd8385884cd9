//! Writes without a response, each with the next of its value.

ghost use Rattle.std.specs.Prelude.{◌≡◌, IfOk};
ghost use Rattle.rc_clients.specs.Pending.{AreChains, next_at};

use crate::events::ClientEvent;
use crate::pending::{Pending, answered_in, pending_at};
use std::alloc::{AllocError, Global};
use std::collections::BTreeMap;

/// Behind each write without a response, the next one of the same value.
pub(crate) type Nexts = BTreeMap<usize, Option<usize>>;

/// Of each value the first write without a response, and behind each such write the next.
pub(crate) fn chains_in<'a>(
    alloc: Global,
    history: &'a [ClientEvent],
) -> Result<(Pending<'a>, Nexts), AllocError>
    ensures { IfOk result (λ chains. AreChains history.now 0 chains.0 chains.1) }
{
    let answered = answered_in(alloc, history)?;
    let mut heads = BTreeMap::new(alloc);
    let mut nexts = BTreeMap::new(alloc);
    let mut moment = history.len();
    while moment > 0 {
        moment -= 1;
        if let Some(name) = pending_at(history, &answered, moment) {
            nexts.insert(moment, heads.get(&name).copied())?;
            heads.insert(name, moment)?;
        }
    }
    Ok((heads, nexts))
}

/// The next write behind this one.
pub(crate) fn next_at(nexts: &Nexts, moment: usize) -> Option<usize>
    ensures { result ≡ next_at nexts.now moment }
{
    match nexts.get(&moment) {
        Some(next) => *next,
        None => None,
    }
}
