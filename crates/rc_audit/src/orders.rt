//! An order of terms, in which each term stands after all that come before it.

ghost use Rattle.std.specs.Prelude.{◌≡◌, IsTrue};
ghost use Rattle.std.specs.List.{list_all};
ghost use Rattle.rc_audit.specs.declared.grants.Grant.{Grant};
ghost use Rattle.rc_audit.specs.Orders.{Keeps, is_after};

use crate::grants::{Grant, Grants};
use std::collections::BTreeMap;

/// Where a term stands in an order.
#[derive(Clone, Copy)]
pub(crate) struct Span {
    /// Its place.
    pub(crate) place: u64,
    /// All terms before it have places below this one. Where terms come before one another in a circle, this is
    /// above their own places.
    pub(crate) bound: u64,
}

/// Where each term stands that was granted, or was the one before.
pub(crate) type Order = BTreeMap<u32, Span>;

/// Whether the order has one term after another.
fn is_after(order: &Order, earlier: u32, later: u32) -> bool
    ensures { result ≡ is_after order.now earlier later }
{
    match (order.get(&earlier).copied(), order.get(&later).copied()) {
        (Some(earlier), Some(later)) => {
            earlier.place < later.bound && earlier.bound <= later.bound
        }
        _ => false,
    }
}

/// Whether the order has a term after the previous ones of all these grants.
fn is_after_all(order: &Order, grants: &[Grant], term: u32) -> bool
    ensures { result ≡ list_all (λ (grant : Grant). is_after order.now grant.previous term) grants.now }
{
    grants
        .iter()
        .all(|grant| is_after(order, grant.previous, term))
}

/// Whether the order has each term after the previous one of each of its grants.
pub(crate) fn keeps(order: &Order, grants: &Grants) -> bool
    ensures { IsTrue result → Keeps order.now grants.now }
{
    for (term, of_term) in grants {
        if !is_after_all(order, of_term.grants.as_slice(), *term) {
            return false;
        }
    }
    true
}
