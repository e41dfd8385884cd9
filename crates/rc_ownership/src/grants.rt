//! The ranges that were granted, each under its term.

ghost use Rattle.std.specs.Prelude.{◌≡◌, [], nat_eq, length, OnOk, OnErr};
ghost use Rattle.rc_model.specs.Ownership.{grant, owns_term, term_of};
ghost use Rattle.rc_ownership.specs.Grants.{owner_of, grants_in};

use crate::bounds;
use indexmap::IndexMap;
use rc_types::KeyRange;
use std::alloc::{AllocError, Global};
use std::collections::BTreeMap;
use std::marker::Model;

/// The granted ranges by term, in the order of granting, and the table of bounds by which the term
/// at a point is found.
#[derive(Drop)]
pub(crate) struct Grants {
    ranges: IndexMap<u32, KeyRange>,
    bounds: BTreeMap<u128, Option<u32>>,
}

impl Model for Grants {
    ghost use Rattle.std.specs.Prelude.{List};
    ghost use Rattle.std.specs.Ordering.{nat_cmp};
    ghost use Rattle.std.specs.BTreeMap.{get};
    ghost use Rattle.rc_types.specs.declared.kept.GrantedRange.{GrantedRange};
    ghost use Rattle.rc_ownership.specs.Bounds.{Say, terms_of};
    ghost use Rattle.rc_ownership.specs.Grants.{grants_in};

    ghost Value = { List GrantedRange };

    ghost view = { λ s. grants_in s.ranges.entries };

    ghost invariant = { λ s. Say (get nat_cmp s.bounds) (terms_of (grants_in s.ranges.entries)) };
}

impl Grants {
    /// No grants. It takes no memory until a range is granted.
    pub(crate) fn new(alloc: Global) -> Grants
        ensures { result ≡ [] }
    {
        Grants {
            ranges: IndexMap::new(alloc),
            bounds: BTreeMap::new(alloc),
        }
    }

    /// The ranges by term, in the order of granting.
    pub(crate) fn ranges(&self) -> &IndexMap<u32, KeyRange>
        ensures { grants_in result.now.entries ≡ self.now }
    {
        &self.ranges
    }

    /// Whether nothing is granted.
    pub(crate) fn is_empty(&self) -> bool
        ensures { result ≡ nat_eq (length self.now) 0 }
    {
        self.ranges.is_empty()
    }

    /// Whether a range is granted under the term.
    pub(crate) fn owns_term(&self, term: u32) -> bool
        ensures { result ≡ owns_term (owner_of self.now) term }
    {
        self.ranges.contains_key(&term)
    }

    /// The term of the first granted range that holds the point.
    pub(crate) fn term_of(&self, table: u32, key: u64) -> Option<u32>
        ensures { result ≡ term_of (owner_of self.now) table key }
    {
        bounds::term_at(&self.bounds, bounds::point_of(table, key))
    }

    /// Takes a granted range, unless one was granted under its term before.
    pub(crate) fn grant(&mut self, range: KeyRange, term: u32) -> Result<(), AllocError>
        ensures ok { OnOk result (self.new ≡ (grant (record { range = range; term = term })
            (owner_of self.old)).grants) }
        ensures err { OnErr result (self.new ≡ self.old) }
    {
        if self.owns_term(term) {
            return Ok(());
        }
        let first = bounds::point_of(range.table, range.lo);
        let end = bounds::point_of(range.table, range.hi) + 1;
        bounds::cut_at(&mut self.bounds, first)?;
        bounds::cut_at(&mut self.bounds, end)?;
        self.ranges.insert(term, range)?;
        bounds::give_from(&mut self.bounds, first, end, term);
        Ok(())
    }
}
