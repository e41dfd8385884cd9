//! The grants that were made, each of which is remembered for good, and the tables by which one is
//! found without a walk over them.

ghost use Rattle.std.specs.Prelude.{◌≡◌, ◌<◌, ◌++◌, ◌∷◌, [], ◌||◌, ℕ, true, false, nat_eq, find, if◌then◌else◌};
ghost use Rattle.std.specs.Prelude.{Some, None};
ghost use Rattle.std.specs.Prelude.{OnOk, IfOk};
ghost use Rattle.std.specs.Option.{option_or};
ghost use Rattle.std.specs.List.{list_any};
ghost use Rattle.indexmap.specs.IndexMap.{get, spare};
ghost use Rattle.std.specs.HashSet.{contains, spare as set_spare};
ghost use Rattle.rc_model.specs.Deciding.{is_grant_to, grant_of};
ghost use Rattle.rc_model.specs.CoordinatorStep.{first_grant};
ghost use Rattle.rc_coordinator.specs.Grants.{same_claim, claim_of};

use indexmap::IndexMap;
use rc_types::{Grant, KeyRange, Part, ServerId};
use std::alloc::{AllocError, Global};
use std::collections::HashSet;
use std::marker::Model;

/// What a grant is asked for by: its term and its owner.
#[derive(Clone, Copy, PartialEq, Eq, Hash)]
pub(crate) struct Claim {
    /// The term.
    pub(crate) term: u32,
    /// The owner.
    pub(crate) owner: ServerId,
}

/// All grants in the order of granting, the first of each claim, the granted terms, and whether
/// there is room for one more.
#[derive(Drop)]
pub(crate) struct Grants {
    list: Vec<Grant>,
    claims: IndexMap<Claim, Grant>,
    terms: HashSet<u32>,
    ready: bool,
}

impl Model for Grants {
    ghost use Rattle.rc_coordinator.specs.GrantTables.{Granted, AreGrants};

    ghost Value = { Granted };

    ghost view = { λ s. record { grants = s.list.items; ready = s.ready } };

    ghost invariant = { λ s. AreGrants s.list s.claims s.terms s.ready };
}

impl Grants {
    /// No grants. It takes no memory.
    pub(crate) fn new(alloc: Global) -> Grants
        ensures { result.grants ≡ [] }
    {
        Grants {
            list: Vec::new(alloc),
            claims: IndexMap::new(alloc),
            terms: HashSet::new(alloc),
            ready: false,
        }
    }

    /// These grants, in this order.
    pub(crate) fn from_list(alloc: Global, list: &[Grant]) -> Result<Grants, AllocError>
        ensures { IfOk result (λ grants. grants.grants ≡ list.now) }
    {
        let mut grants = Grants::new(alloc);
        for grant in list {
            grants.make_room()?;
            grants.remember(*grant);
        }
        Ok(grants)
    }

    /// All grants, in the order of granting.
    pub(crate) fn list(&self) -> &[Grant]
        ensures { result.now ≡ self.now.grants }
    {
        self.list.as_slice()
    }

    /// The grant of this term to this owner.
    pub(crate) fn grant_to(&self, owner: ServerId, term: u32) -> Option<Grant>
        ensures { result ≡ find (is_grant_to owner term) self.now.grants }
    {
        self.claims.get(&Claim { term, owner }).copied()
    }

    /// Whether the term was granted.
    pub(crate) fn is_granted(&self, term: u32) -> bool
        ensures { result ≡ list_any (λ grant. nat_eq grant.term term) self.now.grants }
    {
        self.terms.contains(&term)
    }

    /// Makes room for one more grant. Only memory can be refused (F1).
    pub(crate) fn make_room(&mut self) -> Result<(), AllocError>
        ensures same { self.new.grants ≡ self.old.grants }
        ensures ready { OnOk result (self.new.ready ≡ true) }
    {
        self.ready = false;
        self.list.reserve(1)?;
        self.claims.reserve(1)?;
        self.terms.reserve(1)?;
        self.ready = true;
        Ok(())
    }

    /// Remembers a grant, for which there is room.
    pub(crate) fn remember(&mut self, grant: Grant)
        requires { self.old.ready ≡ true }
        ensures { self.new ≡ record { grants = self.old.grants ++ grant ∷ []; ready = false } }
    {
        self.ready = false;
        note_claim(&mut self.claims, grant);
        note_term(&mut self.terms, grant.term);
        self.list.push(grant).unwrap();
    }
}

/// Notes a grant under its claim, unless there was one before it.
fn note_claim(claims: &mut IndexMap<Claim, Grant>, grant: Grant)
    requires { 0 < spare claims.old }
    ensures { (claim : Claim) → get same_claim claims.new claim ≡
        option_or (get same_claim claims.old claim) (if same_claim (claim_of grant) claim then Some grant else None) }
{
    let claim = Claim {
        term: grant.term,
        owner: grant.owner,
    };
    if !claims.contains_key(&claim) {
        claims.insert(claim, grant).unwrap();
    }
}

/// Notes a granted term.
fn note_term(terms: &mut HashSet<u32>, term: u32)
    requires { 0 < set_spare terms.old }
    ensures { (other : ℕ) → contains nat_eq terms.new other ≡ (contains nat_eq terms.old other || nat_eq term other) }
{
    terms.insert(term).unwrap();
}

/// The grant of a part to the owner that recovered it.
pub(crate) fn grant_of(number: u32, owner: ServerId, part: &Part) -> Grant
    ensures { result ≡ grant_of number owner part.now }
{
    Grant {
        range: part.range,
        term: part.term,
        previous: part.previous,
        attempt: number,
        owner,
    }
}

/// The grant of a new table.
pub(crate) fn first_grant(table: u32, owner: ServerId, term: u32) -> Grant
    ensures { result ≡ first_grant table owner term }
{
    Grant {
        range: KeyRange::all_keys(table),
        term,
        previous: 0,
        attempt: 0,
        owner,
    }
}
