//! An order of the terms that were granted, each after its previous ones. It is found by one search through all
//! grants, which gives terms that come before one another in a circle one place.

ghost use Rattle.std.specs.Prelude.{◌≡◌};

use crate::grants::Grants;
use crate::orders::{Order, Span};
use std::alloc::{AllocError, Global};
use std::collections::BTreeMap;

/// A term whose grants are being gone over.
#[derive(Clone, Copy)]
struct Visit {
    term: u32,
    /// How many of its grants were gone over.
    done: usize,
}

/// The search: what it has placed, and the way to where it is.
#[derive(Drop)]
struct Search {
    order: Order,
    /// The place below which nothing is left to give.
    next: u64,
    /// The number of each term that was met, in the sequence of their meeting.
    met: BTreeMap<u32, u64>,
    /// The terms on the way, the last one first to go on.
    visits: Vec<Visit>,
    /// Those that were met and have no place yet.
    open: Vec<u32>,
    /// The numbers of those that come before none of the terms on the way before them, as far as was seen.
    heads: Vec<u64>,
}

impl Search {
    fn new(alloc: Global) -> Search {
        Search {
            order: BTreeMap::new(alloc),
            next: 0,
            met: BTreeMap::new(alloc),
            visits: Vec::new(alloc),
            open: Vec::new(alloc),
            heads: Vec::new(alloc),
        }
    }

    /// The order that was found.
    fn into_order(self) -> Order {
        let Search {
            order,
            next: _,
            met: _,
            visits: _,
            open: _,
            heads: _,
        } = self;
        order
    }

    /// A term is met for the first time.
    fn meet(&mut self, term: u32) -> Result<(), AllocError> {
        let number = self.met.len() as u64;
        self.met.insert(term, number)?;
        self.open.push(term)?;
        self.heads.push(number)?;
        self.visits.push(Visit { term, done: 0 })?;
        Ok(())
    }

    /// A previous term is gone on to. Where it is on the way, the terms met since then are in one circle with it.
    fn go_on(&mut self, previous: u32) -> Result<(), AllocError> {
        let Some(number) = self.met.get(&previous).copied() else {
            return self.meet(previous);
        };
        if !self.order.contains_key(&previous) {
            while self.heads.last().is_some_and(|head| *head > number) {
                let _ = self.heads.pop();
            }
        }
        Ok(())
    }

    /// All grants of this term are gone over. If it heads a circle, or stands alone, those open since then get a
    /// place.
    fn close(&mut self, term: u32, grants: &Grants) -> Result<(), AllocError> {
        if self.heads.last().copied() != self.met.get(&term).copied() {
            return Ok(());
        }
        let _ = self.heads.pop();
        let place = self.next.saturating_add(1);
        let is_circle = self.open.last().copied() != Some(term)
            || comes_before_itself(grants, term);
        let bound = if is_circle {
            place.saturating_add(1)
        } else {
            place
        };
        self.next = bound;
        while let Some(one) = self.open.pop() {
            self.order.insert(one, Span { place, bound })?;
            if one == term {
                break;
            }
        }
        Ok(())
    }

    /// One step of the search; whether there was one to go.
    fn step(&mut self, grants: &Grants) -> Result<bool, AllocError> {
        let Some(visit) = self.visits.pop() else {
            return Ok(false);
        };
        match previous_of(grants, visit) {
            Some(previous) => {
                let done = visit.done.saturating_add(1);
                self.visits.push(Visit {
                    term: visit.term,
                    done,
                })?;
                self.go_on(previous)?;
            }
            None => self.close(visit.term, grants)?,
        }
        Ok(true)
    }

    /// All terms that come before this one are given a place, and so is it.
    fn run(&mut self, term: u32, grants: &Grants) -> Result<(), AllocError> {
        if self.met.contains_key(&term) {
            return Ok(());
        }
        self.meet(term)?;
        for _ in 0..u64::MAX {
            if !self.step(grants)? {
                break;
            }
        }
        Ok(())
    }
}

/// The previous term of the next grant to go over.
fn previous_of(grants: &Grants, visit: Visit) -> Option<u32> {
    let grant = grants.get(&visit.term)?.grants.get(visit.done)?;
    Some(grant.previous)
}

/// Whether a grant of the term has itself as the previous one.
fn comes_before_itself(grants: &Grants, term: u32) -> bool {
    match grants.get(&term) {
        Some(of_term) => of_term.grants.iter().any(|grant| grant.previous == term),
        None => false,
    }
}

/// An order of all terms that were granted, and of their previous ones. Who uses it has to see that it keeps to
/// the grants.
pub(crate) fn find_order(alloc: Global, grants: &Grants) -> Result<Order, AllocError> {
    let mut search = Search::new(alloc);
    for (term, _) in grants {
        search.run(*term, grants)?;
    }
    Ok(search.into_order())
}
