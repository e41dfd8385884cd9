//! Sets of segments.

ghost use Rattle.std.specs.Prelude.{◌≡◌, ◌<◌, ℕ, true, false, nat_eq, if◌then◌else◌, OnOk, OnErr, IfSome};
ghost use Rattle.rc_headroll.specs.Watching.{has_number};

use std::alloc::{AllocError, Global};
use std::collections::BTreeSet;
use std::marker::Model;
use std::ops::Bound;

/// A set of segments, by their numbers.
#[derive(Drop)]
pub(crate) struct Numbers {
    set: BTreeSet<u16>,
}

impl Model for Numbers {
    ghost use Rattle.std.specs.Prelude.{ℕ, List};

    ghost Value = { List ℕ };

    ghost view = { λ n. n.set.keys };
}

impl Numbers {
    /// No number. It takes no memory.
    pub(crate) fn new(alloc: Global) -> Numbers
        ensures { (seg : ℕ) → has_number result seg ≡ false }
    {
        Numbers {
            set: BTreeSet::new(alloc),
        }
    }

    /// Whether there is no number.
    pub(crate) fn is_empty(&self) -> bool
        ensures { result ≡ true → (seg : ℕ) → has_number self.now seg ≡ false }
    {
        self.set.is_empty()
    }

    /// Adds a number. Where memory is refused, nothing has changed.
    pub(crate) fn insert(&mut self, seg: u16) -> Result<(), AllocError>
        ensures added { OnOk result (has_number self.new seg ≡ true) }
        ensures others { (other : ℕ) → has_number self.old other ≡ true → has_number self.new other ≡ true }
        ensures unchanged { OnErr result (self.new ≡ self.old) }
    {
        self.set.insert(seg)?;
        Ok(())
    }

    /// Adds all of these. Where memory is refused, some of them may have been added.
    pub(crate) fn insert_all(&mut self, numbers: &Numbers) -> Result<(), AllocError>
        ensures added { OnOk result ((other : ℕ) → has_number numbers.now other ≡ true →
            has_number self.new other ≡ true) }
        ensures others { (other : ℕ) → has_number self.old other ≡ true → has_number self.new other ≡ true }
    {
        for seg in &numbers.set {
            self.insert(*seg)?;
        }
        Ok(())
    }

    /// Takes a number out.
    pub(crate) fn remove(&mut self, seg: u16)
        ensures { (other : ℕ) →
            has_number self.new other ≡ (if nat_eq seg other then false else has_number self.old other) }
    {
        self.set.remove(&seg);
    }

    /// The next number after this one, if there is one.
    pub(crate) fn next(&self, done: u16) -> Option<u16>
        ensures later { IfSome result (λ seg. done < seg) }
        ensures there { IfSome result (λ seg. has_number self.now seg ≡ true) }
        ensures others { (other : ℕ) → done < other → IfSome result (λ seg. other < seg) →
            has_number self.now other ≡ false }
    {
        match self
            .set
            .range((Bound::Excluded(done), Bound::Unbounded))
            .next()
        {
            Some(seg) => Some(*seg),
            None => None,
        }
    }
}
