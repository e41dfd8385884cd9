//! Sets of kinds of messages.

ghost use Rattle.std.specs.Prelude.{◌≡◌};

use rc_types::Kind;

/// A set of kinds. Asking whether a kind is in it costs the same whatever it holds.
#[derive(Clone, Copy)]
pub struct Kinds {
    bits: u32,
}

impl Kinds {
    ghost use Rattle.rc_reading.specs.Kinds.{has_kind, with_kind, no_kinds};

    /// The empty set.
    pub fn new() -> Kinds
        ensures { result ≡ no_kinds }
    {
        Kinds { bits: 0 }
    }

    /// The set with this kind in it.
    pub fn with(self, kind: Kind) -> Kinds
        ensures { result ≡ with_kind self kind }
    {
        Kinds {
            bits: self.bits | (1 << kind.number()),
        }
    }

    /// Whether this kind is in the set.
    pub fn has(self, kind: Kind) -> bool
        ensures { result ≡ has_kind self kind }
    {
        (self.bits >> kind.number()) & 1 == 1
    }
}
