//! What a seat holds of the ledger.

ghost use Rattle.std.specs.Prelude.{◌≡◌};

use crate::law::Pass;
use crate::names::Naming;
use std::marker::{Model, PhantomData};

/// The token of a node's seat at the wire of this name, of no bytes. As a value it is what its holder
/// knows: the node's number, the history as far as it has seen it, and the node's own events in it.
pub struct Token<N: Naming> {
    pub(crate) pass: Pass,
    of: PhantomData<N>,
}

impl<N: Naming> Drop for Token<N> {
    fn drop(self) {
        let Token { pass: _, of: _ } = self;
    }
}

impl<N: Naming> Model for Token<N> {
    ghost use Rattle.rc_wire.specs.declared.view.Place.{Place};
    ghost use Rattle.rc_wire.specs.Tokens.{place_in, SitsIn};

    ghost Value = { Place };

    ghost view = { λ t. place_in t.pass };

    ghost invariant = { λ t. SitsIn N.wire.table t.pass };
}

impl<N: Naming> Token<N> {
    ghost use Rattle.rc_wire.specs.Tokens.{place_in, SitsIn};

    /// A pass as the token of a seat at this wire.
    pub(crate) fn new(pass: Pass) -> Token<N>
        requires { SitsIn N.wire.table pass }
        ensures { result ≡ place_in pass }
    {
        Token {
            pass,
            of: PhantomData,
        }
    }
}
