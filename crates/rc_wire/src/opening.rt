//! How a wire begins.

ghost use Rattle.std.specs.Prelude.{◌≡◌, ◌+◌, IfOk};

use crate::law::Pass;
use crate::ledger::Ledger;
use rc_types::{Setup, TryClone};
use std::alloc::{AllocError, Global};
use std::marker::Model;

/// A ledger in which nothing has happened, with the token of its keeper, and for how many nodes there
/// will be seats. `Journal::open` takes it. As a value it is the name of its wire.
#[derive(Drop)]
pub struct Opening {
    pub(crate) ledger: Ledger,
    pub(crate) keeper: Pass,
    pub(crate) setup: Setup,
    pub(crate) nodes: usize,
}

impl Model for Opening {
    ghost use Rattle.rc_wire.specs.Names.{WireName};
    ghost use Rattle.rc_wire.specs.Tokens.{IsNew};

    ghost Value = { WireName };

    ghost view = { λ o. record { table = o.ledger.table.shared.table_id; setup = o.setup; nodes = o.nodes } };

    ghost invariant = { λ o. IsNew o.ledger o.keeper o.setup };
}

impl Opening {
    /// The beginning of a wire with a seat for the outside, one for the coordinator, and one for each
    /// host below `hosts`.
    ///
    /// # Errors
    ///
    /// `OutOfMemory` (F1): memory was refused.
    pub fn new(alloc: Global, setup: &Setup, hosts: u8) -> Result<Opening, AllocError>
        ensures setup { IfOk result (λ made. made.setup ≡ setup.now) }
        ensures nodes { IfOk result (λ made. made.nodes ≡ hosts + 2) }
    {
        let (ledger, keeper) = Ledger::new(alloc, setup)?;
        let setup = setup.try_clone(alloc)?;
        Ok(Opening {
            ledger,
            keeper,
            setup,
            nodes: usize::from(hosts) + 2,
        })
    }

    /// What the world of the wire is opened with.
    pub fn setup(&self) -> &Setup
        ensures { result.now ≡ self.now.setup }
    {
        &self.setup
    }
}
