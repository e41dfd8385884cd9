//! The ledger, and what can be done with it.

ghost use Rattle.std.specs.Prelude.{◌≡◌, ◌<◌, IfOk};

use crate::law::{Add, Deal, Host, Law, Leave, Look, Part, Pass};
use crate::view::View;
use atomic_table::Table;
use rc_types::{Event, Setup};
use std::alloc::{AllocError, Global};

/// One history, of which the token of the keeper knows all, and the token of each seat a beginning. It
/// has no bytes but one word, which tells nothing.
pub struct Ledger {
    table: Table<Event, View, Setup, Law, Global>,
    ghost one_word: { 0 < table.shared.table_id.words },
}

impl Drop for Ledger {
    fn drop(self) {
        let Ledger { table: _ } = self;
    }
}

impl Ledger {
    ghost use Rattle.rc_wire.specs.Views.{at_desk, new_desk};
    ghost use Rattle.rc_wire.specs.Passes.{view, IsPassOf, Keeps, Sits, HasGuest, Deals, Hosts, Looked};
    ghost use Rattle.rc_wire.specs.Passes.{Writes, Parts, Sees, MayAdd, MayWrite, Adds};

    /// A ledger in which nothing has happened, and the token of its keeper.
    ///
    /// # Errors
    ///
    /// Memory was refused.
    pub fn new(alloc: Global, setup: &Setup) -> Result<(Ledger, Pass), AllocError>
        ensures { IfOk result (λ made. IsPassOf made.0 made.1 × (view made.1 ≡ at_desk (new_desk setup.now))) }
    {
        let (table, keeper) = Table::<Event, View, Setup, Law, Global>::of_words(
            alloc,
            &[0],
            setup,
        )?;
        Ok((Ledger { table }, keeper))
    }

    /// The keeper gives the next node a seat.
    pub fn deal(&self, keeper: &mut Pass) -> Pass
        requires token { IsPassOf self.now keeper.old }
        requires keeps { Keeps (view keeper.old) }
        ensures keeper { IsPassOf self.now keeper.new }
        ensures seat { IsPassOf self.now result }
        ensures deals { Deals (view keeper.old) (view keeper.new) (view result) }
    {
        self.table.shared.split_seat::<Deal>(keeper)
    }

    /// The seat sees the whole history, and is told that it begins with what the seat saw before, and
    /// has of its node's events those that the seat added.
    pub fn see(&self, keeper: &mut Pass, seat: &mut Pass)
        requires keeper_token { IsPassOf self.now keeper.old }
        requires seat_token { IsPassOf self.now seat.old }
        requires keeps { Keeps (view keeper.old) }
        requires sits { Sits (view seat.old) }
        ensures keeper { IsPassOf self.now keeper.new }
        ensures seat { IsPassOf self.now seat.new }
        ensures sees { Sees (view keeper.old) (view seat.old) (view keeper.new) (view seat.new) }
    {
        self.host(keeper, seat);
        self.look(keeper);
        self.part(keeper, seat);
    }

    /// An event of the seat's node that is possible now is added to the history, of which the seat has
    /// then seen all. It is told what `see` tells.
    pub fn add(&self, keeper: &mut Pass, seat: &mut Pass, event: &Event)
        requires keeper_token { IsPassOf self.now keeper.old }
        requires seat_token { IsPassOf self.now seat.old }
        requires keeps { Keeps (view keeper.old) }
        requires sits { Sits (view seat.old) }
        requires event { MayAdd (view keeper.old) (view seat.old) event.now }
        ensures keeper { IsPassOf self.now keeper.new }
        ensures seat { IsPassOf self.now seat.new }
        ensures adds { Adds (view keeper.old) (view seat.old) event.now (view keeper.new) (view seat.new) }
    {
        self.host(keeper, seat);
        self.look(keeper);
        self.write(keeper, event);
        self.part(keeper, seat);
    }

    /// The keeper takes the seat as its guest; the token of the seat is left with nothing.
    fn host(&self, keeper: &mut Pass, seat: &mut Pass)
        requires keeper_token { IsPassOf self.now keeper.old }
        requires seat_token { IsPassOf self.now seat.old }
        requires keeps { Keeps (view keeper.old) }
        requires sits { Sits (view seat.old) }
        ensures keeper { IsPassOf self.now keeper.new }
        ensures hosts { Hosts (view keeper.old) (view seat.old) (view keeper.new) }
    {
        let guest = self.table.shared.split_seat::<Leave>(seat);
        self.table.shared.join_seat::<Host>(keeper, guest);
    }

    /// The guest sees the whole history.
    fn look(&self, keeper: &mut Pass)
        requires token { IsPassOf self.now keeper.old }
        requires guest { HasGuest (view keeper.old) }
        ensures keeper { IsPassOf self.now keeper.new }
        ensures looks { Looked (view keeper.old) (view keeper.new) }
    {
        self.table.shared.load::<Look>(keeper, 0);
    }

    /// An event of the guest is added.
    fn write(&self, keeper: &mut Pass, event: &Event)
        requires token { IsPassOf self.now keeper.old }
        requires guest { HasGuest (view keeper.old) }
        requires event { MayWrite (view keeper.old) event.now }
        ensures keeper { IsPassOf self.now keeper.new }
        ensures writes { Writes (view keeper.old) event.now (view keeper.new) }
    {
        self.table
            .shared
            .compare_exchange_with::<Add>(keeper, 0, 0, 0, event);
    }

    /// The keeper lets its guest go, back to the token of its seat.
    fn part(&self, keeper: &mut Pass, seat: &mut Pass)
        requires token { IsPassOf self.now keeper.old }
        requires guest { HasGuest (view keeper.old) }
        ensures keeper { IsPassOf self.now keeper.new }
        ensures seat { IsPassOf self.now seat.new }
        ensures parts { Parts (view keeper.old) (view keeper.new) (view seat.new) }
    {
        *seat = self.table.shared.split_seat::<Part>(keeper);
    }
}
