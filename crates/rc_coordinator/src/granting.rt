//! Who owns what: least pairs are committed, tables created and split, and recovered parts granted.

ghost use Rattle.std.specs.Prelude.{◌≡◌, ◌≤◌, ◌++◌, length, false, OnOk, OnErr};
ghost use Rattle.rc_types.specs.declared.limits.TheConstants.{MAX_TABLETS as TABLETS};
ghost use Rattle.rc_model.specs.Tablets.{has_table};
ghost use Rattle.rc_model.specs.Coordinator.{commits_pair};
ghost use Rattle.rc_model.specs.Deciding.{part_of_sender, grants_part, takes_recovered};
ghost use Rattle.rc_model.specs.CoordinatorStep.{creates, splits};
ghost use Rattle.rc_coordinator.specs.View.{book_of, state_view};
ghost use Rattle.rc_coordinator.specs.Steps.{creates_unless_full, HasNumbers};

use crate::state::State;
use crate::{grants, notices};
use rc_attempts::least::raise_if_up;
use rc_types::{Fault, Message, Pair, Part, ServerId};
use std::alloc::{AllocError, Allocator};

impl<A: Allocator + Clone> State<A> {
    /// Takes a Commit. Where the sender is up it raises his least pair and is answered, else it is refused (F5).
    pub(crate) fn commit(
        &mut self,
        id: ServerId,
        pair: Pair,
        sent: &mut Vec<Message>,
    ) -> Result<(), AllocError>
        ensures state { OnOk result (state_view self.new ≡ (commits_pair (state_view self.old) id pair).0) }
        ensures sends { OnOk result (sent.new.items ≡ sent.old.items ++
            (commits_pair (state_view self.old) id pair).1) }
        ensures err { OnErr result (book_of self.new ≡ book_of self.old) }
        ensures unsent { OnErr result (sent.new.items ≡ sent.old.items) }
    {
        sent.reserve(1)?;
        if !raise_if_up(&mut self.least, &self.servers, id, pair)? {
            sent.push(notices::refusal_to(id, Fault::Deposed)).unwrap();
            return Ok(());
        }
        sent.push(notices::commit_ok(id, pair)).unwrap();
        Ok(())
    }

    /// Takes a Create, or refuses it to the outside (F11, F12, F15).
    pub(crate) fn create(
        &mut self,
        table: u32,
        owner: ServerId,
        sent: &mut Vec<Message>,
    ) -> Result<(), AllocError>
        requires { HasNumbers (state_view self.old) }
        ensures state { OnOk result (state_view self.new ≡ (creates (state_view self.old) table owner).0) }
        ensures sends { OnOk result (sent.new.items ≡ sent.old.items ++ (creates (state_view self.old) table owner).1) }
        ensures err { OnErr result (book_of self.new ≡ book_of self.old) }
        ensures unsent { OnErr result (sent.new.items ≡ sent.old.items) }
    {
        let refused = if !(self.servers.is_up(owner) && self.ready.has(owner)) {
            Fault::NotReady
        } else if self.tablets.find(table, 0).is_some() {
            Fault::TableExists
        } else {
            return self.create_table(table, owner, sent);
        };
        sent.push(notices::refusal(refused))?;
        Ok(())
    }

    /// Creates a table that isn't there for an owner who is up and ready, unless there are too many
    /// tablets.
    fn create_table(
        &mut self,
        table: u32,
        owner: ServerId,
        sent: &mut Vec<Message>,
    ) -> Result<(), AllocError>
        requires numbers { HasNumbers (state_view self.old) }
        requires absent { has_table (state_view self.old).tablets table ≡ false }
        requires few { length (state_view self.old).tablets ≤ TABLETS }
        ensures state { OnOk result (state_view self.new ≡ (creates_unless_full (state_view self.old) table owner).0) }
        ensures sends { OnOk result (sent.new.items ≡ sent.old.items ++
            (creates_unless_full (state_view self.old) table owner).1) }
        ensures err { OnErr result (book_of self.new ≡ book_of self.old) }
        ensures unsent { OnErr result (sent.new.items ≡ sent.old.items) }
    {
        let term = self.last_term + 1;
        self.recoveries.make_room()?;
        sent.reserve(1)?;
        match self.tablets.create(table, owner, term) {
            Ok(()) => {
                let grant = grants::first_grant(table, owner, term);
                self.recoveries.remember(grant);
                sent.push(notices::own_to(owner, grant)).unwrap();
                self.last_term = term;
                Ok(())
            }
            Err(Fault::OutOfMemory) => Err(AllocError),
            Err(fault) => {
                sent.push(notices::refusal(fault)).unwrap();
                Ok(())
            }
        }
    }

    /// Takes a Split, or refuses it to the outside (F13, F14, F15, F16).
    pub(crate) fn split(
        &mut self,
        table: u32,
        at: u64,
        sent: &mut Vec<Message>,
    ) -> Result<(), AllocError>
        ensures state { OnOk result (state_view self.new ≡ (splits (state_view self.old) table at).0) }
        ensures sends { OnOk result (sent.new.items ≡ sent.old.items ++ (splits (state_view self.old) table at).1) }
        ensures err { OnErr result (book_of self.new ≡ book_of self.old) }
        ensures unsent { OnErr result (sent.new.items ≡ sent.old.items) }
    {
        if self.tablets.find(table, at).is_none() {
            sent.push(notices::refusal(Fault::NoTable))?;
            return Ok(());
        }
        sent.reserve(1)?;
        match self.tablets.split(table, at) {
            Ok(()) => {
                sent.push(notices::split_ok(table, at)).unwrap();
                Ok(())
            }
            Err(Fault::OutOfMemory) => Err(AllocError),
            Err(fault) => {
                sent.push(notices::refusal(fault)).unwrap();
                Ok(())
            }
        }
    }

    /// Takes a Recovered. It is answered by a grant where the sender is up, else refused (F5); also where its attempt
    /// was replaced (F10), and where no tablet has exactly the range (F13).
    pub(crate) fn take_recovered(
        &mut self,
        id: ServerId,
        number: u32,
        term: u32,
        sent: &mut Vec<Message>,
    ) -> Result<(), AllocError>
        ensures state { OnOk result (state_view self.new ≡ (takes_recovered (state_view self.old) id number term).0) }
        ensures sends { OnOk result (sent.new.items ≡ sent.old.items ++
            (takes_recovered (state_view self.old) id number term).1) }
        ensures err { OnErr result (book_of self.new ≡ book_of self.old) }
        ensures unsent { OnErr result (sent.new.items ≡ sent.old.items) }
    {
        let answer = if !self.servers.is_up(id) {
            notices::refusal_to(id, Fault::Deposed)
        } else if let Some(grant) = self.recoveries.grant_to(id, term) {
            notices::own_to(id, grant)
        } else if let Some(part) = self.part_of_sender(id, number, term) {
            return self.grant_part(id, number, &part, sent);
        } else {
            notices::refusal_to(id, Fault::StaleAttempt)
        };
        sent.push(answer)?;
        Ok(())
    }

    /// The part of this term that the id has in this attempt, where that is its master's current one.
    fn part_of_sender(&self, id: ServerId, number: u32, term: u32) -> Option<Part>
        ensures { result ≡ part_of_sender (state_view self.now) id number term }
    {
        self.recoveries.part_of_sender(id, number, term)
    }

    /// Grants a part to the recovery master that has recovered it.
    fn grant_part(
        &mut self,
        id: ServerId,
        number: u32,
        part: &Part,
        sent: &mut Vec<Message>,
    ) -> Result<(), AllocError>
        ensures state { OnOk result (state_view self.new ≡ (grants_part (state_view self.old) id number part.now).0) }
        ensures sends { OnOk result (sent.new.items ≡ sent.old.items ++
            (grants_part (state_view self.old) id number part.now).1) }
        ensures err { OnErr result (book_of self.new ≡ book_of self.old) }
        ensures unsent { OnErr result (sent.new.items ≡ sent.old.items) }
    {
        self.recoveries.make_room()?;
        sent.reserve(1)?;
        match self.tablets.assign(part.range, id, part.term) {
            Ok(()) => {
                let grant = grants::grant_of(number, id, part);
                self.recoveries.remember(grant);
                sent.push(notices::own_to(id, grant)).unwrap();
            }
            Err(_) => sent.push(notices::refusal_to(id, Fault::NoTable)).unwrap(),
        }
        Ok(())
    }
}
