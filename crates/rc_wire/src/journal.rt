//! The journal, and what can be done with it.

ghost use Rattle.std.specs.Prelude.{◌≡◌, ◌⊎◌, ◌↔◌, ◌≤◌, [], ◌∷◌, ◌++◌, length, slice_get, IfOk, IfErr, OnOk, OnErr};
ghost use Rattle.std.specs.Option.{option_copied};
ghost use Rattle.rc_types.specs.declared.faults.Fault.TheVariants.{OutOfMemory, BadEvent};
ghost use Rattle.rc_types.specs.declared.limits.TheConstants.{MAX_EVENTS};
ghost use Rattle.rc_model.specs.World.{replay};
ghost use Rattle.rc_wire.specs.Views.{at_desk, new_desk};
ghost use Rattle.rc_wire.specs.Passes.{view, IsPassOf};
ghost use Rattle.rc_wire.specs.Numbers.{numbers_to, least_to};
ghost use Rattle.rc_wire.specs.Sound.{IsHistory};
ghost use Rattle.rc_wire.specs.JournalCalls.{new_places, seated, Tells, having_seen, IsStep, Adds};

use crate::index::first_from;
use crate::law::Pass;
use crate::ledger::Ledger;
use crate::names::Naming;
use crate::opening::Opening;
use crate::pages::Pages;
use crate::token::Token;
use rc_types::limits::MAX_EVENTS;
use rc_types::{Event, Fault, Message, NodeName, Setup};
use std::alloc::{AllocError, Global};
use std::marker::{Model, PhantomData};

/// The events of the wire of this name, with the messages that each sent. As a value it is its list of
/// events: the messages are what these send.
pub struct Journal<N: Naming> {
    ledger: Ledger,
    keeper: Pass,
    setup: Setup,
    pages: Pages,
    of: PhantomData<N>,
}

impl<N: Naming> Drop for Journal<N> {
    fn drop(self) {
        let Journal {
            ledger: _,
            keeper: _,
            setup: _,
            pages: _,
            of: _,
        } = self;
    }
}

impl<N: Naming> Model for Journal<N> {
    ghost use Rattle.std.specs.Prelude.{List};
    ghost use Rattle.rc_types.specs.declared.events.Event.{Event};
    ghost use Rattle.rc_wire.specs.Index.{lists_of};
    ghost use Rattle.rc_wire.specs.Sound.{Sound};

    ghost Value = { List Event };

    ghost view = { λ j. j.pages.events.items };

    ghost invariant = { λ j.
        Sound N.wire j.ledger j.keeper j.setup j.pages.events.items j.pages.messages.items (lists_of j.pages.index) };
}

impl<N: Naming> Journal<N> {
    /// The journal of a wire in which nothing has happened, and the tokens of its seats, in order of
    /// their numbers.
    ///
    /// # Errors
    ///
    /// `OutOfMemory` (F1): memory was refused.
    pub fn open(alloc: Global, opening: Opening) -> Result<(Journal<N>, Vec<Token<N>>), AllocError>
        requires { opening ≡ N.wire }
        ensures journal { IfOk result (λ made. made.0 ≡ []) }
        ensures tokens { IfOk result (λ made. made.1.items ≡ new_places N.wire.nodes) }
    {
        let Opening {
            ledger,
            keeper,
            setup,
            nodes,
        } = opening;
        let mut keeper = keeper;
        let tokens = deal(alloc, &ledger, &mut keeper, nodes)?;
        let pages = Pages::new(alloc)?;
        let journal = Journal {
            ledger,
            keeper,
            setup,
            pages,
            of: PhantomData,
        };
        Ok((journal, tokens))
    }

    /// What the world of the wire is opened with.
    pub fn setup(&self) -> &Setup
        ensures { result.now ≡ N.wire.setup }
    {
        &self.setup
    }

    /// How many events there are.
    pub fn len(&self) -> usize
        ensures { result ≡ length self.now }
    {
        self.pages.events.len()
    }

    /// All events, in order.
    pub fn events(&self) -> &[Event]
        ensures events { result.now ≡ self.now }
        ensures history { IsHistory N.wire result.now }
    {
        self.pages.events.as_slice()
    }

    /// The message of this number, where it was sent. It takes no memory.
    pub(crate) fn message(&self, number: usize) -> Option<&Message>
        ensures { option_copied result ≡ slice_get (replay N.wire.setup self.now).sent number }
    {
        self.pages.messages.get(number)
    }

    /// The numbers of the messages to this node, ascending; to a host, those to any generation. It takes
    /// no memory.
    pub fn numbers(&self, name: NodeName) -> &[usize]
        ensures { result.now ≡ numbers_to name (replay N.wire.setup self.now).sent }
    {
        self.pages.index.numbers(name)
    }

    /// The least number, from `from` on, of a message to this node; none where there is none. It scans
    /// nothing and takes no memory.
    pub(crate) fn next_to(&self, name: NodeName, from: usize) -> Option<usize>
        ensures { result ≡ least_to name from (replay N.wire.setup self.now).sent }
    {
        first_from(self.numbers(name), from)
    }

    /// The seat sees the whole history. It is told that the history begins with what it has seen before,
    /// and has of its node's events those that it added.
    pub(crate) fn look(&mut self, seat: &mut Token<N>)
        ensures journal { self.new ≡ self.old }
        ensures seat { seat.new ≡ having_seen seat.old self.old }
        ensures tells { Tells N.wire self.old seat.old }
    {
        self.ledger.see(&mut self.keeper, &mut seat.pass);
    }

    /// Adds a step of the seat's node, and answers the event's number. The seat has then seen all.
    ///
    /// # Errors
    ///
    /// The event and the messages come back, and the journal and what the seat has seen are as before:
    /// `BadEvent` (F18) exactly where 200,000 events have happened, else `OutOfMemory` (F1), where
    /// memory was refused.
    pub fn push(
        &mut self,
        seat: &mut Token<N>,
        event: Event,
        messages: Vec<Message>,
    ) -> Result<usize, (Event, Vec<Message>, Fault)>
        requires { IsStep N.wire self.old seat.old event messages.items }
        ensures ok { IfOk result (λ number. Adds N.wire self.old seat.old event number self.new seat.new) }
        ensures err { OnErr result ((self.new ≡ self.old) × (seat.new ≡ seat.old)) }
        ensures back { IfErr result (λ refused. (refused.0 ≡ event) × (refused.1.items ≡ messages.items)) }
        ensures fault { IfErr result (λ refused. (refused.2 ≡ OutOfMemory) ⊎ (refused.2 ≡ BadEvent)) }
        ensures full { IfErr result (λ refused. (refused.2 ≡ BadEvent) ↔ (length self.old ≡ MAX_EVENTS)) }
    {
        if self.pages.events.len() >= MAX_EVENTS {
            return Err((event, messages, Fault::BadEvent));
        }
        if self.pages.reserve(&messages).is_err() {
            return Err((event, messages, Fault::OutOfMemory));
        }
        self.ledger.add(&mut self.keeper, &mut seat.pass, &event);
        Ok(self.pages.add(event, messages))
    }
}

/// The keeper gives this many nodes a seat.
fn deal<N: Naming>(
    alloc: Global,
    ledger: &Ledger,
    keeper: &mut Pass,
    nodes: usize,
) -> Result<Vec<Token<N>>, AllocError>
    requires table { ledger.now.table.shared.table_id ≡ N.wire.table }
    requires token { IsPassOf ledger.now keeper.old }
    requires new { view keeper.old ≡ at_desk (new_desk N.wire.setup) }
    ensures tokens { IfOk result (λ tokens. tokens.items ≡ new_places nodes) }
    ensures token { IsPassOf ledger.now keeper.new }
    ensures keeper { OnOk result (view keeper.new ≡ at_desk (seated N.wire.setup nodes)) }
{
    let mut tokens = Vec::with_capacity(alloc, nodes)?;
    for _ in 0..nodes {
        tokens.push(Token::new(ledger.deal(keeper)))?;
    }
    Ok(tokens)
}
