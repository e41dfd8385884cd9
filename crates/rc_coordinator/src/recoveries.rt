//! What the coordinator remembers of recoveries: the attempts and the grants.

ghost use Rattle.std.specs.Prelude.{◌≡◌, ◌+◌, ◌-◌, ◌^◌, ◌<◌, ◌≤◌, ◌++◌, ◌∷◌, [], true, false, length, find, filter};
ghost use Rattle.std.specs.Prelude.{Some, slice_set, OnOk, OnErr, IfOk};
ghost use Rattle.std.specs.Option.{option_copied};
ghost use Rattle.rc_types.specs.declared.messages.Body.TheVariants.{Gather};
ghost use Rattle.rc_model.specs.Tables.{put_id};
ghost use Rattle.rc_model.specs.Messages.{to_each};
ghost use Rattle.rc_model.specs.ServerList.{up};
ghost use Rattle.rc_model.specs.Attempts.{Attempt as Attempted, new_attempt, is_gathering};
ghost use Rattle.rc_model.specs.Deciding.{is_grant_to, with_answer, part_of_sender};
ghost use Rattle.rc_attempts.specs.Lookups.{number_of, attempt_of, knowing};
ghost use Rattle.rc_coordinator.specs.Recovering.{is_granted};
ghost use Rattle.rc_coordinator.specs.Asked.{AreAsked, AreUpTo, is_open, has_open_part, waits_at};

use crate::grants::Grants;
use crate::notices;
use indexmap::IndexMap;
use rc_attempts::numbers::{attempt_of, current_number, part_of_sender};
use rc_attempts::{Attempt, Decision, GivenPart};
use rc_serverlist::ServerList;
use rc_types::{Grant, Message, Part, Row, Seq, ServerId};
use std::alloc::{AllocError, Global};
use std::marker::Model;

/// All attempts so far, of which that of number k stands at place k - 1; of each master the number of
/// its current one; all grants; and the numbers of the attempts that a timer has to look at, in order.
#[derive(Drop)]
pub(crate) struct Recoveries {
    attempts: Vec<Attempt>,
    current: IndexMap<ServerId, u32>,
    grants: Grants,
    asked: Vec<u32>,
}

impl Model for Recoveries {
    ghost use Rattle.rc_coordinator.specs.Recovering.{Recovering};
    ghost use Rattle.rc_coordinator.specs.Asked.{AreNumbered};

    ghost Value = { Recovering };

    ghost view = { λ r. record {
      attempts = r.attempts.items;
      current = r.current.entries;
      grants = r.grants.grants;
      ready = r.grants.ready;
    } };

    ghost invariant = { λ r. AreNumbered r.attempts.items r.current.entries r.grants.grants r.asked.items };
}

impl Recoveries {
    /// No attempt and no grant. It takes no memory.
    pub(crate) fn new(alloc: Global) -> Recoveries
        ensures attempts { result.attempts ≡ [] }
        ensures current { result.current ≡ [] }
        ensures grants { result.grants ≡ [] }
    {
        Recoveries {
            attempts: Vec::new(alloc),
            current: IndexMap::new(alloc),
            grants: Grants::new(alloc),
            asked: Vec::new(alloc),
        }
    }

    /// These attempts, these current numbers, and these grants, in this order.
    pub(crate) fn from_parts(
        alloc: Global,
        attempts: Vec<Attempt>,
        current: IndexMap<ServerId, u32>,
        grants: &[Grant],
    ) -> Result<Recoveries, AllocError>
        requires { length attempts.items < 2 ^ 32 }
        ensures attempts { IfOk result (λ made. made.attempts ≡ attempts.items) }
        ensures current { IfOk result (λ made. made.current ≡ current.entries) }
        ensures grants { IfOk result (λ made. made.grants ≡ grants.now) }
    {
        let asked = all_numbers(alloc, attempts.len() as u32)?;
        let grants = Grants::from_list(alloc, grants)?;
        Ok(Recoveries {
            attempts,
            current,
            grants,
            asked,
        })
    }

    /// How many attempts there were.
    pub(crate) fn count(&self) -> usize
        ensures { result ≡ length self.now.attempts }
    {
        self.attempts.len()
    }

    /// All attempts, in the order of their numbers, which have four bytes.
    pub(crate) fn attempts(&self) -> &[Attempt]
        ensures all { result.now ≡ self.now.attempts }
        ensures few { length self.now.attempts < 2 ^ 32 }
    {
        self.attempts.as_slice()
    }

    /// The number of the current attempt of each master that had one.
    pub(crate) fn current(&self) -> &IndexMap<ServerId, u32>
        ensures { result.now.entries ≡ self.now.current }
    {
        &self.current
    }

    /// All grants, in the order of granting.
    pub(crate) fn grants(&self) -> &[Grant]
        ensures { result.now ≡ self.now.grants }
    {
        self.grants.list()
    }

    /// The number of the master's current attempt, and 0 if it has none.
    pub(crate) fn current_number(&self, master: ServerId) -> u32
        ensures { result ≡ number_of self.now.current master }
    {
        current_number(&self.current, master)
    }

    /// The attempt of this number.
    pub(crate) fn attempt(&self, number: u32) -> Option<&Attempt>
        ensures { option_copied result ≡ attempt_of self.now.attempts number }
    {
        attempt_of(&self.attempts, number)
    }

    /// The part of this term that the id has in this attempt, where that is its master's current one.
    pub(crate) fn part_of_sender(&self, id: ServerId, number: u32, term: u32) -> Option<Part>
        ensures { result ≡ part_of_sender (knowing self.now.attempts self.now.current) id number term }
    {
        part_of_sender(&self.attempts, &self.current, id, number, term)
    }

    /// Begins an attempt, which becomes the master's current one, and adds to those sent these
    /// messages and then a Gather to every server that is up. Only memory can be refused (F1), and
    /// then nothing has changed but the list of these messages.
    pub(crate) fn begin(
        &mut self,
        alloc: Global,
        servers: &ServerList,
        master: ServerId,
        messages: &mut Vec<Message>,
        sent: &mut Vec<Message>,
    ) -> Result<(), AllocError>
        requires { length self.old.attempts < 2 ^ 32 - 1 }
        ensures attempts { OnOk result (self.new.attempts ≡ self.old.attempts ++ new_attempt master ∷ []) }
        ensures current { OnOk result (number_of self.new.current ≡ put_id (number_of self.old.current) master
            (length self.old.attempts + 1)) }
        ensures grants { self.new.grants ≡ self.old.grants }
        ensures sends { OnOk result (sent.new.items ≡ sent.old.items ++
            (messages.old.items ++ to_each (up servers.now) (Gather (length self.old.attempts + 1) master))) }
        ensures err { OnErr result (self.new ≡ self.old) }
        ensures unsent { OnErr result (sent.new.items ≡ sent.old.items) }
    {
        let number = self.attempts.len() as u32 + 1;
        notices::add_gathers(alloc, servers, number, master, messages)?;
        self.attempts.reserve(1)?;
        self.asked.reserve(1)?;
        sent.reserve(messages.len())?;
        self.current.insert(master, number)?;
        self.attempts.push(Attempt::new(alloc, master)).unwrap();
        self.asked.push(number).unwrap();
        sent.append(messages).unwrap();
        Ok(())
    }

    /// Keeps an answer to the attempt of this number. Only memory can be refused (F1), and then
    /// nothing has changed.
    pub(crate) fn keep(
        &mut self,
        number: u32,
        from: ServerId,
        rows: Seq<Row>,
    ) -> Result<(), AllocError>
        requires { (0 < number) × (number ≤ length self.old.attempts) }
        ensures ok { OnOk result ((attempt : Attempted) → attempt_of self.old.attempts number ≡ Some attempt →
            self.new ≡ record self.old
            { attempts = slice_set self.old.attempts (number - 1) (with_answer from rows attempt) }) }
        ensures err { OnErr result (self.new ≡ self.old) }
    {
        self.attempts[number as usize - 1].keep(from, rows)
    }

    /// Keeps the decision on the attempt of this number, on which nothing was decided.
    pub(crate) fn decide(&mut self, number: u32, decision: Decision)
        requires place { (0 < number) × (number ≤ length self.old.attempts) }
        requires gathers { (attempt : Attempted) → attempt_of self.old.attempts number ≡ Some attempt →
            is_gathering attempt ≡ true }
        ensures { (attempt : Attempted) → attempt_of self.old.attempts number ≡ Some attempt →
            self.new ≡ record self.old
            { attempts = slice_set self.old.attempts (number - 1) (record attempt { decided = Some decision }) } }
    {
        self.attempts[number as usize - 1].decide(decision);
    }

    /// Passes over the attempts that wait for nothing any more, so that no timer looks at them again.
    pub(crate) fn pass_over_quiet(&mut self)
        ensures { self.new ≡ self.old }
    {
        self.asked.retain(|number| waits(&self.attempts, &self.current, &self.grants, *number));
    }

    /// The numbers of the attempts that a timer has to look at, in order.
    pub(crate) fn asked(&self) -> &[u32]
        ensures { AreAsked self.now.attempts self.now.current self.now.grants result.now }
    {
        self.asked.as_slice()
    }

    /// The grant of this term to this owner.
    pub(crate) fn grant_to(&self, owner: ServerId, term: u32) -> Option<Grant>
        ensures { result ≡ find (is_grant_to owner term) self.now.grants }
    {
        self.grants.grant_to(owner, term)
    }

    /// Whether the term was granted.
    pub(crate) fn is_granted(&self, term: u32) -> bool
        ensures { result ≡ is_granted self.now.grants term }
    {
        self.grants.is_granted(term)
    }

    /// Makes room for one more grant. Only memory can be refused (F1).
    pub(crate) fn make_room(&mut self) -> Result<(), AllocError>
        ensures same { self.new ≡ record self.old { ready = self.new.ready } }
        ensures ready { OnOk result (self.new.ready ≡ true) }
    {
        self.grants.make_room()
    }

    /// Remembers a grant, for which there is room.
    pub(crate) fn remember(&mut self, grant: Grant)
        requires { self.old.ready ≡ true }
        ensures { self.new ≡ record self.old { grants = self.old.grants ++ grant ∷ []; ready = false } }
    {
        self.grants.remember(grant);
    }
}

/// The numbers of so many attempts, in order.
#[tactic(auto, using(crate::proofs::ListLemmas::up_to_none, crate::proofs::ListLemmas::up_to_more))]
fn all_numbers(alloc: Global, count: u32) -> Result<Vec<u32>, AllocError>
    ensures { IfOk result (λ numbers. AreUpTo count numbers.items) }
{
    let mut numbers = Vec::new(alloc);
    for before in 0..count {
        numbers.push(before + 1)?;
    }
    Ok(numbers)
}

/// Whether the attempt of this number waits for something: it is its master's current one, and is open.
fn waits(
    attempts: &[Attempt],
    current: &IndexMap<ServerId, u32>,
    grants: &Grants,
    number: u32,
) -> bool
    ensures { result ≡ waits_at current.now.entries grants.now.grants number (attempt_of attempts.now number) }
{
    match attempt_of(attempts, number) {
        Some(attempt) => {
            current_number(current, attempt.master()) == number && is_open(grants, attempt)
        }
        None => false,
    }
}

/// Whether nothing is decided on the attempt, or a part isn't granted.
fn is_open(grants: &Grants, attempt: &Attempt) -> bool
    ensures { result ≡ is_open grants.now.grants attempt.now.decided }
{
    match attempt.decided() {
        Some(decision) => has_open_part(grants, decision.parts()),
        None => true,
    }
}

/// Whether one of these parts isn't granted.
fn has_open_part(grants: &Grants, parts: &[GivenPart]) -> bool
    ensures { result ≡ has_open_part grants.now.grants parts.now }
{
    parts
        .iter()
        .any(|given| !grants.is_granted(given.part.term))
}
