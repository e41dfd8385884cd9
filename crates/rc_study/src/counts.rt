//! What is counted of a run, or of several.

use crate::rules::{RULES, Rule};
use rc_types::{Body, Event, EventKind, Kind, Message};

/// How many kinds of events there are.
const EVENTS: usize = EventKind::ALL.len();

/// How many kinds of messages there are.
const BODIES: usize = Kind::ALL.len();

/// How many codes there are, and one more, for their numbers begin at 1. One beyond it would not be counted: a new
/// code raises it.
const CODES: usize = 22;

/// How many outcomes are counted by name.
pub(crate) const OUTCOMES: usize = 9;

/// Their names.
pub(crate) const OUTCOME_NAMES: [&str; OUTCOMES] = [
    "acknowledged",
    "rolls",
    "epochs-committed",
    "members-replaced",
    "fenced-writes",
    "zombie-acknowledgements",
    "parts-recovered",
    "most-owners",
    "segments-freed",
];

/// What is counted of a run, or of several.
#[derive(Clone, Copy)]
pub struct Counts {
    /// Of each kind of event, how many happened.
    pub(crate) events: [u64; EVENTS],
    /// Of each kind of message, how many were sent.
    pub(crate) bodies: [u64; BODIES],
    /// Of each code, how often something was refused with it.
    pub(crate) refused: [u64; CODES],
    /// Of each rule, how often it was reached.
    pub(crate) rules: [u64; RULES],
    /// Epochs above a segment's first one that were committed.
    pub(crate) epochs: u64,
    /// Places, Appends and Closes of a master that a backup had fenced.
    pub(crate) fenced: u64,
    /// Writes that a master acknowledged after it had been suspected.
    pub(crate) zombies: u64,
    /// Parts that were granted to a recovery master.
    pub(crate) recovered: u64,
    /// The most owners that a key has had in turn.
    pub(crate) owners: u64,
}

/// One more of this.
pub(crate) fn more(count: &mut u64) {
    *count = count.saturating_add(1);
}

/// One more at this place, where there is one.
fn more_at(counts: &mut [u64], at: usize) {
    if at < counts.len() {
        counts[at] = counts[at].saturating_add(1);
    }
}

/// Adds others at each place.
fn add_each(counts: &mut [u64], others: &[u64]) {
    for (count, other) in counts.iter_mut().zip(others) {
        *count = count.saturating_add(*other);
    }
}

impl Counts {
    /// Nothing has happened.
    pub(crate) fn new() -> Counts {
        Counts {
            events: [0; EVENTS],
            bodies: [0; BODIES],
            refused: [0; CODES],
            rules: [0; RULES],
            epochs: 0,
            fenced: 0,
            zombies: 0,
            recovered: 0,
            owners: 0,
        }
    }

    /// This rule was reached.
    pub(crate) fn reach(&mut self, rule: Rule) {
        more_at(&mut self.rules, rule as usize);
    }

    /// This rule was reached, if this holds.
    pub(crate) fn reach_if(&mut self, holds: bool, rule: Rule) {
        if holds {
            self.reach(rule);
        }
    }

    /// How often this rule was reached.
    pub(crate) fn reached(&self, rule: Rule) -> u64 {
        self.rules.get(rule as usize).copied().unwrap_or(0)
    }

    /// One more event.
    pub(crate) fn event(&mut self, event: &Event) {
        more_at(&mut self.events, EventKind::of(event).number().into());
    }

    /// One more message.
    pub(crate) fn message(&mut self, message: &Message) {
        more_at(&mut self.bodies, Kind::of(&message.body).number().into());
        if let Body::Refused { code } = &message.body {
            more_at(&mut self.refused, code.number() as usize);
        }
    }

    /// All that was counted of another run too.
    pub(crate) fn add(&mut self, other: &Counts) {
        add_each(&mut self.events, &other.events);
        add_each(&mut self.bodies, &other.bodies);
        add_each(&mut self.refused, &other.refused);
        add_each(&mut self.rules, &other.rules);
        self.epochs = self.epochs.saturating_add(other.epochs);
        self.fenced = self.fenced.saturating_add(other.fenced);
        self.zombies = self.zombies.saturating_add(other.zombies);
        self.recovered = self.recovered.saturating_add(other.recovered);
        self.owners = self.owners.max(other.owners);
    }

    /// What came of the events, in the order of its names.
    pub(crate) fn outcomes(&self) -> [u64; OUTCOMES] {
        [
            self.bodies[Kind::WriteOk as usize],
            self.reached(Rule::Roll),
            self.epochs,
            self.reached(Rule::MemberReplaced),
            self.fenced,
            self.zombies,
            self.recovered,
            self.owners,
            self.bodies[Kind::Free as usize],
        ]
    }
}

/// The sum of these.
pub(crate) fn sum(counts: &[u64]) -> u64 {
    let counts = counts.iter();
    counts.fold(0u64, |all, count| all.saturating_add(*count))
}
