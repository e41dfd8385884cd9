//! What a run is to reach: a rule, a kind of event or a kind of message, by name.

use crate::counts::Counts;
use crate::rules::RULE_NAMES;
use rc_types::{EventKind, Kind};
use std::alloc::{AllocError, Global};

/// What a run is to reach.
#[derive(Clone, Copy)]
pub enum Goal {
    /// The rule at this place among all.
    Rule(usize),
    /// An event of this kind.
    Event(EventKind),
    /// A message of this kind.
    Message(Kind),
}

impl Goal {
    /// What this word names, with letters that are small or capital, if it names something.
    pub fn of(word: &str) -> Option<Goal> {
        let is_named = |name: &str| name.eq_ignore_ascii_case(word);
        if let Some(at) = RULE_NAMES.iter().position(|name| is_named(name)) {
            return Some(Goal::Rule(at));
        }
        let mut events = EventKind::ALL.iter();
        if let Some(kind) = events.find(|kind| is_named(kind.name())) {
            return Some(Goal::Event(*kind));
        }
        let kind = Kind::ALL.iter().find(|kind| is_named(kind.name()))?;
        Some(Goal::Message(*kind))
    }

    /// All names.
    ///
    /// # Errors
    ///
    /// Memory was refused.
    pub fn names(alloc: Global) -> Result<Vec<&'static str>, AllocError> {
        let mut names = Vec::new(alloc);
        names.extend_from_slice(&RULE_NAMES)?;
        names.extend_from_slice(&EventKind::ALL.map(|kind| kind.name()))?;
        names.extend_from_slice(&Kind::ALL.map(|kind| kind.name()))?;
        Ok(names)
    }

    /// Its name.
    pub fn name(self) -> &'static str {
        match self {
            Goal::Rule(at) => RULE_NAMES.get(at).copied().unwrap_or(""),
            Goal::Event(kind) => kind.name(),
            Goal::Message(kind) => kind.name(),
        }
    }
}

impl Counts {
    /// Whether this was reached.
    pub fn has(&self, goal: Goal) -> bool {
        let count = match goal {
            Goal::Rule(at) => self.rules.get(at),
            Goal::Event(kind) => self.events.get(usize::from(kind.number())),
            Goal::Message(kind) => self.bodies.get(usize::from(kind.number())),
        };
        count.is_some_and(|count| *count > 0)
    }
}
