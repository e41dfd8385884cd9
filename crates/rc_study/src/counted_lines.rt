//! The lines that tell what a run has reached, and what several runs have reached together.

use crate::counts::{Counts, OUTCOME_NAMES, OUTCOMES, more, sum};
use crate::rules::{RULE_NAMES, RULES, Rule};
use rc_types::{EventKind, Kind};
use std::alloc::AllocError;

impl Counts {
    /// The lines of it: the events, the messages and the refusals by kind, what came of them, and what was not reached:
    /// kinds of messages that were never sent, what never came of the events, and rules.
    ///
    /// # Errors
    ///
    /// Memory was refused.
    pub fn tell(&self, text: &mut String) -> Result<(), AllocError> {
        let event_names = EventKind::ALL.map(|kind| kind.name());
        let message_names = Kind::ALL.map(|kind| kind.name());
        text.push_str("events")?;
        tell_counted(text, &event_names, &self.events)?;
        text.push_str("\nmessages")?;
        tell_counted(text, &message_names, &self.bodies)?;
        text.push_str("\nrefusals")?;
        for (code, count) in self.refused.iter().enumerate() {
            if *count > 0 {
                write!(text, " F{code} {count}")?;
            }
        }
        text.push_str("\nreached")?;
        tell_all(text, &self.outcomes())?;
        text.push_str("\nunreached")?;
        tell_missing(text, &message_names, &self.bodies)?;
        tell_missing(text, &OUTCOME_NAMES, &self.outcomes())?;
        text.push_str("\nunreached-rules")?;
        tell_missing(text, &RULE_NAMES, &self.rules)?;
        text.push_str("\n")
    }

    /// The line of it among those of other seeds.
    ///
    /// # Errors
    ///
    /// Memory was refused.
    pub fn tell_seed(&self, text: &mut String, seed: u64, clean: bool) -> Result<(), AllocError> {
        write!(text, "seed {seed}")?;
        tell_count(text, "events", sum(&self.events))?;
        tell_count(text, "messages", sum(&self.bodies))?;
        tell_counted(text, &OUTCOME_NAMES, &self.outcomes())?;
        let rules = self.rules.iter().filter(|count| **count > 0).count();
        tell_count(text, "rules", rules as u64)?;
        write!(text, "/{RULES}")?;
        text.push_str(if clean { " clean\n" } else { " breach\n" })
    }
}

/// What several runs have reached together, and in how many of them.
#[derive(Clone, Copy)]
pub struct Sum {
    total: Counts,
    runs: u64,
    breaches: u64,
    outcomes: [u64; OUTCOMES],
    rules: [u64; RULES],
    /// Runs with a write acknowledged, a head rolled and a part recovered.
    full: u64,
}

impl Sum {
    /// Of no run.
    pub fn new() -> Sum {
        Sum {
            total: Counts::new(),
            runs: 0,
            breaches: 0,
            outcomes: [0; OUTCOMES],
            rules: [0; RULES],
            full: 0,
        }
    }

    /// One more run, which was clean or had a breach.
    pub fn add(&mut self, counts: &Counts, clean: bool) {
        self.total.add(counts);
        more(&mut self.runs);
        if !clean {
            more(&mut self.breaches);
        }
        add_reached(&mut self.outcomes, &counts.outcomes());
        add_reached(&mut self.rules, &counts.rules);
        if counts.bodies[2] > 0 && counts.reached(Rule::Roll) > 0 && counts.recovered > 0 {
            more(&mut self.full);
        }
    }

    /// The lines of it: those of a single run, of all that was counted; in how many runs what came of the events was
    /// reached, and each rule; and how many runs there were.
    ///
    /// # Errors
    ///
    /// Memory was refused.
    pub fn tell(&self, text: &mut String) -> Result<(), AllocError> {
        self.total.tell(text)?;
        text.push_str("in-runs")?;
        tell_all(text, &self.outcomes)?;
        write!(text, " all-three {}\nrules-in-runs", self.full)?;
        tell_counted(text, &RULE_NAMES, &self.rules)?;
        write!(text, "\nruns {}\nbreaches {}\n", self.runs, self.breaches)
    }
}

/// One run more at each place at which something was counted.
fn add_reached(runs: &mut [u64], counts: &[u64]) {
    for (run, count) in runs.iter_mut().zip(counts) {
        *run = run.saturating_add(u64::from(*count > 0));
    }
}

/// A name and its count.
fn tell_count(text: &mut String, name: &str, count: u64) -> Result<(), AllocError> {
    write!(text, " {name} {count}")
}

/// All counts of what came of the events, by name.
fn tell_all(text: &mut String, counts: &[u64; OUTCOMES]) -> Result<(), AllocError> {
    for (name, count) in OUTCOME_NAMES.iter().zip(counts) {
        tell_count(text, name, *count)?;
    }
    Ok(())
}

/// The counts by name; where one is 0, it is left out.
fn tell_counted(
    text: &mut String,
    names: &[&'static str],
    counts: &[u64],
) -> Result<(), AllocError> {
    for (name, count) in names.iter().zip(counts) {
        if *count > 0 {
            tell_count(text, name, *count)?;
        }
    }
    Ok(())
}

/// The names whose count is 0.
fn tell_missing(
    text: &mut String,
    names: &[&'static str],
    counts: &[u64],
) -> Result<(), AllocError> {
    for (name, count) in names.iter().zip(counts) {
        if *count == 0 {
            write!(text, " {name}")?;
        }
    }
    Ok(())
}
