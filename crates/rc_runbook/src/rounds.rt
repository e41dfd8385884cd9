//! A round of the runbook.

use crate::course::Course;
use crate::deeds::{Deed, Why};
use crate::views::settle;
use crate::{Due, Seen, dues};
use rc_attempts::numbers::{attempt_of, current_number};
use rc_types::limits::MAX_HOSTS;
use rc_types::{Event, Fault, Order, ServerId, Setup};
use std::alloc::{AllocError, Global};

/// How often something is due in one round, at most.
const MOST_STEPS: usize = 256;

/// What a healer does.
#[derive(Drop)]
pub(crate) struct Healer {
    pub(crate) course: Course,
    pub(crate) deeds: Vec<Deed>,
    /// How many servers have to be up.
    wanted: usize,
    /// The recoveries that were refused, by attempt, with how many had answered.
    refused: Vec<Refusal>,
}

/// A recovery that was refused.
#[derive(Clone, Copy, PartialEq, Eq)]
struct Refusal {
    master: ServerId,
    attempt: u32,
    answers: usize,
}

impl Healer {
    /// One that has done nothing.
    pub(crate) fn new(alloc: Global, setup: &Setup, course: Course) -> Healer {
        let wanted = wanted(setup, &course);
        Healer {
            course,
            deeds: Vec::new(alloc),
            wanted,
            refused: Vec::new(alloc),
        }
    }

    /// The world that goes on, and what was done.
    pub(crate) fn end(self) -> (Course, Vec<Deed>) {
        let Healer {
            course,
            deeds,
            wanted: _,
            refused: _,
        } = self;
        (course, deeds)
    }

    /// Notes what is done now.
    fn note(&mut self, why: Why) -> Result<(), AllocError> {
        let after = self.course.world.events().len();
        self.deeds.push(Deed { after, why })?;
        Ok(())
    }

    /// All servers stop, and then all hosts are started.
    pub(crate) fn cut_power(&mut self, alloc: Global) -> Result<(), Fault> {
        self.note(Why::PowerCut)?;
        for host in 0..MAX_HOSTS {
            if let Some(id) = self.course.running(host) {
                self.course.take(alloc, &Event::Stop(id))?;
            }
        }
        for host in 0..MAX_HOSTS {
            if self.course.world.newest(host) > 0 {
                self.course.start(alloc, host)?;
            }
        }
        Ok(())
    }

    /// One round: hosts are started, all settles, and then what is due is done, until nothing is. These owners are
    /// stuck.
    pub(crate) fn round(&mut self, alloc: Global, stuck: &[ServerId]) -> Result<(), Fault> {
        self.start_hosts(alloc)?;
        settle(alloc, &mut self.course)?;
        let mut stuck = stuck;
        for _ in 0..MOST_STEPS {
            let due = self.due(alloc, stuck)?;
            if due.is_empty() {
                return Ok(());
            }
            for one in &due {
                self.do_due(alloc, *one, stuck)?;
            }
            stuck = &[];
            settle(alloc, &mut self.course)?;
        }
        Ok(())
    }

    /// Hosts are started: each that does not run, and others until enough run.
    fn start_hosts(&mut self, alloc: Global) -> Result<(), Fault> {
        for host in 0..MAX_HOSTS {
            if let Some(why) = self.why_start(host) {
                self.note(why)?;
                self.course.start(alloc, host)?;
            }
        }
        Ok(())
    }

    /// Why this host is to be started, if it is.
    fn why_start(&self, host: u8) -> Option<Why> {
        if self.course.running(host).is_some() {
            None
        } else if self.course.world.newest(host) > 0 {
            Some(Why::Stopped(host))
        } else if count_hosts(&self.course) < self.wanted {
            Some(Why::TooFew(host))
        } else {
            None
        }
    }

    /// What is due now, all of the first kind that is, but no decision that was refused.
    fn due(&self, alloc: Global, stuck: &[ServerId]) -> Result<Vec<Due>, Fault> {
        let heard = self.running_ids(alloc)?;
        let silent = self.silent_ids(alloc)?;
        let seen = Seen {
            heard: heard.as_slice(),
            silent: silent.as_slice(),
            stuck,
        };
        let mut list: Vec<Due> = Vec::new(alloc);
        for due in &dues(alloc, self.course.world.coordinator(), &seen)? {
            let is_next = match list.first() {
                Some(first) => is_alike(*first, *due),
                None => true,
            };
            if is_next && !self.was_refused(*due) {
                list.push(*due)?;
            }
        }
        Ok(list)
    }

    /// The servers that run.
    fn running_ids(&self, alloc: Global) -> Result<Vec<ServerId>, AllocError> {
        let mut ids = Vec::new(alloc);
        for host in 0..MAX_HOSTS {
            if let Some(id) = self.course.running(host) {
                ids.push(id)?;
            }
        }
        Ok(ids)
    }

    /// The servers that are up and do not run.
    fn silent_ids(&self, alloc: Global) -> Result<Vec<ServerId>, Fault> {
        let mut ids = Vec::new(alloc);
        for id in &self.course.world.coordinator().servers().up(alloc)? {
            if !self.course.world.is_running(*id) {
                ids.push(*id)?;
            }
        }
        Ok(ids)
    }

    /// Whether it is a decision that was refused, and would be again.
    fn was_refused(&self, due: Due) -> bool {
        match due {
            Due::Decide(id) => {
                let refusal = refusal_of(&self.course, id);
                self.refused.iter().any(|other| *other == refusal)
            }
            _ => false,
        }
    }

    /// Whether the recovery of this master is refused, as it now stands.
    pub(crate) fn is_refused(&self, master: ServerId) -> bool {
        self.was_refused(Due::Decide(master))
    }

    /// Does what is due.
    fn do_due(&mut self, alloc: Global, due: Due, stuck: &[ServerId]) -> Result<(), Fault> {
        let why = self.why(due, stuck);
        self.note(why)?;
        match due {
            Due::Restart(id) => self.course.restart(alloc, id),
            Due::Suspect(id) => self.course.take(alloc, &Event::Order(Order::Suspect(id))),
            Due::Decide(id) => self.decide(alloc, id),
        }
    }

    /// Why it is due, where these owners are stuck.
    fn why(&self, due: Due, stuck: &[ServerId]) -> Why {
        match due {
            Due::Restart(id) if stuck.contains(&id) => Why::Stuck(id),
            Due::Restart(id) => Why::Zombie(id),
            Due::Suspect(id) if self.course.world.coordinator().servers().is_up(id) => Why::Silent(
                id,
            ),
            Due::Suspect(id) => Why::Again(id),
            Due::Decide(id) => Why::Answered(id),
        }
    }

    /// Decides the recovery of a master, and notes where that was refused.
    fn decide(&mut self, alloc: Global, id: ServerId) -> Result<(), Fault> {
        self.course.take(alloc, &Event::Order(Order::Decide(id)))?;
        if is_gathering(&self.course, id) {
            self.refused.push(refusal_of(&self.course, id))?;
        }
        Ok(())
    }
}

/// Whether both are of one kind: things of one kind are done together.
fn is_alike(due: Due, other: Due) -> bool {
    match (due, other) {
        (Due::Restart(_), Due::Restart(_)) => true,
        (Due::Suspect(_), Due::Suspect(_)) => true,
        (Due::Decide(_), Due::Decide(_)) => true,
        _ => false,
    }
}

/// What a refusal of this master's recovery would be now.
fn refusal_of(course: &Course, master: ServerId) -> Refusal {
    let coordinator = course.world.coordinator();
    let number = current_number(coordinator.current(), master);
    let answers = match attempt_of(coordinator.attempts(), number) {
        Some(attempt) => attempt.replies().len(),
        None => 0,
    };
    Refusal {
        master,
        attempt: number,
        answers,
    }
}

/// Whether the recovery of this master is not decided.
fn is_gathering(course: &Course, master: ServerId) -> bool {
    let coordinator = course.world.coordinator();
    let number = current_number(coordinator.current(), master);
    match attempt_of(coordinator.attempts(), number) {
        Some(attempt) => attempt.is_gathering(),
        None => false,
    }
}

/// How many hosts were ever started.
fn count_hosts(course: &Course) -> usize {
    let mut count: usize = 0;
    for host in 0..MAX_HOSTS {
        if course.world.newest(host) > 0 {
            count = count.saturating_add(1);
        }
    }
    count
}

/// How many servers have to be up: one more than the greatest factor of a host that was ever started.
fn wanted(setup: &Setup, course: &Course) -> usize {
    let mut most = 0;
    for host in 0..MAX_HOSTS {
        if course.world.newest(host) > 0 {
            let factor = setup
                .factors
                .as_slice()
                .get(usize::from(host))
                .copied()
                .unwrap_or(setup.factor);
            most = factor.max(most);
        }
    }
    usize::from(most).saturating_add(1)
}
