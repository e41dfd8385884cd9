//! The survey of a run, event by event.

use crate::backups::Kept;
use crate::counts::{Counts, more};
use crate::logs::Placing;
use crate::recoveries::Recoveries;
use crate::replicas::Replica;
use crate::rules::Rule;
use crate::servers::{Servers, pair};
use rc_types::{
    Addr, Body, Code, Entry, Event, KeyRange, Message, Order, Part, Seq, ServerId, Shared,
};
use std::alloc::{AllocError, Global};
use std::collections::HashSet;

/// What a run has reached so far, and what has to be known of it to see more.
pub struct Survey {
    pub(crate) counts: Counts,
    pub(crate) servers: Servers,
    /// By backup, master and segment: what was freed.
    pub(crate) freed: HashSet<(ServerId, ServerId, u16)>,
    pub(crate) recoveries: Recoveries,
}

impl Drop for Survey {
    fn drop(self) {
        let Survey {
            counts: _,
            servers: _,
            freed: _,
            recoveries: _,
        } = self;
    }
}

/// What a step was, as far as that tells of what it sent.
#[derive(Clone, Copy, PartialEq)]
enum Step {
    Write,
    Stored,
    Tick,
    Other,
}

impl Survey {
    /// Nothing has happened.
    pub fn new(alloc: Global) -> Survey {
        Survey {
            counts: Counts::new(),
            servers: Servers::new(alloc),
            freed: HashSet::new(alloc),
            recoveries: Recoveries::new(alloc),
        }
    }

    /// What was reached.
    pub fn counts(&self) -> &Counts {
        &self.counts
    }

    /// This rule was reached, if this holds.
    pub(crate) fn reach_if(&mut self, holds: bool, rule: Rule) {
        self.counts.reach_if(holds, rule);
    }

    /// One more event: of all messages that were sent, it has sent those from this number on.
    ///
    /// # Errors
    ///
    /// Memory was refused.
    pub fn note(
        &mut self,
        event: &Event,
        sent: &[Message],
        first: usize,
    ) -> Result<(), AllocError> {
        let (before, answer) = sent.split_at(first.min(sent.len()));
        self.counts.event(event);
        let delivered = match event {
            Event::Deliver(number) => before.get(*number),
            _ => None,
        };
        self.happen(event, delivered, answer)?;
        let step = step_of(event, delivered);
        for message in answer {
            self.counts.message(message);
            self.learn(step, message)?;
        }
        Ok(())
    }

    /// What the event has reached.
    fn happen(
        &mut self,
        event: &Event,
        delivered: Option<&Message>,
        answer: &[Message],
    ) -> Result<(), AllocError> {
        if let Some(message) = delivered {
            return self.delivery(message, answer);
        }
        match event {
            Event::Tick(_) => self.reach_if(!answer.is_empty(), Rule::TickRepeats),
            Event::Start { host, kept } => self.start(*host, kept.as_slice())?,
            Event::Stop(id) => {
                if let Some(server) = self.servers.get_mut(*id) {
                    server.runs = false;
                }
            }
            Event::Order(Order::Suspect(id)) => {
                if let Some(server) = self.servers.get_mut(*id) {
                    server.is_suspected = true;
                }
            }
            Event::Order(Order::Decide(_)) => self.decide(answer),
            _ => {}
        }
        Ok(())
    }

    /// What a delivery has reached.
    fn delivery(&mut self, message: &Message, answer: &[Message]) -> Result<(), AllocError> {
        match (message.to, message.from) {
            (Addr::Server(to), _) => {
                let server = self.servers.get(to);
                if server.is_some_and(|server| server.runs) {
                    self.at_server(to, message, answer)?;
                }
            }
            (Addr::Coordinator, Addr::Server(from)) => self.report(from, &message.body, answer)?,
            _ => {}
        }
        Ok(())
    }

    /// What a delivery to a server that runs has reached.
    fn at_server(
        &mut self,
        to: ServerId,
        message: &Message,
        answer: &[Message],
    ) -> Result<(), AllocError> {
        match (message.from, &message.body) {
            (
                Addr::Server(master),
                Body::Place { seg, .. } | Body::Append { seg, .. } | Body::Close { seg, .. },
            ) => self.store(kept_at(to, master, *seg), &message.body, answer),
            (Addr::Server(master), Body::Free { seg }) => self.free(kept_at(to, master, *seg))?,
            (_, Body::Gather { master, .. }) => self.gather(to, *master)?,
            (_, Body::Fetch { len, .. }) => self.fetch(*len, answer),
            (_, Body::List { version, rows }) => self.list(to, *version, rows, answer),
            (
                Addr::Coordinator,
                Body::Refused {
                    code: Code::Deposed,
                },
            ) => {
                if let Some(server) = self.servers.get_mut(to) {
                    server.is_deposed = true;
                }
            }
            (_, body) => self.ask(to, body, answer),
        }
        Ok(())
    }

    /// What a message that was sent tells.
    fn learn(&mut self, step: Step, message: &Message) -> Result<(), AllocError> {
        match (message.from, message.to) {
            (Addr::Server(from), Addr::Server(to)) => {
                self.learn_between(step, from, to, &message.body)?;
            }
            (Addr::Server(from), _) => self.learn_of_server(step, from, &message.body),
            (Addr::Coordinator, Addr::Server(to)) => self.learn_of_coordinator(to, &message.body)?,
            _ => {}
        }
        Ok(())
    }

    /// What a message from a server to another one tells.
    fn learn_between(
        &mut self,
        step: Step,
        from: ServerId,
        to: ServerId,
        body: &Body,
    ) -> Result<(), AllocError> {
        match body {
            Body::Place {
                seg,
                epoch,
                digest,
                closed,
                ..
            } => {
                if let Some(server) = self.servers.get_mut(from) {
                    let placing = server.log.place(to, *seg, *epoch, *closed)?;
                    self.placed(step, placing, from, *seg, *epoch, digest);
                }
            }
            Body::Append { seg, entries, .. } => self.append(step, from, *seg, entries)?,
            Body::Close { seg, .. } => {
                if let Some(segment) = self.servers.segment_mut(from, *seg) {
                    self.counts
                        .reach_if(segment.close(), Rule::CloseUnderNewEpoch);
                }
            }
            Body::Stored { seg, .. } => {
                if let Some(replica) = Replica::told_in(body) {
                    self.servers.tell(from.index, to, *seg, replica)?;
                }
            }
            _ => {}
        }
        Ok(())
    }

    /// A master has placed a segment.
    fn placed(
        &mut self,
        step: Step,
        placing: Placing,
        master: ServerId,
        seg: u16,
        epoch: u16,
        digest: &Shared<u16>,
    ) {
        let Some(server) = self.servers.get(master) else {
            return;
        };
        let counts = &mut self.counts;
        match placing {
            Placing::Head if seg > 1 => {
                counts.reach(Rule::Roll);
                counts.reach_if(step != Step::Write, Rule::RollByReplay);
                counts.reach_if(server.log.has_replayed(digest), Rule::DigestWithReplayed);
                counts.reach_if(digest.len() < seg as usize, Rule::LeftOutOfDigest);
            }
            Placing::Replacement => counts.reach(Rule::MemberReplaced),
            Placing::Refill => counts.reach(Rule::Refill),
            _ => {}
        }
        if let Placing::Change | Placing::Replacement = placing {
            counts.reach_if(epoch > 1, Rule::SecondChange);
            counts.reach_if(seg < server.log.head(), Rule::ChangeWhileClosing);
        }
    }

    /// A master has appended entries.
    fn append(
        &mut self,
        step: Step,
        master: ServerId,
        seg: u16,
        entries: &Seq<Entry>,
    ) -> Result<(), AllocError> {
        if step == Step::Tick {
            return Ok(());
        }
        let Some(server) = self.servers.get_mut(master) else {
            return Ok(());
        };
        if let Some(segment) = server.log.segment_mut(seg) {
            segment.replayed = segment.replayed || step != Step::Write;
        }
        for entry in entries.as_slice() {
            server.log.append(entry.table, entry.key, entry.version)?;
        }
        Ok(())
    }

    /// What a message from a server to the outside or to the coordinator tells.
    fn learn_of_server(&mut self, step: Step, from: ServerId, body: &Body) {
        match body {
            Body::WriteOk {
                seg,
                term,
                version,
                ..
            } => {
                let is_replayed = *version > 1 && self.recoveries.has_part(*term);
                self.reach_if(is_replayed, Rule::VersionGoesOn);
                if self.servers.is_suspected(from) {
                    self.zombie(from, *seg);
                }
            }
            Body::Recovered { .. } => {
                self.reach_if(step == Step::Stored, Rule::RecoveredWhenStored);
            }
            _ => {}
        }
    }

    /// A master that was suspected has acknowledged a write: perhaps before each member has fenced it.
    fn zombie(&mut self, master: ServerId, seg: u16) {
        more(&mut self.counts.zombies);
        if let Some(segment) = self.servers.segment(master, seg) {
            let mut members = segment.members.iter();
            let has_open = members.any(|member| !self.servers.has_fenced(*member, master));
            self.reach_if(has_open, Rule::ZombieAcknowledges);
        }
    }

    /// What a message from the coordinator to a server tells.
    fn learn_of_coordinator(&mut self, to: ServerId, body: &Body) -> Result<(), AllocError> {
        match body {
            Body::Gather { attempt, master } => self.attempt(*attempt, *master)?,
            Body::Plan { parts, .. } => self.plan(to, parts)?,
            Body::CommitOk { seg, epoch } => {
                if *epoch > 0 {
                    more(&mut self.counts.epochs);
                }
                if let Some(server) = self.servers.get_mut(to) {
                    server.least = server.least.max(pair(*seg, *epoch));
                }
            }
            Body::Own { range, term, .. } => self.own(range, *term),
            _ => {}
        }
        Ok(())
    }

    /// An attempt to recover the master asks a server; perhaps it has just begun.
    fn attempt(&mut self, attempt: u32, master: ServerId) -> Result<(), AllocError> {
        if self.recoveries.gather(attempt, master)? {
            if let Some(server) = self.servers.get_mut(master) {
                let replaces = server.attempt.replace(attempt).is_some();
                self.reach_if(replaces, Rule::AttemptReplaced);
            }
        }
        Ok(())
    }

    /// A plan was sent to a recovery master.
    fn plan(&mut self, to: ServerId, parts: &Seq<Part>) -> Result<(), AllocError> {
        for part in parts.as_slice() {
            self.reach_if(part.range.lo > 0, Rule::SplitRangeRecovered);
            if self.recoveries.give(to, *part)? {
                if let Some(server) = self.servers.get_mut(to) {
                    server.waiting.push(*part)?;
                }
            }
        }
        Ok(())
    }

    /// A range was granted, for the first time or once more.
    fn own(&mut self, range: &KeyRange, term: u32) {
        self.recoveries.own(range, term);
        if let Some(master) = self.recoveries.grant(term) {
            more(&mut self.counts.recovered);
            if let Some(server) = self.servers.get_mut(master) {
                server.waiting.retain(|part| part.term != term);
            }
        }
        self.counts.owners = self.counts.owners.max(self.recoveries.owners());
    }
}

/// The master's segment at the backup.
fn kept_at(backup: ServerId, master: ServerId, seg: u16) -> Kept {
    Kept {
        backup,
        master,
        seg,
    }
}

/// What the step was that has delivered this message, or none.
fn step_of(event: &Event, delivered: Option<&Message>) -> Step {
    match (event, delivered.map(|message| &message.body)) {
        (Event::Tick(_), _) => Step::Tick,
        (_, Some(Body::Write { .. })) => Step::Write,
        (_, Some(Body::Stored { .. })) => Step::Stored,
        _ => Step::Other,
    }
}
