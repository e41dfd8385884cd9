//! A run that is drawn so that much happens.

use crate::exploring::choosing::{Choice, Words};
use crate::exploring::mail::Mail;
use crate::exploring::options::Options;
use crate::exploring::roster::Roster;
use crate::{Counts, Goal, Survey};
use rand_pcg::Pcg32;
use rc_types::{Addr, Body, Event, Fault, Order, Seq, ServerId, Shared};
use rc_world::World;
use std::alloc::Global;

/// A run that is drawn: its world so far, what it has reached, and what the drawing knows of it.
pub struct Exploration {
    world: World<Global>,
    survey: Survey,
    goal: Option<Goal>,
    found: Option<usize>,
    mail: Mail,
    noticed: usize,
    roster: Roster,
    generator: Pcg32,
    step: usize,
    steps: usize,
    calm: usize,
}

impl Drop for Exploration {
    fn drop(self) {
        let Exploration {
            world: _,
            survey: _,
            goal: _,
            found: _,
            mail: _,
            noticed: _,
            roster: _,
            generator: _,
            step: _,
            steps: _,
            calm: _,
        } = self;
    }
}

/// The most deliveries that bring the beginning to rest.
const MOST_AT_FIRST: usize = 2_000;

impl Exploration {
    /// The run in which the hosts were started and a table was created, and no step was drawn yet.
    ///
    /// # Errors
    ///
    /// `OutOfMemory` (F1): memory was refused.
    pub fn begin(alloc: Global, options: &Options) -> Result<Exploration, Fault> {
        Exploration::toward(alloc, options, None)
    }

    /// The same, of a run that notes the first event that reaches this.
    ///
    /// # Errors
    ///
    /// `OutOfMemory` (F1): memory was refused.
    pub fn toward(alloc: Global, options: &Options, goal: Option<Goal>) -> Result<Self, Fault> {
        let mut run = Exploration {
            world: World::new(alloc, options.setup(alloc), alloc),
            survey: Survey::new(alloc),
            goal,
            found: None,
            mail: Mail::new(alloc),
            noticed: 0,
            roster: Roster::new(alloc, options.hosts, options.factor),
            generator: Pcg32::new(options.seed, 54),
            step: 0,
            steps: options.steps,
            calm: options.steps - options.steps / 3,
        };
        run.open(alloc)?;
        Ok(run)
    }

    /// So many steps more, but no more than the options ask for.
    ///
    /// # Errors
    ///
    /// `OutOfMemory` (F1): memory was refused.
    pub fn go_on(&mut self, alloc: Global, steps: usize) -> Result<(), Fault> {
        for _ in 0..steps.min(self.steps.saturating_sub(self.step)) {
            let words = Words::take(&mut self.generator);
            if let Some(event) = self.event_of(alloc, words)? {
                self.take(alloc, &event)?;
            }
            self.step = self.step.saturating_add(1);
        }
        Ok(())
    }

    /// The steps up to the one that reaches what the run is to reach, or all.
    ///
    /// # Errors
    ///
    /// `OutOfMemory` (F1): memory was refused.
    pub fn go_until(&mut self, alloc: Global) -> Result<(), Fault> {
        for _ in 0..self.steps {
            if self.found.is_some() {
                break;
            }
            self.go_on(alloc, 1)?;
        }
        Ok(())
    }

    /// The number of the event that has reached what the run is to reach, if one has.
    pub fn found(&self) -> Option<usize> {
        self.found
    }

    /// How many steps were drawn.
    pub fn step(&self) -> usize {
        self.step
    }

    /// The world.
    pub fn world(&self) -> &World<Global> {
        &self.world
    }

    /// What was reached.
    pub fn counts(&self) -> &Counts {
        self.survey.counts()
    }

    /// The hosts are started, and a table is created.
    fn open(&mut self, alloc: Global) -> Result<(), Fault> {
        for host in 0..self.roster.hosts {
            let kept = Seq::new(alloc);
            self.take(alloc, &Event::Start { host, kept })?;
        }
        self.rest(alloc)?;
        let owner = self.roster.server(&self.world, 0);
        let table = self.roster.table;
        self.take(alloc, &Event::Order(Order::Create { table, owner }))?;
        self.rest(alloc)
    }

    /// Delivers what waits.
    fn rest(&mut self, alloc: Global) -> Result<(), Fault> {
        for _ in 0..MOST_AT_FIRST {
            match self.mail.take(0) {
                Some(number) => self.take(alloc, &Event::Deliver(number))?,
                None => return Ok(()),
            }
        }
        Ok(())
    }

    /// One more event, if it is possible; and what it sends waits.
    fn take(&mut self, alloc: Global, event: &Event) -> Result<(), Fault> {
        match self.world.take(alloc, event) {
            Ok(()) => self.notice(event),
            Err(Fault::BadEvent) => Ok(()),
            Err(fault) => Err(fault),
        }
    }

    /// Notes what was sent by this event.
    fn notice(&mut self, event: &Event) -> Result<(), Fault> {
        let sent = self.world.sent();
        self.survey.note(event, sent, self.noticed)?;
        let counts = self.survey.counts();
        if self.found.is_none() && self.goal.is_some_and(|goal| counts.has(goal)) {
            self.found = Some(self.world.events().len().saturating_sub(1));
        }
        for number in self.noticed..sent.len() {
            let message = &sent[number];
            self.roster.notice(message)?;
            if message.to != Addr::Outside {
                self.mail.add(number)?;
            }
        }
        self.noticed = sent.len();
        Ok(())
    }

    /// The event that the words choose, if there is one.
    fn event_of(&mut self, alloc: Global, words: Words) -> Result<Option<Event>, Fault> {
        let number = self.step;
        match self.choice(words) {
            Choice::Write => {
                let value = format!(in alloc; "{number}")?.into_bytes();
                Ok(Some(self.write(Some(Shared::from_vec(alloc, value)?), words)))
            }
            Choice::Delete => Ok(Some(self.write(None, words))),
            Choice::Read => Ok(Some(self.read(words))),
            Choice::Tick => Ok(Some(Event::Tick(Addr::Server(self.server(words))))),
            Choice::TickCoordinator => Ok(Some(Event::Tick(Addr::Coordinator))),
            Choice::Stop => Ok(self.stop(words)),
            Choice::Start => self.start(alloc, words),
            Choice::Suspect => self.suspect(words),
            Choice::Decide => Ok(self.decide(words)),
            Choice::Split => Ok(Some(Event::Order(Order::Split {
                table: self.roster.table,
                at: words.key(),
            }))),
            Choice::Create => Ok(self.create(words)),
            mail => self.delivery(mail, words),
        }
    }

    /// The kind of event. In the last third of the steps nothing crashes any more, and nothing is lost or held back:
    /// what was begun is decided.
    fn choice(&self, words: Words) -> Choice {
        match Choice::of(words.kind, self.mail.len()) {
            Choice::Stop | Choice::Suspect if self.step >= self.calm => Choice::Decide,
            Choice::Lose | Choice::Hold if self.step >= self.calm => Choice::Deliver,
            choice => choice,
        }
    }

    /// What is done with a message that waits, or was held back.
    fn delivery(&mut self, choice: Choice, words: Words) -> Result<Option<Event>, Fault> {
        if let Choice::Release = choice {
            return Ok(self.mail.release(words.target).map(Event::Deliver));
        }
        let Some(number) = self.mail.take(words.target) else {
            return Ok(None);
        };
        match choice {
            Choice::Lose => return Ok(None),
            Choice::Hold => {
                self.mail.hold(number)?;
                return Ok(None);
            }
            Choice::Repeat => self.mail.add(number)?,
            _ => {}
        }
        Ok(Some(Event::Deliver(number)))
    }

    /// The newest server of the host that the words choose.
    fn server(&self, words: Words) -> ServerId {
        self.roster.server(&self.world, words.target)
    }

    /// The server that is to be suspected: every second time one that owns a key, else any.
    fn suspected(&self, words: Words) -> ServerId {
        let owner = self.roster.owner(&self.world, words.key());
        let owner = owner.filter(|_| words.detail % 2 == 0);
        owner.unwrap_or_else(|| self.server(words))
    }

    /// A write of this value at one of the keys, or a deletion. A value is the step's number in decimal digits.
    fn write(&self, value: Option<Shared<u8>>, words: Words) -> Event {
        let (table, key) = (self.roster.table, words.key());
        self.ask(Body::Write { table, key, value }, words)
    }

    /// A read of one of the keys.
    fn read(&self, words: Words) -> Event {
        let (table, key) = (self.roster.table, words.key());
        self.ask(Body::Read { table, key }, words)
    }

    /// This is asked of a server that the words choose.
    fn ask(&self, body: Body, words: Words) -> Event {
        let to = self.roster.asked(&self.world, words.key(), words.detail);
        Event::Ask { to, body }
    }

    /// A stop of a server that was suspected, and now and then of one that was not.
    fn stop(&self, words: Words) -> Option<Event> {
        let id = self.server(words);
        let is_spare = words.detail % 4 == 0 && self.roster.can_spare(&self.world);
        (self.roster.is_suspected(id) || is_spare).then_some(Event::Stop(id))
    }

    /// A start of a host, mostly with all of its open replicas.
    fn start(&mut self, alloc: Global, words: Words) -> Result<Option<Event>, Fault> {
        let id = self.server(words);
        if self.world.is_running(id) {
            return Ok(None);
        }
        let kept = if words.detail % 4 == 0 {
            Vec::new(alloc)
        } else {
            self.world.open_replicas(id.index)?
        };
        if id.generation > 0 && !self.roster.is_suspected(id) {
            self.roster.suspect(id)?;
        }
        let (host, kept) = (id.index, Seq::from_vec(kept));
        Ok(Some(Event::Start { host, kept }))
    }

    /// A suspicion of a server that has stopped, or of one that lives; or once more of one that waits to be recovered.
    fn suspect(&mut self, words: Words) -> Result<Option<Event>, Fault> {
        let id = self.suspected(words);
        if id.generation == 0 || self.roster.is_suspected(id) {
            return Ok(
                self.roster
                    .crashed(words.detail / 2)
                    .map(|id| Event::Order(Order::Suspect(id))),
            );
        }
        if self.world.is_running(id) && !self.roster.can_spare(&self.world) {
            return Ok(None);
        }
        self.roster.suspect(id)?;
        Ok(Some(Event::Order(Order::Suspect(id))))
    }

    /// A decision; or now and then once more a suspicion of a server of whose plan nothing was granted yet.
    fn decide(&mut self, words: Words) -> Option<Event> {
        if words.detail % 32 == 0 {
            return self
                .roster
                .planned()
                .map(|id| Event::Order(Order::Suspect(id)));
        }
        self.roster
            .crashed(words.target)
            .map(|id| Event::Order(Order::Decide(id)))
    }

    /// Another table, now and then, which is written from then on.
    fn create(&mut self, words: Words) -> Option<Event> {
        let owner = self.server(words);
        let is_up = self.world.is_running(owner) && !self.roster.is_suspected(owner);
        if words.detail % 8 > 0 || !is_up {
            return None;
        }
        let table = self.roster.table.saturating_add(1);
        self.roster.table = table;
        Some(Event::Order(Order::Create { table, owner }))
    }
}
