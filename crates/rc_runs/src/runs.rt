//! A run that goes on: a world, and its mail.

ghost use Rattle.std.specs.Prelude.{◌≡◌, ◌⊎◌, ◌≤◌, ◌+◌, ◌∷◌, [], true, false, length, Some, Err, IfOk, OnOk, OnErr};
ghost use Rattle.std.specs.Prelude.{IfErr, IfSome};
ghost use Rattle.rc_types.specs.declared.faults.Fault.TheVariants.{OutOfMemory, BadEvent};
ghost use Rattle.rc_types.specs.declared.events.Event.TheVariants.{Deliver};
ghost use Rattle.rc_types.specs.declared.limits.TheConstants.{MAX_EVENTS};
ghost use Rattle.rc_runs.specs.Settling.{due_from, settles};
ghost use Rattle.rc_world.specs.Happened.{with_events, can_happen, replayed, sent_in, AllHappen};
ghost use Rattle.rc_world.specs.Stops.{stops_below};
ghost use Rattle.rc_world.specs.HostView.{IsWithinLimits};
ghost use Rattle.rc_runs.specs.Runs.{scenario_event};
ghost use Rattle.rc_runs.specs.Steps.{GoesOn, StopsIn, RunsThrough, StopsAt};

use crate::mail::Mail;
use crate::onlookers::{Onlooker, looked};
use crate::passing::Passing;
use rc_reading::ScenarioEvent;
use rc_types::{Event, Fault, Setup};
use rc_world::World;
use std::alloc::{AllocError, Allocator, Global};
use std::marker::Model;

/// A run that goes on. As a value it is its world.
pub struct Run<A: Allocator> {
    world: World<A>,
    mail: Mail,
}

impl<A: Allocator> Drop for Run<A> {
    fn drop(self) {
        let Run { world: _, mail: _ } = self;
    }
}

impl<A: Allocator> Model for Run<A> {
    ghost use Rattle.rc_world.specs.Happened.{Happened};

    ghost Value = { Happened };

    ghost use Rattle.rc_runs.specs.RunHolds.{RunHolds};

    ghost view = { λ run. run.world };

    ghost invariant = { λ run. RunHolds run.world run.mail };
}

impl<A: Allocator + Clone> Run<A> {
    /// A run in which nothing has happened. Its tablets lie in memory of the second allocator. It
    /// takes no memory.
    pub fn new(alloc: Global, setup: Setup, tablets: A) -> Run<A>
        requires { IsWithinLimits setup }
        ensures { result ≡ record { setup = setup; events = [] } }
    {
        Run {
            world: World::new(alloc, setup, tablets),
            mail: Mail::new(alloc),
        }
    }

    /// The world. All its events were possible, and they are no more than a world takes.
    pub fn world(&self) -> &World<A>
        ensures world { result.now ≡ self.now }
        ensures taken { (replayed self.now).events ≡ self.now.events }
        ensures few { length self.now.events ≤ MAX_EVENTS }
    {
        &self.world
    }

    /// The world alone: what waits is forgotten.
    pub(crate) fn into_world(self) -> World<A>
        ensures world { result ≡ self }
        ensures taken { (replayed self).events ≡ self.events }
    {
        let Run { world, mail: _ } = self;
        world
    }

    /// A copy of the run in which the servers of all hosts have stopped, where `World::stopped` gives one.
    ///
    /// # Errors
    ///
    /// `OutOfMemory` (F1): memory was refused.
    pub fn stopped(
        &self,
        alloc: Global,
        hosts: u8,
        tablets: A,
    ) -> Result<Option<Run<A>>, AllocError>
        ensures run { IfOk result (λ found. IfSome found (λ run.
            run ≡ with_events self.now (stops_below (replayed self.now).hosts hosts))) }
        ensures possible { IfOk result (λ found. IfSome found (λ run.
            AllHappen self.now (stops_below (replayed self.now).hosts hosts))) }
        ensures taken { (replayed self.now).events ≡ self.now.events }
    {
        match self.world.stopped(alloc, hosts, tablets)? {
            Some(world) => {
                let mail = self.mail.try_clone()?;
                Ok(Some(Run { world, mail }))
            }
            None => Ok(None),
        }
    }

    /// One event of the world. F18 comes only where it is not possible, or 200,000 events have
    /// happened, F1 only where memory was refused; after either the world is as it was.
    pub fn take(&mut self, alloc: Global, event: &Event) -> Result<(), Fault>
        ensures ok { OnOk result (self.new ≡ with_events self.old (event.now ∷ [])) }
        ensures possible { OnOk result (can_happen self.old event.now ≡ true) }
        ensures bad { result ≡ Err BadEvent → can_happen self.old event.now ≡ false }
        ensures fault { IfErr result (λ fault. (fault ≡ OutOfMemory) ⊎ (fault ≡ BadEvent)) }
        ensures err { OnErr result (self.new ≡ self.old) }
        ensures taken { (replayed self.old).events ≡ self.old.events }
        ensures few { length self.old.events ≤ MAX_EVENTS }
    {
        self.mail.note(self.world.sent())?;
        self.world.take(alloc, event)?;
        if let Event::Deliver(number) = event {
            self.mail.deliver(*number);
        }
        Ok(())
    }

    /// The message of this number reaches its addressee; gives the number after it. It fails as the
    /// event does.
    fn deliver(&mut self, alloc: Global, number: usize) -> Result<usize, Fault>
        ensures ok { OnOk result (self.new ≡ with_events self.old (Deliver number ∷ [])) }
        ensures next { IfOk result (λ next. next ≡ number + 1) }
        ensures possible { OnOk result (can_happen self.old (Deliver number) ≡ true) }
        ensures bad { result ≡ Err BadEvent → can_happen self.old (Deliver number) ≡ false }
        ensures fault { IfErr result (λ fault. (fault ≡ OutOfMemory) ⊎ (fault ≡ BadEvent)) }
        ensures err { OnErr result (self.new ≡ self.old) }
    {
        if number >= self.world.sent().len() {
            return Err(Fault::BadEvent);
        }
        self.take(alloc, &Event::Deliver(number))?;
        Ok(number + 1)
    }

    /// The least number from `from` on of a message that the pass delivers.
    fn next_due(&self, passing: &Passing, from: usize) -> Option<usize>
        ensures due { result ≡ due_from passing.now (replayed self.now).events (sent_in self.now) from }
        ensures taken { (replayed self.now).events ≡ self.now.events }
        ensures few { length self.now.events ≤ MAX_EVENTS }
    {
        self.mail.next_due(passing, self.world.sent(), from)
    }

    /// What was delivered waits no longer.
    fn tidy(&mut self)
        ensures { self.new ≡ self.old }
    {
        self.mail.tidy();
    }

    /// One pass over the messages. Where it stops, the messages before the one that could not be
    /// delivered are.
    fn settle<W: Onlooker>(
        &mut self,
        alloc: Global,
        passing: &Passing,
        onlooker: &mut W,
    ) -> Result<(), Fault>
        ensures ok { OnOk result (GoesOn (λ most. settles most passing.now) self.old self.new) }
        ensures err { IfErr result (λ fault. StopsIn (λ most. settles most passing.now) fault self.old self.new) }
        ensures fault { IfErr result (λ fault. (fault ≡ OutOfMemory) ⊎ (fault ≡ BadEvent)) }
        ensures more { length self.old.events ≤ length self.new.events }
        ensures few { length self.new.events ≤ MAX_EVENTS }
    {
        self.tidy();
        let mut due = onlooker.look(self.world.sent());
        let mut from = 0;
        while let Some(number) = self.next_due(passing, from) {
            from = self.deliver(alloc, number)?;
            due = looked(onlooker, due, self.world.sent());
        }
        Ok(())
    }

    /// One event of a scenario.
    fn play<W: Onlooker>(
        &mut self,
        alloc: Global,
        event: &ScenarioEvent,
        onlooker: &mut W,
    ) -> Result<(), Fault>
        ensures ok { OnOk result (GoesOn (λ most world. scenario_event most world event.now) self.old self.new) }
        ensures err { IfErr result (λ fault. StopsIn (λ most world. scenario_event most world event.now) fault
            self.old self.new) }
        ensures fault { IfErr result (λ fault. (fault ≡ OutOfMemory) ⊎ (fault ≡ BadEvent)) }
        ensures more { length self.old.events ≤ length self.new.events }
        ensures few { length self.new.events ≤ MAX_EVENTS }
    {
        match event {
            ScenarioEvent::Core(core) => self.take(alloc, core),
            ScenarioEvent::Settle { kinds, hosts } => {
                let passing = Passing {
                    kinds: *kinds,
                    hosts: *hosts,
                };
                self.settle(alloc, &passing, onlooker)
            }
        }
    }

    /// The events of a scenario, one after another. Else the place of the one at which the run
    /// stopped comes back, with the fault: F18 where it was not possible, F1 where memory was refused. The onlooker
    /// looks at what was sent where that is due, also within a pass.
    pub fn play_all<W: Onlooker>(
        &mut self,
        alloc: Global,
        events: &[ScenarioEvent],
        onlooker: &mut W,
    ) -> Result<(), (usize, Fault)>
        ensures ok { OnOk result (RunsThrough events.now self.old self.new) }
        ensures err { IfErr result (λ stop. StopsAt events.now stop.0 stop.1 self.old self.new) }
        ensures fault { IfErr result (λ stop. (stop.1 ≡ OutOfMemory) ⊎ (stop.1 ≡ BadEvent)) }
    {
        let mut due = onlooker.look(self.world.sent());
        for (place, event) in events.iter().enumerate() {
            if let Err(fault) = self.play(alloc, event, onlooker) {
                return Err((place, fault));
            }
            due = looked(onlooker, due, self.world.sent());
        }
        Ok(())
    }
}
