//! A world that goes on.

ghost use Rattle.rc_world.specs.HostView.{IsWithinLimits};

use rc_types::limits::MAX_HOSTS;
use rc_types::{Addr, Event, Fault, Seq, ServerId, Setup, TryClone};
use rc_world::World;
use std::alloc::Global;

/// A world that goes on.
#[derive(Drop)]
pub(crate) struct Course {
    pub(crate) world: World<Global>,
    /// The messages from this one on are to be delivered.
    next: usize,
}

impl Course {
    /// A world of its own after these events. What was sent in them and has not arrived never will.
    pub(crate) fn of(alloc: Global, setup: &Setup, events: &[Event]) -> Result<Course, Fault>
        requires { IsWithinLimits setup.now }
    {
        let mut course = Course {
            world: World::new(alloc, setup.try_clone(alloc)?, alloc),
            next: 0,
        };
        for event in events {
            course.take(alloc, event)?;
        }
        course.next = course.world.sent().len();
        Ok(course)
    }

    /// One more event.
    pub(crate) fn take(&mut self, alloc: Global, event: &Event) -> Result<(), Fault> {
        self.world.take(alloc, event)
    }

    /// The server that runs on a host, if one does.
    pub(crate) fn running(&self, host: u8) -> Option<ServerId> {
        let id = ServerId {
            index: host,
            generation: self.world.newest(host),
        };
        if self.world.is_running(id) {
            Some(id)
        } else {
            None
        }
    }

    /// All messages that were sent since it began are delivered, in their order, and those that they bring.
    pub(crate) fn deliver(&mut self, alloc: Global) -> Result<(), Fault> {
        for _ in 0..usize::MAX {
            let number = self.next;
            let Some(message) = self.world.sent().get(number) else {
                return Ok(());
            };
            let is_heard = match message.to {
                Addr::Outside => false,
                Addr::Coordinator => true,
                Addr::Server(id) => self.world.is_running(id),
            };
            if is_heard {
                self.take(alloc, &Event::Deliver(number))?;
            }
            self.next = number.saturating_add(1);
        }
        Ok(())
    }

    /// The timers of the coordinator and of all servers that run go off, and what they send is delivered.
    pub(crate) fn tick(&mut self, alloc: Global) -> Result<(), Fault> {
        self.take(alloc, &Event::Tick(Addr::Coordinator))?;
        for host in 0..MAX_HOSTS {
            if let Some(id) = self.running(host) {
                self.take(alloc, &Event::Tick(Addr::Server(id)))?;
            }
        }
        self.deliver(alloc)
    }

    /// A host is started, with all its open replicas kept.
    pub(crate) fn start(&mut self, alloc: Global, host: u8) -> Result<(), Fault> {
        let kept = Seq::from_vec(self.world.open_replicas(host)?);
        self.take(alloc, &Event::Start { host, kept })
    }

    /// A server stops, and its host is started, with all its open replicas kept.
    pub(crate) fn restart(&mut self, alloc: Global, id: ServerId) -> Result<(), Fault> {
        if self.world.is_running(id) {
            self.take(alloc, &Event::Stop(id))?;
            self.start(alloc, id.index)?;
        }
        Ok(())
    }
}
