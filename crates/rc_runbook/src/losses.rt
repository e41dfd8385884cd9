//! What is gone: a segment that was placed on all its members, each of whose hosts has dropped it since.

ghost use Rattle.rc_world.specs.HostView.{IsWithinLimits};

use crate::deeds::{Dropped, Gone};
use rc_headroll::LogHead;
use rc_types::{Addr, Event, Fault, ServerId, Setup, TryClone};
use rc_world::World;
use std::alloc::{AllocError, Global};

/// A segment was placed on all its members.
#[derive(Drop)]
struct Placed {
    seg: u16,
    epoch: u16,
    event: usize,
    members: Vec<ServerId>,
}

/// A host was started without an open replica.
#[derive(Clone, Copy)]
struct Dropping {
    /// The server that the host ran last.
    last: ServerId,
    seg: u16,
    epoch: u16,
    event: usize,
}

/// What is known of the log of one master.
struct Watch {
    master: ServerId,
    placed: Vec<Placed>,
    dropped: Vec<Dropping>,
}

impl Drop for Watch {
    fn drop(self) {
        let Watch {
            master: _,
            placed: _,
            dropped: _,
        } = self;
    }
}

/// A segment of this master that is gone after these events, if there is one.
pub(crate) fn gone(
    alloc: Global,
    setup: &Setup,
    events: &[Event],
    master: ServerId,
) -> Result<Option<Gone>, Fault>
    requires { IsWithinLimits setup.now }
{
    let mut world = World::new(alloc, setup.try_clone(alloc)?, alloc);
    let mut watch = Watch {
        master,
        placed: Vec::new(alloc),
        dropped: Vec::new(alloc),
    };
    for (number, event) in events.iter().enumerate() {
        watch.note_start(&world, number, event)?;
        world.take(alloc, event)?;
        if may_change(&world, event, master) {
            watch.note_log(alloc, &world, number)?;
        }
    }
    watch.found(alloc)
}

/// Whether the master may have changed by this event.
fn may_change(world: &World<Global>, event: &Event, master: ServerId) -> bool {
    match event {
        Event::Deliver(number) => match world.sent().get(*number) {
            Some(message) => message.to == Addr::Server(master),
            None => false,
        },
        Event::Tick(addr) => *addr == Addr::Server(master),
        _ => false,
    }
}

impl Watch {
    /// Notes which open replicas of the master a start drops.
    fn note_start(
        &mut self,
        world: &World<Global>,
        number: usize,
        event: &Event,
    ) -> Result<(), AllocError> {
        let Event::Start { host, kept } = event else {
            return Ok(());
        };
        let Some(backup) = world.backup(*host) else {
            return Ok(());
        };
        let Some(held) = backup.kept().get(&self.master) else {
            return Ok(());
        };
        let last = ServerId {
            index: *host,
            generation: world.newest(*host),
        };
        for (seg, replica) in held.replicas() {
            if !replica.is_closed() && !kept.as_slice().contains(&(self.master, *seg)) {
                self.dropped.push(Dropping {
                    last,
                    seg: *seg,
                    epoch: replica.epoch(),
                    event: number,
                })?;
            }
        }
        Ok(())
    }

    /// Notes which segments of the master are placed now, and forgets those that are shut.
    fn note_log(
        &mut self,
        alloc: Global,
        world: &World<Global>,
        number: usize,
    ) -> Result<(), AllocError> {
        let Some(master) = world.master(self.master.index) else {
            return Ok(());
        };
        if master.id() != self.master {
            return Ok(());
        }
        let log = master.log();
        self.placed.retain(|placed| !is_shut(log, placed.seg));
        for seg in log.head().saturating_sub(1)..=log.head() {
            self.note_segment(alloc, log, seg, number)?;
        }
        Ok(())
    }

    /// Notes this segment of the log, if it is placed on all its members and was not so before.
    fn note_segment(
        &mut self,
        alloc: Global,
        log: &LogHead,
        seg: u16,
        number: usize,
    ) -> Result<(), AllocError> {
        let Some(segment) = log.segment(seg) else {
            return Ok(());
        };
        let config = segment.config();
        let epoch = config.epoch();
        let is_known = self
            .placed
            .iter()
            .any(|placed| placed.seg == seg && placed.epoch == epoch);
        if segment.is_shut() || is_known || !config.all_placed() {
            return Ok(());
        }
        let mut members = Vec::new(alloc);
        for member in config.members() {
            members.push(member.id)?;
        }
        self.placed.push(Placed {
            seg,
            epoch,
            event: number,
            members,
        })?;
        Ok(())
    }

    /// What is gone.
    fn found(&self, alloc: Global) -> Result<Option<Gone>, Fault> {
        for placed in &self.placed {
            let mut drops = Vec::new(alloc);
            for member in &placed.members {
                if let Some(dropping) = self.dropping(placed, *member) {
                    drops.push(Dropped {
                        member: *member,
                        start: dropping.event,
                    })?;
                }
            }
            if drops.len() == placed.members.len() {
                return Ok(Some(Gone {
                    master: self.master,
                    seg: placed.seg,
                    epoch: placed.epoch,
                    placed: placed.event,
                    drops,
                }));
            }
        }
        Ok(None)
    }

    /// The first start at which this member's host has dropped a replica of the segment that counts.
    fn dropping(&self, placed: &Placed, member: ServerId) -> Option<Dropping> {
        self.dropped.iter().copied().find(|dropping| {
            dropping.last.index == member.index
                && dropping.last.generation >= member.generation
                && dropping.seg == placed.seg
                && dropping.epoch >= placed.epoch
        })
    }
}

/// Whether the log has this segment, and has shut it.
fn is_shut(log: &LogHead, seg: u16) -> bool {
    match log.segment(seg) {
        Some(segment) => segment.is_shut(),
        None => false,
    }
}
