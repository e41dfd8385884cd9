//! Which servers there are, and who owns what, as far as the messages tell.

use crate::exploring::options::MOST_HOSTS;
use rc_types::{Addr, Body, KeyRange, Message, ServerId};
use rc_world::World;
use std::alloc::{AllocError, Global};

/// How many keys are written, those below.
pub(crate) const KEYS: usize = 4;

/// How often the recovery of one server is decided, at most.
const MOST_TRIES: u8 = 12;

/// A server that was suspected, how often its recovery was decided since, and whether that has a plan.
#[derive(Clone, Copy)]
struct Crash {
    id: ServerId,
    tries: u8,
    planned: bool,
}

/// The owners of a key of a table: the last two.
#[derive(Clone, Copy)]
struct Owners {
    last: ServerId,
    before: ServerId,
}

/// What the drawing knows of the servers.
#[derive(Drop)]
pub(crate) struct Roster {
    /// How many hosts there are.
    pub(crate) hosts: u8,
    factor: u8,
    suspected: [u32; MOST_HOSTS],
    crashes: Vec<Crash>,
    /// The parts of plans: the term of each, and whose it was.
    given: Vec<(u32, ServerId)>,
    owned: Vec<ServerId>,
    /// The table that is written.
    pub(crate) table: u32,
    owners: [Owners; KEYS],
}

/// No server has this id.
const NOBODY: ServerId = ServerId {
    index: 0,
    generation: 0,
};

impl Roster {
    /// Of so many hosts, 1 to 16, of which none was started.
    pub(crate) fn new(alloc: Global, hosts: u8, factor: u8) -> Roster {
        Roster {
            hosts: hosts.max(1).min(MOST_HOSTS as u8),
            factor,
            suspected: [0; MOST_HOSTS],
            crashes: Vec::new(alloc),
            given: Vec::new(alloc),
            owned: Vec::new(alloc),
            table: 1,
            owners: [Owners {
                last: NOBODY,
                before: NOBODY,
            }; KEYS],
        }
    }

    /// The newest server of the host that the word chooses.
    pub(crate) fn server(&self, world: &World<Global>, word: u32) -> ServerId {
        let index = word.checked_rem(self.hosts as u32).unwrap_or(0) as u8;
        let generation = world.newest(index);
        ServerId { index, generation }
    }

    /// Whether this server, or a later one of its host, was suspected.
    pub(crate) fn is_suspected(&self, id: ServerId) -> bool {
        let suspected = self.suspected.get(id.index as usize);
        suspected.is_some_and(|generation| id.generation <= *generation)
    }

    /// Whether one more server can crash: enough others are up, and few logs wait to be recovered. Where there are no
    /// more hosts than a segment has backups and a master, all are up, and no log waits.
    pub(crate) fn can_spare(&self, world: &World<Global>) -> bool {
        let is_up = |index: u8| {
            let generation = world.newest(index);
            let id = ServerId { index, generation };
            generation > 0 && !self.is_suspected(id) && world.is_running(id)
        };
        let up = (0..self.hosts).filter(|index| is_up(*index)).count();
        let enough = usize::from(self.factor).saturating_add(1);
        if usize::from(self.hosts) == enough {
            return up == enough && self.crashes.is_empty();
        }
        up > enough && self.crashes.len() < 2
    }

    /// This server has crashed for the coordinator, or soon will have: it was suspected, or its host is started anew.
    pub(crate) fn suspect(&mut self, id: ServerId) -> Result<(), AllocError> {
        let at = id.index as usize;
        if at < MOST_HOSTS {
            self.suspected[at] = id.generation;
        }
        if self.owned.contains(&id) {
            self.crashes.push(Crash {
                id,
                tries: 0,
                planned: false,
            })?;
        }
        Ok(())
    }

    /// A server whose recovery is to be decided, if there is one.
    pub(crate) fn crashed(&mut self, word: u32) -> Option<ServerId> {
        if self.crashes.is_empty() {
            return None;
        }
        let at = word as usize % self.crashes.len();
        let Crash { id, tries, planned } = self.crashes[at];
        if planned {
            return None;
        }
        if tries >= MOST_TRIES {
            self.crashes.swap_remove(at);
        } else {
            self.crashes[at].tries = tries + 1;
        }
        Some(id)
    }

    /// A server whose recovery has a plan, of which no part was granted yet, if there is one. It has none from now on.
    pub(crate) fn planned(&mut self) -> Option<ServerId> {
        let crash = self.crashes.iter_mut().find(|crash| crash.planned)?;
        crash.planned = false;
        Some(crash.id)
    }

    /// The last owner of this key, where it is the newest server of its host.
    pub(crate) fn owner(&self, world: &World<Global>, key: u64) -> Option<ServerId> {
        let id = self.owners.get(key as usize)?.last;
        (world.newest(id.index) == id.generation).then_some(id)
    }

    /// The server that is asked for this key: mostly its owner, now and then the one before or anyone.
    pub(crate) fn asked(&self, world: &World<Global>, key: u64, word: u32) -> ServerId {
        let Some(owners) = self.owners.get(key as usize) else {
            return self.server(world, word);
        };
        let id = match word % 16 {
            0 => self.server(world, word / 16),
            1..=3 => owners.before,
            _ => owners.last,
        };
        if id.generation == 0 {
            return self.server(world, word / 16);
        }
        id
    }

    /// What a message tells of owners and of plans.
    pub(crate) fn notice(&mut self, message: &Message) -> Result<(), AllocError> {
        match (message.to, &message.body) {
            (Addr::Server(id), Body::Own { range, term, .. }) => {
                if !self.owned.contains(&id) {
                    self.owned.push(id)?;
                }
                self.grant(id, range, *term);
            }
            (_, Body::Plan { master, parts, .. }) => {
                for part in parts.as_slice() {
                    self.given.push((part.term, *master))?;
                }
                for crash in self.crashes.iter_mut() {
                    crash.planned = crash.planned || crash.id == *master;
                }
            }
            _ => {}
        }
        Ok(())
    }

    /// The server owns these keys under this term: whose they were, in a plan, is recovered.
    fn grant(&mut self, id: ServerId, range: &KeyRange, term: u32) {
        let table = self.table;
        for (key, owners) in self.owners.iter_mut().enumerate() {
            if range.holds(table, key as u64) && owners.last != id {
                owners.before = owners.last;
                owners.last = id;
            }
        }
        for (given, master) in &self.given {
            if *given == term {
                let master = *master;
                self.crashes.retain(|crash| crash.id != master);
            }
        }
    }
}
