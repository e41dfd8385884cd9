//! What is known of hosts and of their servers: which run, which were suspected, whom a backup has fenced, who was
//! deposed, which list each was given, and what each has sent as a master.

use crate::logs::{Log, Segment};
use rc_types::{Pair, Part, ServerId};
use std::alloc::{AllocError, Global};
use std::collections::HashSet;
use std::mem::replace;

/// No pair is below it.
const LEAST: Pair = Pair { seg: 0, epoch: 0 };

/// This segment under this epoch.
pub(crate) fn pair(seg: u16, epoch: u16) -> Pair {
    Pair { seg, epoch }
}

/// What is known of a server that was started.
#[derive(Drop)]
pub(crate) struct Server {
    /// Whether it runs.
    pub(crate) runs: bool,
    /// Whether the coordinator was told to suspect it.
    pub(crate) is_suspected: bool,
    /// Whether it has learnt that it was replaced.
    pub(crate) is_deposed: bool,
    /// The greatest version of a list that it was given.
    pub(crate) list: u32,
    /// The least pair of its log.
    pub(crate) least: Pair,
    /// The newest attempt to recover it.
    pub(crate) attempt: Option<u32>,
    /// The parts of plans that it was given and that were not granted.
    pub(crate) waiting: Vec<Part>,
    /// What it has sent of its segments.
    pub(crate) log: Log,
}

impl Server {
    /// Whether it was given a part with this key that was not granted.
    pub(crate) fn awaits(&self, table: u32, key: u64) -> bool {
        self.waiting.iter().any(|part| part.range.holds(table, key))
    }
}

/// What is known of a host.
#[derive(Drop)]
struct Host {
    /// Its servers, from the first start on.
    servers: Vec<Server>,
    /// The replicas of which it has told that they are open, by master and segment, since it was started last; some of
    /// them are so no longer.
    open: Vec<(ServerId, u16)>,
    has_closed: bool,
}

/// What is known of hosts and servers.
#[derive(Drop)]
pub(crate) struct Servers {
    alloc: Global,
    hosts: Vec<Host>,
    fences: HashSet<(ServerId, ServerId)>,
}

impl Servers {
    /// No host was started.
    pub(crate) fn new(alloc: Global) -> Servers {
        Servers {
            alloc,
            hosts: Vec::new(alloc),
            fences: HashSet::new(alloc),
        }
    }

    /// The host is started.
    pub(crate) fn start(&mut self, host: u8) -> Result<(), AllocError> {
        let at = host as usize;
        for _ in self.hosts.len()..at.saturating_add(1) {
            self.hosts.push(Host {
                servers: Vec::new(self.alloc),
                open: Vec::new(self.alloc),
                has_closed: false,
            })?;
        }
        if let Some(known) = self.hosts.get_mut(at) {
            known.servers.push(Server {
                runs: true,
                is_suspected: false,
                is_deposed: false,
                list: 0,
                least: LEAST,
                attempt: None,
                waiting: Vec::new(self.alloc),
                log: Log::new(self.alloc),
            })?;
        }
        Ok(())
    }

    /// How often the host was started.
    pub(crate) fn starts(&self, host: u8) -> usize {
        let known = self.hosts.get(host as usize);
        known.map_or(0, |known| known.servers.len())
    }

    /// What is known of a server, if it was started.
    pub(crate) fn get(&self, id: ServerId) -> Option<&Server> {
        let at = (id.generation as usize).checked_sub(1)?;
        self.hosts.get(id.index as usize)?.servers.get(at)
    }

    /// What is known of a server, if it was started.
    pub(crate) fn get_mut(&mut self, id: ServerId) -> Option<&mut Server> {
        let at = (id.generation as usize).checked_sub(1)?;
        self.hosts.get_mut(id.index as usize)?.servers.get_mut(at)
    }

    /// What is known of a segment of a master, if it was placed.
    pub(crate) fn segment(&self, master: ServerId, seg: u16) -> Option<&Segment> {
        self.get(master)?.log.segment(seg)
    }

    /// What is known of a segment of a master, if it was placed.
    pub(crate) fn segment_mut(&mut self, master: ServerId, seg: u16) -> Option<&mut Segment> {
        self.get_mut(master)?.log.segment_mut(seg)
    }

    /// Whether the server was suspected.
    pub(crate) fn is_suspected(&self, id: ServerId) -> bool {
        self.get(id).is_some_and(|server| server.is_suspected)
    }

    /// The least pair of the server's log.
    pub(crate) fn least_of(&self, id: ServerId) -> Pair {
        self.get(id).map_or(LEAST, |server| server.least)
    }

    /// The backup fences the master: whether it has done so already.
    pub(crate) fn fence(&mut self, backup: ServerId, master: ServerId) -> Result<bool, AllocError> {
        Ok(!self.fences.insert((backup, master))?)
    }

    /// Whether the backup has fenced the master.
    pub(crate) fn has_fenced(&self, backup: ServerId, master: ServerId) -> bool {
        self.fences.contains(&(backup, master))
    }

    /// The host has told of a closed replica.
    pub(crate) fn close(&mut self, host: u8) {
        if let Some(known) = self.hosts.get_mut(host as usize) {
            known.has_closed = true;
        }
    }

    /// Whether the host has told of a closed replica.
    pub(crate) fn has_closed(&self, host: u8) -> bool {
        let known = self.hosts.get(host as usize);
        known.is_some_and(|known| known.has_closed)
    }

    /// The host has told of an open replica of which it has not told before.
    pub(crate) fn open(&mut self, host: u8, master: ServerId, seg: u16) -> Result<(), AllocError> {
        if let Some(known) = self.hosts.get_mut(host as usize) {
            known.open.push((master, seg))?;
        }
        Ok(())
    }

    /// The replicas of which the host has told that they are open, others from now on.
    pub(crate) fn take_open(&mut self, host: u8) -> Vec<(ServerId, u16)> {
        let none = Vec::new(self.alloc);
        match self.hosts.get_mut(host as usize) {
            Some(known) => replace(&mut known.open, none),
            None => none,
        }
    }
}
