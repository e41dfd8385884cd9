//! Copies of a world after a power failure. No master runs in them, so none has to be copied.

ghost use Rattle.std.specs.Prelude.{◌≡◌, ◌++◌, ℕ, true, map, IfOk, IfSome, OnOk};
ghost use Rattle.rc_world.specs.Happened.{replayed, with_events, AllHappen};
ghost use Rattle.rc_world.specs.Stops.{IsBelow, stop_at, stops_below, all_stopped, halted_entry};
ghost use Rattle.rc_world.specs.WorldView.{hosts_in, coordinator_in};

use crate::host::Host;
use crate::nodes::Nodes;
use crate::world::World;
use indexmap::IndexMap;
use rc_types::limits::MAX_EVENTS;
use rc_types::{Event, ServerId, TryClone, copied};
use std::alloc::{AllocError, Allocator, Global};

impl<A: Allocator + Clone> World<A> {
    /// A copy of the world in which the servers of all hosts have stopped: each that runs was stopped in turn. Its
    /// tablets lie in memory of the second allocator. There is none where a server runs on a host that is not below
    /// this one, or where there is no room for so many events.
    ///
    /// # Errors
    ///
    /// `OutOfMemory` (F1): memory was refused.
    pub fn stopped(
        &self,
        alloc: Global,
        hosts: u8,
        tablets: A,
    ) -> Result<Option<World<A>>, AllocError>
        ensures world { IfOk result (λ found. IfSome found (λ world.
            world ≡ with_events self.now (stops_below (replayed self.now).hosts hosts))) }
        ensures possible { IfOk result (λ found. IfSome found (λ world.
            AllHappen self.now (stops_below (replayed self.now).hosts hosts))) }
    {
        let mut events = copied(alloc, self.events.as_slice())?;
        self.nodes.add_stops(hosts, &mut events)?;
        if MAX_EVENTS < events.len() || !self.nodes.run_below(hosts) {
            return Ok(None);
        }
        let nodes = self.nodes.stopped(tablets)?;
        let sent = copied(alloc, self.sent.as_slice())?;
        Ok(Some(World {
            nodes,
            sent,
            events,
        }))
    }
}

impl<A: Allocator + Clone> Nodes<A> {
    /// Adds a stop of the newest server of each host below this one, where it runs.
    fn add_stops(&self, hosts: u8, events: &mut Vec<Event>) -> Result<(), AllocError>
        ensures { OnOk result (events.new.items ≡ events.old.items ++ stops_below (hosts_in self.now) hosts) }
    {
        for host in 0..hosts {
            self.add_stop(host, events)?;
        }
        Ok(())
    }

    /// Adds a stop of the host's newest server, where it runs.
    fn add_stop(&self, host: u8, events: &mut Vec<Event>) -> Result<(), AllocError>
        ensures { OnOk result (events.new.items ≡ events.old.items ++ stop_at (hosts_in self.now) host) }
    {
        let id = ServerId {
            index: host,
            generation: self.newest(host),
        };
        if self.is_running(id) {
            events.push(Event::Stop(id))?;
        }
        Ok(())
    }

    /// Whether servers run on hosts below this one alone.
    fn run_below(&self, hosts: u8) -> bool
        ensures { result ≡ true → (host : ℕ) → IsBelow hosts host (hosts_in self.now host) }
    {
        for (index, host) in self.hosts.iter() {
            if !host.is_below(hosts, *index) {
                return false;
            }
        }
        true
    }

    /// A copy in which the servers of all hosts have stopped.
    fn stopped(&self, tablets: A) -> Result<Nodes<A>, AllocError>
        ensures hosts { IfOk result (λ nodes. hosts_in nodes ≡ all_stopped (hosts_in self.now)) }
        ensures coordinator { IfOk result (λ nodes. coordinator_in nodes ≡ coordinator_in self.now) }
        ensures setup { IfOk result (λ nodes. nodes.setup ≡ self.now.setup) }
    {
        Ok(Nodes {
            alloc: self.alloc,
            setup: self.setup.try_clone(self.alloc)?,
            hosts: stopped_hosts(self.alloc, &self.hosts)?,
            coordinator: self.coordinator.try_clone_in(tablets)?,
        })
    }
}

/// Copies of these hosts, whose servers have stopped.
fn stopped_hosts(
    alloc: Global,
    hosts: &IndexMap<u8, Host>,
) -> Result<IndexMap<u8, Host>, AllocError>
    ensures { IfOk result (λ copies. copies.entries ≡ map halted_entry hosts.now.entries) }
{
    let mut copies = IndexMap::with_capacity(alloc, hosts.len())?;
    for (index, host) in hosts.iter() {
        copies.insert(*index, host.stopped()?)?;
    }
    Ok(copies)
}
