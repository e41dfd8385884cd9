//! All nodes of a world but the outside, which has no state.

ghost use Rattle.std.specs.Prelude.{◌≡◌, ◌++◌, ◌<◌, [], true, is_some, nat_eq, length, option_map};
ghost use Rattle.std.specs.Prelude.{OnOk, OnErr, IfOk};
ghost use Rattle.indexmap.specs.IndexMap.{get};
ghost use Rattle.rc_types.specs.declared.ids.Addr.TheVariants.{Server};
ghost use Rattle.rc_types.specs.declared.events.Event.TheVariants as event;
ghost use Rattle.rc_model.specs.Tables.{put};
ghost use Rattle.rc_model.specs.Backup.{open_names};
ghost use Rattle.rc_model.specs.Nodes.{Deliver, Tick, Stop, Start, host_can, is_running_at, coordinator_step};
ghost use Rattle.rc_model.specs.World.{opening, is_possible};
ghost use Rattle.rc_coordinator.specs.Steps.{HasNumbers};
ghost use Rattle.rc_backup.specs.BackupView.{backup_of};
ghost use Rattle.rc_master.specs.Data.{master_of};
ghost use Rattle.rc_world.specs.HostView.{HostHasRoom, IsWithinLimits, backup_once_started};
ghost use Rattle.rc_world.specs.Lending.{message_at};
ghost use Rattle.rc_world.specs.WorldView.{hosts_in, coordinator_in, world_of, WorldHasRoom};
ghost use Rattle.rc_world.specs.WorldView.{host_does, coordinator_given, after_event};

use crate::host::Host;
use crate::lending::{address, lend, put_back};
use crate::outside::{ask, can_ask};
use indexmap::IndexMap;
use rc_backup::Backup;
use rc_coordinator::Coordinator;
use rc_master::Master;
use rc_types::limits::MAX_HOSTS;
use rc_types::{Addr, Event, Message, NodeWork, ServerId, Setup};
use std::alloc::{AllocError, Allocator, Global};

/// The nodes of a world. A host that was never started may have no entry.
#[derive(Drop)]
pub(crate) struct Nodes<A: Allocator> {
    pub(crate) alloc: Global,
    pub(crate) setup: Setup,
    pub(crate) hosts: IndexMap<u8, Host>,
    pub(crate) coordinator: Coordinator<A>,
}

impl<A: Allocator + Clone> Nodes<A> {
    /// The nodes before anything has happened. It takes no memory.
    pub(crate) fn new(alloc: Global, setup: Setup, tablets: A) -> Nodes<A>
        ensures world { world_of result [] ≡ opening setup }
        ensures setup { result.setup ≡ setup }
    {
        Nodes {
            alloc,
            setup,
            hosts: IndexMap::new(alloc),
            coordinator: Coordinator::new(alloc, tablets),
        }
    }

    /// Whether the server runs.
    pub(crate) fn is_running(&self, id: ServerId) -> bool
        ensures { result ≡ is_running_at (hosts_in self.now id.index) (Server id) }
    {
        match self.hosts.get(&id.index) {
            Some(host) => host.is_running_at(Addr::Server(id)),
            None => false,
        }
    }

    /// How often the host was started.
    pub(crate) fn newest(&self, host: u8) -> u32
        ensures { result ≡ (hosts_in self.now host).generation }
    {
        match self.hosts.get(&host) {
            Some(host) => host.generation(),
            None => 0,
        }
    }

    /// The master that runs on the host, if one does.
    pub(crate) fn master(&self, host: u8) -> Option<&Master>
        ensures { option_map (λ master. master_of master.now) result ≡ (hosts_in self.now host).master }
    {
        match self.hosts.get(&host) {
            Some(host) => host.master(),
            None => None,
        }
    }

    /// What the host keeps as a backup, if it was ever started.
    pub(crate) fn backup(&self, host: u8) -> Option<&Backup>
        ensures { option_map (λ backup. backup_of backup.now) result ≡ backup_once_started (hosts_in self.now host) }
    {
        match self.hosts.get(&host) {
            Some(host) if host.generation() > 0 => Some(host.backup()),
            _ => None,
        }
    }

    /// The names of the host's open replicas, in order of master and then of segment.
    pub(crate) fn open_replicas(&self, host: u8) -> Result<Vec<(ServerId, u16)>, AllocError>
        ensures { IfOk result (λ names. names.items ≡ open_names (hosts_in self.now host).backup) }
    {
        match self.hosts.get(&host) {
            Some(host) => host.open_names(),
            None => Ok(Vec::new(self.alloc)),
        }
    }

    /// Whether the host can be started.
    fn can_start(&self, host: u8) -> bool
        ensures { result ≡ host_can (hosts_in self.now host) (Start []) }
    {
        match self.hosts.get(&host) {
            Some(host) => host.can_start(),
            None => host < MAX_HOSTS,
        }
    }

    /// Whether the event is possible now, where these messages were sent.
    pub(crate) fn is_possible(&self, event: &Event, sent: &[Message]) -> bool
        ensures { result ≡ is_possible (world_of self.now sent.now) event.now }
    {
        match event {
            Event::Ask { to, body } => can_ask(*to, body),
            Event::Deliver(number) => *number < sent.len(),
            Event::Tick(Addr::Server(id)) | Event::Stop(id) => self.is_running(*id),
            Event::Tick(Addr::Coordinator) => true,
            Event::Tick(Addr::Outside) => false,
            Event::Start { host, .. } => self.can_start(*host),
            Event::Order(_) => true,
        }
    }

    /// The coordinator takes a work.
    fn tell_coordinator(
        &mut self,
        work: &NodeWork,
        sent: &mut Vec<Message>,
    ) -> Result<(), AllocError>
        requires { HasNumbers (coordinator_in self.old) }
        ensures coordinator { OnOk result (coordinator_in self.new ≡
            (coordinator_step (coordinator_in self.old) work.now).0) }
        ensures sends { OnOk result (sent.new.items ≡
            sent.old.items ++ (coordinator_step (coordinator_in self.old) work.now).1) }
        ensures hosts { self.new.hosts ≡ self.old.hosts }
        ensures setup { self.new.setup ≡ self.old.setup }
        ensures err { OnErr result (coordinator_in self.new ≡ coordinator_in self.old) }
        ensures unsent { OnErr result (sent.new.items ≡ sent.old.items) }
    {
        self.coordinator.step_into(work, sent)
    }

    /// The timer of a server that runs goes off.
    fn tick(&mut self, id: ServerId, sent: &mut Vec<Message>) -> Result<(), AllocError>
        ensures hosts { OnOk result (hosts_in self.new ≡
            put (hosts_in self.old) id.index (host_does self.old id.index Tick).0) }
        ensures sends { OnOk result (sent.new.items ≡
            sent.old.items ++ (host_does self.old id.index Tick).1) }
        ensures coordinator { self.new.coordinator ≡ self.old.coordinator }
        ensures setup { self.new.setup ≡ self.old.setup }
        ensures err { OnErr result (hosts_in self.new ≡ hosts_in self.old) }
        ensures unsent { OnErr result (sent.new.items ≡ sent.old.items) }
    {
        match self.hosts.get_mut(&id.index) {
            Some(host) => host.tick(sent),
            None => Ok(()),
        }
    }

    /// A server that runs stops.
    fn stop(&mut self, id: ServerId)
        ensures hosts { hosts_in self.new ≡ put (hosts_in self.old) id.index (host_does self.old id.index Stop).0 }
        ensures coordinator { self.new.coordinator ≡ self.old.coordinator }
        ensures setup { self.new.setup ≡ self.old.setup }
    {
        if let Some(host) = self.hosts.get_mut(&id.index) {
            host.stop();
        }
    }

    /// A message reaches a server. Where that does not run, it does nothing.
    fn reach(
        &mut self,
        id: ServerId,
        message: &Message,
        sent: &mut Vec<Message>,
    ) -> Result<(), AllocError>
        requires { HostHasRoom (hosts_in self.old id.index) }
        ensures hosts { OnOk result (hosts_in self.new ≡
            put (hosts_in self.old) id.index (host_does self.old id.index (Deliver message.now)).0) }
        ensures sends { OnOk result (sent.new.items ≡
            sent.old.items ++ (host_does self.old id.index (Deliver message.now)).1) }
        ensures coordinator { self.new.coordinator ≡ self.old.coordinator }
        ensures setup { self.new.setup ≡ self.old.setup }
        ensures err { OnErr result (hosts_in self.new ≡ hosts_in self.old) }
        ensures unsent { OnErr result (sent.new.items ≡ sent.old.items) }
    {
        match self.hosts.get_mut(&id.index) {
            Some(host) => host.take(message, sent),
            None => Ok(()),
        }
    }

    /// A host that was never started gets its entry, if it has none. Nothing else changes.
    fn enroll(&mut self, host: u8) -> Result<(), AllocError>
        requires { IsWithinLimits self.old.setup }
        ensures there { OnOk result (is_some (get nat_eq self.new.hosts host) ≡ true) }
        ensures hosts { hosts_in self.new ≡ hosts_in self.old }
        ensures coordinator { self.new.coordinator ≡ self.old.coordinator }
        ensures setup { self.new.setup ≡ self.old.setup }
    {
        if !self.hosts.contains_key(&host) {
            let fresh = Host::new(self.alloc, host, &self.setup);
            self.hosts.insert(host, fresh)?;
        }
        Ok(())
    }

    /// A host is started, with what it keeps of its open replicas.
    fn start(
        &mut self,
        index: u8,
        kept: &[(ServerId, u16)],
        sent: &mut Vec<Message>,
    ) -> Result<(), AllocError>
        requires limits { IsWithinLimits self.old.setup }
        requires room { HostHasRoom (hosts_in self.old index) }
        ensures hosts { OnOk result (hosts_in self.new ≡
            put (hosts_in self.old) index (host_does self.old index (Start kept.now)).0) }
        ensures sends { OnOk result (sent.new.items ≡ sent.old.items ++ (host_does self.old index (Start kept.now)).1) }
        ensures coordinator { self.new.coordinator ≡ self.old.coordinator }
        ensures setup { self.new.setup ≡ self.old.setup }
        ensures err { OnErr result (hosts_in self.new ≡ hosts_in self.old) }
        ensures unsent { OnErr result (sent.new.items ≡ sent.old.items) }
    {
        self.enroll(index)?;
        match self.hosts.get_mut(&index) {
            Some(host) => host.start(kept, sent),
            None => unreachable!(),
        }
    }

    /// A message to the coordinator reaches it.
    fn deliver_to_coordinator(
        &mut self,
        number: usize,
        sent: &mut Vec<Message>,
    ) -> Result<(), AllocError>
        requires number { number < length sent.old.items }
        requires room { HasNumbers (coordinator_in self.old) }
        ensures coordinator { OnOk result (coordinator_in self.new ≡
            (coordinator_given (coordinator_in self.old) (message_at sent.old.items number)).0) }
        ensures sends { OnOk result (sent.new.items ≡
            sent.old.items ++ (coordinator_given (coordinator_in self.old) (message_at sent.old.items number)).1) }
        ensures hosts { self.new.hosts ≡ self.old.hosts }
        ensures setup { self.new.setup ≡ self.old.setup }
        ensures err { OnErr result (coordinator_in self.new ≡ coordinator_in self.old) }
        ensures unsent { OnErr result (sent.new.items ≡ sent.old.items) }
    {
        let message = lend(sent, number);
        let done = self.coordinator.take(&message, sent);
        put_back(sent, number, message);
        done
    }

    /// A message to a server reaches its host.
    fn deliver_to_server(
        &mut self,
        id: ServerId,
        number: usize,
        sent: &mut Vec<Message>,
    ) -> Result<(), AllocError>
        requires number { number < length sent.old.items }
        requires room { HostHasRoom (hosts_in self.old id.index) }
        ensures hosts { OnOk result (hosts_in self.new ≡
            put (hosts_in self.old) id.index (host_does self.old id.index
            (Deliver (message_at sent.old.items number))).0) }
        ensures sends { OnOk result (sent.new.items ≡
            sent.old.items ++ (host_does self.old id.index (Deliver (message_at sent.old.items number))).1) }
        ensures coordinator { self.new.coordinator ≡ self.old.coordinator }
        ensures setup { self.new.setup ≡ self.old.setup }
        ensures err { OnErr result (hosts_in self.new ≡ hosts_in self.old) }
        ensures unsent { OnErr result (sent.new.items ≡ sent.old.items) }
    {
        let message = lend(sent, number);
        let done = self.reach(id, &message, sent);
        put_back(sent, number, message);
        done
    }

    /// The message of this number reaches its addressee. The outside does nothing with it.
    fn deliver(&mut self, number: usize, sent: &mut Vec<Message>) -> Result<(), AllocError>
        requires number { number < length sent.old.items }
        requires room { WorldHasRoom (world_of self.old sent.old.items) }
        ensures hosts { OnOk result (hosts_in self.new ≡
            (after_event self.old sent.old.items (event.Deliver number)).hosts) }
        ensures coordinator { OnOk result (coordinator_in self.new ≡
            (after_event self.old sent.old.items (event.Deliver number)).coordinator) }
        ensures sends { OnOk result (sent.new.items ≡
            (after_event self.old sent.old.items (event.Deliver number)).sent) }
        ensures setup { self.new.setup ≡ self.old.setup }
        ensures err_hosts { OnErr result (hosts_in self.new ≡ hosts_in self.old) }
        ensures err_coordinator { OnErr result (coordinator_in self.new ≡ coordinator_in self.old) }
        ensures unsent { OnErr result (sent.new.items ≡ sent.old.items) }
    {
        match address(sent.as_slice(), number) {
            Addr::Outside => Ok(()),
            Addr::Coordinator => self.deliver_to_coordinator(number, sent),
            Addr::Server(id) => self.deliver_to_server(id, number, sent),
        }
    }

    /// An event that is possible. Only memory can be refused (F1), and then nothing has changed.
    #[tactic(auto, using(crate::proofs::Deliveries::deliverable))]
    pub(crate) fn take(&mut self, event: &Event, sent: &mut Vec<Message>) -> Result<(), AllocError>
        requires possible { is_possible (world_of self.old sent.old.items) event.now ≡ true }
        requires limits { IsWithinLimits self.old.setup }
        requires room { WorldHasRoom (world_of self.old sent.old.items) }
        ensures hosts { OnOk result (hosts_in self.new ≡ (after_event self.old sent.old.items event.now).hosts) }
        ensures coordinator { OnOk result (coordinator_in self.new ≡
            (after_event self.old sent.old.items event.now).coordinator) }
        ensures sends { OnOk result (sent.new.items ≡ (after_event self.old sent.old.items event.now).sent) }
        ensures setup { self.new.setup ≡ self.old.setup }
        ensures err_hosts { OnErr result (hosts_in self.new ≡ hosts_in self.old) }
        ensures err_coordinator { OnErr result (coordinator_in self.new ≡ coordinator_in self.old) }
        ensures unsent { OnErr result (sent.new.items ≡ sent.old.items) }
    {
        match event {
            Event::Ask { to, body } => ask(self.alloc, *to, body, sent),
            Event::Deliver(number) => self.deliver(*number, sent),
            Event::Tick(Addr::Server(id)) => self.tick(*id, sent),
            Event::Tick(Addr::Coordinator) => self.tell_coordinator(&NodeWork::Tick, sent),
            Event::Tick(Addr::Outside) => Ok(()),
            Event::Stop(id) => {
                self.stop(*id);
                Ok(())
            }
            Event::Start { host, kept } => self.start(*host, kept.as_slice(), sent),
            Event::Order(order) => self.tell_coordinator(&NodeWork::Order(*order), sent),
        }
    }
}
