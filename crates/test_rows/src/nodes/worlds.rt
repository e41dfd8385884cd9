//! A whole world through events. Its messages are numbered from 0 in the order in which they were sent.

use crate::lines::{Desk, Numbers, Page};
use crate::nodes::cases::unknown;
use crate::nodes::{bodies, hosts, looks, masters, told};
use rc_master::Master;
use rc_types::limits::{MAX_EVENTS, MAX_HOSTS};
use rc_types::{Addr, Body, Event, Fault, Message, Seq, ServerId};
use rc_world::World;
use std::alloc::{AllocError, Global};

/// A world; of each message whether it was delivered; and how many were written.
#[derive(Drop)]
pub struct Whole {
    world: World<Global>,
    delivered: Vec<bool>,
    written: usize,
}

/// What a pass over the messages leaves alone.
#[derive(Clone, Copy)]
enum Spared {
    Nothing,
    Readies,
    Host(u8),
}

/// A world in which nothing has happened, of this setup.
pub fn new(alloc: Global, numbers: &mut Numbers, free: bool) -> Result<Whole, AllocError> {
    let setup = hosts::setup_of(alloc, numbers, free)?;
    Ok(Whole {
        world: World::new(alloc, setup, alloc),
        delivered: Vec::new(alloc),
        written: 0,
    })
}

/// One command for the world.
pub fn take(whole: &mut Whole, command: &str, desk: &mut Desk) -> Result<(), Fault> {
    let Desk { numbers, page, .. } = desk;
    match command {
        "replicas" => write_replicas(&whole.world, numbers.byte(), page)?,
        "looks" => write_looks(&whole.world, numbers.byte(), page),
        "state" => {
            if let Some(master) = master_of(&whole.world, numbers.id(), page) {
                masters::write_state(master, page);
            }
        }
        "segment" => {
            if let Some(master) = master_of(&whole.world, numbers.id(), page) {
                masters::write_segment(master.log(), numbers.short(), page);
            }
        }
        "hosts" => {
            start_hosts(desk.alloc, whole, numbers.byte())?;
            whole.write(page);
        }
        "settle" => settle(whole, Spared::Nothing, desk)?,
        "settle-but-ready" => settle(whole, Spared::Readies, desk)?,
        "settle-but-host" => settle(whole, Spared::Host(numbers.byte()), desk)?,
        "settle-quietly" => {
            whole.settle(desk.alloc, Spared::Nothing)?;
            whole.written = whole.world.sent().len();
            write!(page, "\n    {} messages in all", whole.written);
        }
        _ => happen(whole, command, desk)?,
    }
    Ok(())
}

/// One event, and what it sends.
fn happen(whole: &mut Whole, command: &str, desk: &mut Desk) -> Result<(), Fault> {
    match event_of(command, desk)? {
        Some(event) if desk.numbers.are_taken() => match whole.take(desk.alloc, &event) {
            Ok(()) => whole.write(&mut desk.page),
            Err(Fault::OutOfMemory) => return Err(Fault::OutOfMemory),
            Err(fault) => write!(desk.page, "\n    {}", fault.code()),
        },
        _ => unknown(&mut desk.page),
    }
    Ok(())
}

/// The event that a command names.
fn event_of(command: &str, desk: &mut Desk) -> Result<Option<Event>, AllocError> {
    let numbers = &mut desk.numbers;
    Ok(Some(match command {
        "start" => Event::Start {
            host: numbers.byte(),
            kept: Seq::from_vec(numbers.names(desk.alloc)?),
        },
        "deliver" => Event::Deliver(numbers.size()),
        "tick" => Event::Tick(Addr::Server(numbers.id())),
        "tick-coordinator" => Event::Tick(Addr::Coordinator),
        "stop" => Event::Stop(numbers.id()),
        _ => match told::order(command, numbers) {
            Some(order) => Event::Order(order),
            None => return ask(command, desk),
        },
    }))
}

/// A server is asked.
fn ask(command: &str, desk: &mut Desk) -> Result<Option<Event>, AllocError> {
    let to = desk.numbers.id();
    let body = told::client_asks(command, desk)?;
    Ok(body.map(|body| Event::Ask { to, body }))
}

impl Whole {
    /// One event; a message that it delivers counts as delivered.
    fn take(&mut self, alloc: Global, event: &Event) -> Result<(), Fault> {
        self.delivered.resize(self.world.sent().len(), false)?;
        self.world.take(alloc, event)?;
        if let Event::Deliver(number) = event {
            if let Some(delivered) = self.delivered.as_mut_slice().get_mut(*number) {
                *delivered = true;
            }
        }
        Ok(())
    }

    /// Writes what was sent since messages were written last.
    fn write(&mut self, page: &mut Page) {
        bodies::write_numbered(self.world.sent(), self.written, page);
        self.written = self.world.sent().len();
    }

    /// The next message from this number on that a pass delivers.
    fn next_due(&self, spared: Spared, from: usize) -> Option<usize> {
        for (number, message) in self.world.sent().iter().enumerate().skip(from) {
            let delivered = self.delivered.get(number).copied().unwrap_or(false);
            if !delivered && is_due(message, spared) {
                return Some(number);
            }
        }
        None
    }

    /// Delivers upwards what was not delivered before, what is sent meanwhile too, but for what is spared.
    fn settle(&mut self, alloc: Global, spared: Spared) -> Result<(), Fault> {
        let mut from = 0usize;
        for _ in 0..MAX_EVENTS {
            let Some(number) = self.next_due(spared, from) else {
                break;
            };
            self.take(alloc, &Event::Deliver(number))?;
            from = number.saturating_add(1);
        }
        Ok(())
    }
}

/// Whether a pass delivers the message at all: nothing goes to the outside.
fn is_due(message: &Message, spared: Spared) -> bool {
    match (message.to, spared) {
        (Addr::Outside, _) => false,
        (Addr::Server(id), Spared::Host(host)) => id.index != host,
        (_, Spared::Readies) => !matches!(message.body, Body::Ready),
        _ => true,
    }
}

/// Starts the hosts from 0 on that do not run.
fn start_hosts(alloc: Global, whole: &mut Whole, count: u8) -> Result<(), Fault> {
    for host in 0..count.min(MAX_HOSTS) {
        if whole.world.newest(host) == 0 {
            let kept = Seq::new(alloc);
            whole.take(alloc, &Event::Start { host, kept })?;
        }
    }
    Ok(())
}

fn settle(whole: &mut Whole, spared: Spared, desk: &mut Desk) -> Result<(), Fault> {
    whole.settle(desk.alloc, spared)?;
    whole.write(&mut desk.page);
    Ok(())
}

/// The open replicas of a host.
fn write_replicas(world: &World<Global>, host: u8, page: &mut Page) -> Result<(), Fault> {
    let names = world.open_replicas(host.min(MAX_HOSTS - 1))?;
    hosts::write_names(names.as_slice(), page);
    Ok(())
}

/// What is shown of a host: its newest server, and whether that runs; its master, where it does; and its backup.
fn write_looks(world: &World<Global>, host: u8, page: &mut Page) {
    let index = host.min(MAX_HOSTS - 1);
    let generation = world.newest(index);
    let id = ServerId { index, generation };
    write!(page, "\n    {id}");
    page.yes(" runs ", world.is_running(id));
    if let Some(master) = world.master(index) {
        looks::write_master(master, page);
    }
    match world.backup(index) {
        Some(backup) => looks::write_backup(backup, page),
        None => page.put("\n    was never started"),
    }
}

/// The master of a server; if that does not run, it is written so.
fn master_of<'a>(world: &'a World<Global>, id: ServerId, page: &mut Page) -> Option<&'a Master> {
    match world.master(id.index) {
        Some(master) if master.id() == id => Some(master),
        _ => {
            write!(page, "\n    {id} does not run");
            None
        }
    }
}
