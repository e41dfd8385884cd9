//! What an event changes at a master and in the replicas of a backup.

use crate::telling::standing::{newest, phase_name, put_replica};
use rc_backup::Held;
use rc_story::JsonWriter;
use rc_types::{Addr, Body, Event, Message, ServerId};
use rc_world::World;
use std::alloc::Global;

/// The master of the host at which the event happens, and the name of its phase, if there is one.
pub(crate) fn phase_at(event: &Event, world: &World<Global>) -> Option<(ServerId, &'static str)> {
    let host = host_of(event, world.sent())?;
    let master = world.master(host)?;
    Some((master.id(), phase_name(master)))
}

/// What an event has changed, which has happened in the world: the phase of its master, which was this one before, and
/// replicas that it may have changed.
pub(crate) fn put_changes(
    writer: &mut JsonWriter,
    event: &Event,
    world: &World<Global>,
    before: Option<(ServerId, &'static str)>,
) {
    let Some(host) = host_of(event, world.sent()) else {
        return;
    };
    if let Some((id, phase)) = phase_at(event, world) {
        if before.is_none_or(|before| before.0 != id || before.1 != phase) {
            writer.word_member("master", id);
            writer.word_member("phase", phase);
        }
    }
    match event {
        Event::Deliver(number) => put_delivery(writer, host, world, *number),
        Event::Start { .. } => put_kept(writer, host, world),
        Event::Ask { .. } | Event::Tick(_) | Event::Stop(_) | Event::Order(_) => {}
    }
}

/// The host at which an event happens, if it happens at one.
fn host_of(event: &Event, messages: &[Message]) -> Option<u8> {
    let addr = match event {
        Event::Deliver(number) => messages.get(*number)?.to,
        Event::Tick(addr) => *addr,
        Event::Stop(id) => Addr::Server(*id),
        Event::Start { host, .. } => return Some(*host),
        Event::Ask { .. } | Event::Order(_) => return None,
    };
    match addr {
        Addr::Server(id) => Some(id.index),
        Addr::Coordinator | Addr::Outside => None,
    }
}

/// All replicas that a host keeps.
fn put_kept(writer: &mut JsonWriter, host: u8, world: &World<Global>) {
    if let Some(backup) = world.backup(host) {
        writer.name("copies");
        writer.open("[");
        for (master, held) in backup.kept() {
            put_all(writer, newest(host, world), *master, held);
        }
        writer.close("]");
    }
}

/// The replicas of the host that the delivery of this message may have changed.
fn put_delivery(writer: &mut JsonWriter, host: u8, world: &World<Global>, number: usize) {
    let touched = world.sent().get(number).and_then(touched_by);
    let Some((master, seg)) = touched else {
        return;
    };
    let backup = world.backup(host);
    let Some(held) = backup.and_then(|backup| backup.kept().get(&master)) else {
        return;
    };
    let holder = newest(host, world);
    writer.name("copies");
    writer.open("[");
    match seg {
        Some(seg) => put_copy(writer, holder, master, seg, held),
        None => put_all(writer, holder, master, held),
    }
    writer.close("]");
}

/// The master of which a message may change replicas, and the segment; no segment, where it may change all of them.
fn touched_by(message: &Message) -> Option<(ServerId, Option<u16>)> {
    match &message.body {
        Body::Place { seg, .. }
        | Body::Append { seg, .. }
        | Body::Close { seg, .. }
        | Body::Free { seg } => match message.from {
            Addr::Server(master) => Some((master, Some(*seg))),
            Addr::Coordinator | Addr::Outside => None,
        },
        Body::Gather { master, .. } => Some((*master, None)),
        Body::Write { .. }
        | Body::Read { .. }
        | Body::WriteOk { .. }
        | Body::ReadOk { .. }
        | Body::Refused { .. }
        | Body::Stored { .. }
        | Body::Commit { .. }
        | Body::CommitOk { .. }
        | Body::Enlist
        | Body::Ready
        | Body::List { .. }
        | Body::Replicas { .. }
        | Body::Plan { .. }
        | Body::Fetch { .. }
        | Body::Data { .. }
        | Body::Recovered { .. }
        | Body::Own { .. }
        | Body::SplitOk { .. } => None,
    }
}

/// How all replicas of a master stand that a backup keeps.
fn put_all(writer: &mut JsonWriter, holder: ServerId, master: ServerId, held: &Held) {
    for seg in held.replicas().keys() {
        put_copy(writer, holder, master, *seg, held);
    }
}

/// How a replica stands, or that it is gone.
fn put_copy(writer: &mut JsonWriter, holder: ServerId, master: ServerId, seg: u16, held: &Held) {
    let is_gone = held.replicas().get(&seg).is_none();
    writer.open("{");
    put_replica(writer, holder, master, seg, held);
    writer.member("gone", is_gone);
    writer.close("}");
}
