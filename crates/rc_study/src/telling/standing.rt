//! How the masters and the backups of a world stand.

use rc_backup::Held;
use rc_config::Segment;
use rc_master::Master;
use rc_story::JsonWriter;
use rc_types::limits::MAX_HOSTS;
use rc_types::{Member, Phase, ServerId};
use rc_world::World;
use std::alloc::Global;

/// The masters that run, in order.
pub(crate) fn put_masters(writer: &mut JsonWriter, world: &World<Global>) {
    writer.name("masters");
    writer.open("[");
    for host in 0..MAX_HOSTS {
        if let Some(master) = world.master(host) {
            writer.line();
            put_master(writer, master);
        }
    }
    writer.close("]");
}

/// A master, and the segments of its log, but for those that were freed.
fn put_master(writer: &mut JsonWriter, master: &Master) {
    let log = master.log();
    writer.open("{");
    writer.word_member("id", log.own());
    writer.word_member("phase", phase_name(master));
    writer.member("head", log.head());
    writer.member("durable", log.durable());
    writer.name("segments");
    writer.open("[");
    for seg in 1..=log.head() {
        if let Some(segment) = log.segment(seg).filter(|segment| !segment.is_freed()) {
            writer.line();
            put_segment(writer, seg, segment);
        }
    }
    writer.close("]");
    writer.close("}");
}

/// The name of a master's phase, or `deposed`.
pub(crate) fn phase_name(master: &Master) -> &'static str {
    if master.is_deposed() {
        return "deposed";
    }
    match master.log().phase() {
        Phase::Opening => "opening",
        Phase::Closing => "closing",
        Phase::Writing => "writing",
    }
}

/// A segment of a log, and its members.
fn put_segment(writer: &mut JsonWriter, seg: u16, segment: &Segment) {
    let config = segment.config();
    writer.open("{");
    writer.member("seg", seg);
    writer.member("epoch", config.epoch());
    writer.member("committed", config.is_committed());
    writer.member("len", segment.len());
    writer.member("shut", segment.is_shut());
    writer.name("members");
    writer.open("[");
    for member in config.members() {
        put_member(writer, member);
    }
    writer.close("]");
    writer.close("}");
}

/// A member of a segment, and what it has told.
fn put_member(writer: &mut JsonWriter, member: &Member) {
    writer.open("{");
    writer.word_member("id", member.id);
    writer.member("lost", member.lost);
    match member.told {
        Some(told) => writer.member("told", told.len),
        None => writer.member("told", "null"),
    }
    writer.member("closed", member.told.is_some_and(|told| told.closed));
    writer.close("}");
}

/// The replicas that backups keep, by holder.
pub(crate) fn put_replicas(writer: &mut JsonWriter, world: &World<Global>) {
    writer.name("replicas");
    writer.open("[");
    for host in 0..MAX_HOSTS {
        if let Some(backup) = world.backup(host) {
            for (master, held) in backup.kept() {
                for seg in held.replicas().keys() {
                    writer.line();
                    writer.open("{");
                    put_replica(writer, newest(host, world), *master, *seg, held);
                    writer.close("}");
                }
            }
        }
    }
    writer.close("]");
}

/// The newest server of a host.
pub(crate) fn newest(index: u8, world: &World<Global>) -> ServerId {
    let generation = world.newest(index);
    ServerId { index, generation }
}

/// The members of a replica that a backup holds of a master; with nothing in it, where it is gone.
pub(crate) fn put_replica(
    writer: &mut JsonWriter,
    holder: ServerId,
    master: ServerId,
    seg: u16,
    held: &Held,
) {
    let replica = held.replicas().get(&seg);
    writer.word_member("at", holder);
    writer.word_member("of", master);
    writer.member("seg", seg);
    writer.member("epoch", replica.map_or(0, |replica| replica.epoch()));
    writer.member("len", replica.map_or(0, |replica| replica.len()));
    writer.member("closed", replica.is_some_and(|replica| replica.is_closed()));
    writer.member("fenced", replica.is_some() && held.is_fenced());
}
