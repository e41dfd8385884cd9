//! What there is to be seen of a world, as numbers: it has settled where they stay the same.

use crate::course::Course;
use rc_coordinator::Coordinator;
use rc_headroll::{LogHead, Segment};
use rc_master::Master;
use rc_types::limits::MAX_HOSTS;
use rc_types::{Fault, Member, Phase};
use std::alloc::{AllocError, Global};

/// How often all timers go off at most until a world has settled.
const MOST_TICKS: usize = 64;

/// Timers go off, and all is delivered, until nothing changes any more.
pub(crate) fn settle(alloc: Global, course: &mut Course) -> Result<(), Fault> {
    course.deliver(alloc)?;
    let mut before = view(alloc, course)?;
    for _ in 0..MOST_TICKS {
        course.tick(alloc)?;
        let after = view(alloc, course)?;
        if after.as_slice() == before.as_slice() {
            return Ok(());
        }
        before = after;
    }
    Ok(())
}

/// What there is to be seen.
fn view(alloc: Global, course: &Course) -> Result<Vec<u64>, AllocError> {
    let mut view = Vec::new(alloc);
    add_coordinator(course.world.coordinator(), &mut view)?;
    for host in 0..MAX_HOSTS {
        if let Some(master) = course.world.master(host) {
            view.extend_from_slice(&[u64::from(host), u64::from(course.world.newest(host))])?;
            add_master(master, &mut view)?;
        }
    }
    Ok(view)
}

/// What there is to be seen of the coordinator.
fn add_coordinator(
    coordinator: &Coordinator<Global>,
    view: &mut Vec<u64>,
) -> Result<(), AllocError> {
    view.extend_from_slice(&[
        u64::from(coordinator.servers().version()),
        u64::from(coordinator.last_term()),
        coordinator.grants().len() as u64,
    ])?;
    for pair in coordinator.least().values() {
        view.extend_from_slice(&[u64::from(pair.seg), u64::from(pair.epoch)])?;
    }
    for attempt in coordinator.attempts() {
        view.extend_from_slice(&[
            u64::from(attempt.is_gathering()),
            attempt.replies().len() as u64,
        ])?;
    }
    Ok(())
}

/// What there is to be seen of a master.
fn add_master(master: &Master, view: &mut Vec<u64>) -> Result<(), AllocError> {
    let log = master.log();
    view.extend_from_slice(&[
        u64::from(master.is_deposed()),
        master.grants().len() as u64,
        master.count_parts() as u64,
        master.count_replay() as u64,
        phase_number(log.phase()),
        log.durable() as u64,
    ])?;
    for place in 0..log.head() {
        if let Some(segment) = log.segment(place.saturating_add(1)) {
            add_segment(segment, view)?;
        }
    }
    Ok(())
}

/// What there is to be seen of a segment.
fn add_segment(segment: &Segment, view: &mut Vec<u64>) -> Result<(), AllocError> {
    let config = segment.config();
    view.extend_from_slice(&[
        u64::from(config.epoch()),
        u64::from(config.is_committed()),
        u64::from(segment.is_shut()),
        u64::from(segment.is_freed()),
        segment.len() as u64,
    ])?;
    for member in config.members() {
        view.push(member_number(member))?;
    }
    Ok(())
}

/// What there is to be seen of a member.
fn member_number(member: &Member) -> u64 {
    match member.told {
        Some(told) => {
            let len = (told.len as u64).saturating_mul(8).saturating_add(4);
            len.saturating_add(u64::from(told.closed) * 2)
                .saturating_add(u64::from(member.lost))
        }
        None => u64::from(member.lost),
    }
}

/// The number of a phase.
fn phase_number(phase: Phase) -> u64 {
    match phase {
        Phase::Opening => 0,
        Phase::Closing => 1,
        Phase::Writing => 2,
    }
}
