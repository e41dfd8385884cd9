//! What is due, in the course of one recovery.

use rc_coordinator::Coordinator;
use rc_runbook::{Due, Seen, dues};
use rc_types::{Addr, Body, Fault, Message, NodeWork, Order, Row, Seq, ServerId, Shared};
use std::alloc::{AllocError, Global};
use std::test::Fail;

/// The first server of each of three hosts.
const OWNER: ServerId = ServerId {
    index: 0,
    generation: 1,
};

const HOLDER: ServerId = ServerId {
    index: 1,
    generation: 1,
};

const OTHER: ServerId = ServerId {
    index: 2,
    generation: 1,
};

/// The coordinator takes a work; what it sends is dropped.
fn give(coordinator: &mut Coordinator<Global>, work: &NodeWork) -> Result<(), Fault> {
    if !coordinator.has_room() {
        return Err(Fault::BadEvent);
    }
    let _sent = coordinator.step(work)?;
    Ok(())
}

/// The coordinator takes a message of a server.
fn tell(coordinator: &mut Coordinator<Global>, from: ServerId, body: Body) -> Result<(), Fault> {
    give(
        coordinator,
        &NodeWork::Deliver(Message {
            from: Addr::Server(from),
            to: Addr::Coordinator,
            body,
        }),
    )
}

/// A coordinator at which three servers are up and ready, and the first of them owns a table and is suspected.
fn suspecting(alloc: Global) -> Result<Coordinator<Global>, Fault> {
    let mut coordinator = Coordinator::new(alloc, alloc);
    for id in [OWNER, HOLDER, OTHER] {
        tell(&mut coordinator, id, Body::Enlist)?;
        tell(&mut coordinator, id, Body::Ready)?;
    }
    let create = NodeWork::Order(Order::Create {
        table: 7,
        owner: OWNER,
    });
    give(&mut coordinator, &create)?;
    give(&mut coordinator, &NodeWork::Order(Order::Suspect(OWNER)))?;
    Ok(coordinator)
}

/// The two others answer: the holder has the one segment of the log, open and empty.
fn answer(alloc: Global, coordinator: &mut Coordinator<Global>) -> Result<(), Fault> {
    let row = Row {
        seg: 1,
        epoch: 0,
        closed: false,
        len: 0,
        digest: Shared::from_vec(alloc, vec![in alloc; 1]?)?,
    };
    let rows = Seq::from_vec(vec![in alloc; row]?);
    tell(coordinator, HOLDER, Body::Replicas { attempt: 1, rows })?;
    let rows = Seq::new(alloc);
    tell(coordinator, OTHER, Body::Replicas { attempt: 1, rows })
}

/// What is due where these were heard, silent and stuck.
fn asked(
    alloc: Global,
    coordinator: &Coordinator<Global>,
    heard: &[ServerId],
    silent: &[ServerId],
    stuck: &[ServerId],
) -> Result<Vec<Due>, AllocError> {
    let seen = Seen {
        heard,
        silent,
        stuck,
    };
    dues(alloc, coordinator, &seen)
}

#[test]
fn zombies_are_started_anew(rt: HostRuntime) -> Result<(), Fail> {
    let coordinator = suspecting(rt.alloc())?;
    let found = asked(rt.alloc(), &coordinator, &[OWNER, OTHER], &[], &[])?;
    assert_eq!(rt; found.as_slice(), [Due::Restart(OWNER)].as_slice());
    Ok(())
}

#[test]
fn silent_servers_are_suspected(rt: HostRuntime) -> Result<(), Fail> {
    let coordinator = suspecting(rt.alloc())?;
    let found = asked(rt.alloc(), &coordinator, &[], &[OTHER, OWNER], &[])?;
    assert_eq!(rt; found.as_slice(), [Due::Suspect(OTHER)].as_slice());
    Ok(())
}

#[test]
fn recoveries_are_decided_once_all_have_answered(rt: HostRuntime) -> Result<(), Fail> {
    let mut coordinator = suspecting(rt.alloc())?;
    let before = asked(rt.alloc(), &coordinator, &[], &[], &[])?;
    assert!(rt; before.is_empty());
    answer(rt.alloc(), &mut coordinator)?;
    let after = asked(rt.alloc(), &coordinator, &[], &[], &[])?;
    assert_eq!(rt; after.as_slice(), [Due::Decide(OWNER)].as_slice());
    Ok(())
}

#[test]
fn recoveries_begin_anew_without_a_holder_alone(rt: HostRuntime) -> Result<(), Fail> {
    let mut coordinator = suspecting(rt.alloc())?;
    answer(rt.alloc(), &mut coordinator)?;
    give(&mut coordinator, &NodeWork::Order(Order::Decide(OWNER)))?;
    let before = asked(rt.alloc(), &coordinator, &[], &[], &[])?;
    assert!(rt; before.is_empty());
    give(&mut coordinator, &NodeWork::Order(Order::Suspect(HOLDER)))?;
    let after = asked(rt.alloc(), &coordinator, &[], &[], &[])?;
    assert_eq!(rt; after.as_slice(), [Due::Suspect(OWNER)].as_slice());
    Ok(())
}

#[test]
fn stuck_owners_are_started_anew(rt: HostRuntime) -> Result<(), Fail> {
    let mut coordinator = suspecting(rt.alloc())?;
    let create = NodeWork::Order(Order::Create {
        table: 8,
        owner: OTHER,
    });
    give(&mut coordinator, &create)?;
    let found = asked(rt.alloc(), &coordinator, &[], &[], &[OTHER, HOLDER, OWNER])?;
    assert_eq!(rt; found.as_slice(), [Due::Restart(OTHER)].as_slice());
    Ok(())
}
