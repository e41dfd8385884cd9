//! A whole cluster in one process: three hosts and a coordinator, each in an `rc_process::Process` with a file of its
//! own, on a transport of bytes. A write is acknowledged; then the owner's process ends, and comes back from its file;
//! and the write is read at the server that has recovered it. `docs/EMBEDDING.md` tells of the duties that `node` has.
//!
//! To be read in this order: `node`, a node in its process; `cluster`, what follows a work; and the story below.
//! `cluster/processes` has such nodes whose processes end at drawn moments.
#![tactic(auto)]

mod beginning;
mod cluster;
mod node;

use cluster::{COORDINATOR, Cluster};
use rc_audit::audit;
use rc_types::{Addr, Body, Fault, Message, NodeWork, Order, ServerId, Shared};
use std::alloc::{AllocError, Global};
use std::io;
use std::io::ErrorKind;

/// The table and the key that are written.
const TABLE: u32 = 7;

const KEY: u64 = 5;

fn main(rt: HostRuntime) -> io::Result<()> {
    match play(&rt, rt.alloc()) {
        Ok(told) => told,
        Err(Fault::OutOfMemory) => Err(ErrorKind::OutOfMemory.into()),
        Err(_) => Err(ErrorKind::Other.into()),
    }
}

/// The story, and whether it could be told.
fn play<R: Print>(rt: &R, alloc: Global) -> Result<io::Result<()>, Fault> {
    let mut cluster = Cluster::set_up(alloc)?;
    let owner = begin(alloc, &mut cluster)?;
    ask(alloc, &mut cluster, owner, write(alloc)?)?;
    let written = cluster.answers.pop();
    let bytes = come_back(alloc, &mut cluster, owner)?;
    let heir = ServerId {
        index: 1,
        generation: 1,
    };
    let read = Body::Read {
        table: TABLE,
        key: KEY,
    };
    ask(alloc, &mut cluster, heir, read)?;
    let shown = cluster.answers.pop();
    let is_clean = audit(alloc, cluster.sent.as_slice())?.is_none();
    Ok(tell(rt, owner, bytes, &written, &shown, is_clean))
}

/// The hosts are started, and a table is made for the first of them.
fn begin(alloc: Global, cluster: &mut Cluster) -> Result<ServerId, Fault> {
    for host in 0..COORDINATOR {
        cluster.start(alloc, host)?;
    }
    let owner = cluster.server(0);
    let create = NodeWork::Order(Order::Create {
        table: TABLE,
        owner,
    });
    cluster.give(alloc, COORDINATOR, &create)?;
    Ok(owner)
}

/// A client asks a server.
fn ask(alloc: Global, cluster: &mut Cluster, to: ServerId, body: Body) -> Result<(), Fault> {
    let to = Addr::Server(to);
    let from = Addr::Outside;
    cluster.send(alloc, Message { from, to, body })
}

fn write(alloc: Global) -> Result<Body, AllocError> {
    let value = Shared::from_vec(alloc, vec![in alloc; b'a']?)?;
    Ok(Body::Write {
        table: TABLE,
        key: KEY,
        value: Some(value),
    })
}

/// The owner's process ends, and comes back from its file; the server is suspected, and its recovery decided; and a new
/// server is started. Says how many bytes the file had.
fn come_back(alloc: Global, cluster: &mut Cluster, owner: ServerId) -> Result<usize, Fault> {
    let host = owner.index as usize;
    let bytes = cluster.come_back(alloc, host)?;
    for order in [Order::Suspect(owner), Order::Decide(owner)] {
        cluster.give(alloc, COORDINATOR, &NodeWork::Order(order))?;
    }
    cluster.start(alloc, host)?;
    Ok(bytes)
}

/// Tells what came of it.
fn tell<R: Print>(
    rt: &R,
    owner: ServerId,
    bytes: usize,
    written: &Option<Message>,
    shown: &Option<Message>,
    is_clean: bool,
) -> io::Result<()> {
    tell_answer(rt, written)?;
    println!(rt; "the process of {owner} ends; it comes back from {bytes} bytes")?;
    tell_answer(rt, shown)?;
    println!(rt; "audit {}", if is_clean { "clean" } else { "breach" })
}

/// Tells an answer to a client.
fn tell_answer<R: Print>(rt: &R, answer: &Option<Message>) -> io::Result<()> {
    let Some(Message { from, body, .. }) = answer else {
        return println!(rt; "no answer");
    };
    match body {
        Body::WriteOk { key, version, .. } => {
            println!(rt; "{from} has written key {key}, version {version}")
        }
        Body::ReadOk { key, version, .. } => {
            println!(rt; "{from} has read key {key}, version {version}")
        }
        Body::Refused { code } => println!(rt; "{from} has refused: {code}"),
        _ => println!(rt; "{from} has said something else"),
    }
}
