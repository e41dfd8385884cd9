//! All nodes, and what is on its way between them.

use crate::node::Node;
use rc_codec::encode_message;
use rc_types::{Addr, Fault, Message, NodeName, NodeWork, ServerId, TryClone};
use std::alloc::Global;

/// The coordinator's place, behind those of the hosts.
pub(crate) const COORDINATOR: usize = 3;

/// How many nodes there are that have a process.
const NODES: usize = 4;

/// The most deliveries that bring all to rest, and the most steps whose messages leave at once.
const MOST: usize = 10_000;

/// Four nodes in processes of their own. Messages are bytes on their way, each with the place that it is brought to.
/// `answers` has what came to the clients, and `sent` all that has ever left, for the audit.
#[derive(Drop)]
pub(crate) struct Cluster {
    nodes: [Node; NODES],
    flying: Vec<(usize, Vec<u8>)>,
    pub(crate) answers: Vec<Message>,
    pub(crate) sent: Vec<Message>,
}

impl Cluster {
    /// All nodes, set up.
    pub(crate) fn set_up(alloc: Global) -> Result<Cluster, Fault> {
        Ok(Cluster {
            nodes: [
                Node::set_up(alloc, NodeName::Host(0))?,
                Node::set_up(alloc, NodeName::Host(1))?,
                Node::set_up(alloc, NodeName::Host(2))?,
                Node::set_up(alloc, NodeName::Coordinator)?,
            ],
            flying: Vec::new(alloc),
            answers: Vec::new(alloc),
            sent: Vec::new(alloc),
        })
    }

    /// The server of a host's last start.
    pub(crate) fn server(&self, host: usize) -> ServerId {
        let known = self.nodes.get(host).and_then(|node| node.server());
        known.unwrap_or(ServerId {
            index: 0,
            generation: 0,
        })
    }

    /// Gives a node a work, and delivers all that follows.
    pub(crate) fn give(
        &mut self,
        alloc: Global,
        place: usize,
        work: &NodeWork,
    ) -> Result<(), Fault> {
        if let Some(node) = self.nodes.get_mut(place) {
            node.give(work)?;
        }
        self.settle(alloc, place)
    }

    /// Starts a host, and delivers all that follows.
    pub(crate) fn start(&mut self, alloc: Global, host: usize) -> Result<(), Fault> {
        if let Some(node) = self.nodes.get_mut(host) {
            node.start()?;
        }
        self.settle(alloc, host)
    }

    /// A client's message sets out, and all that follows is delivered.
    pub(crate) fn send(&mut self, alloc: Global, message: Message) -> Result<(), Fault> {
        self.set_out(alloc, message)?;
        self.settle(alloc, COORDINATOR)
    }

    /// A save takes the place of a node's journal; then its process ends, and another comes back from that file, of so
    /// many bytes.
    pub(crate) fn come_back(&mut self, alloc: Global, place: usize) -> Result<usize, Fault> {
        let Some(node) = self.nodes.get_mut(place) else {
            return Ok(0);
        };
        node.save(alloc)?;
        node.come_back(alloc)
    }

    /// What the node of this place has sent leaves, and is delivered, with all that follows.
    fn settle(&mut self, alloc: Global, place: usize) -> Result<(), Fault> {
        self.leave(alloc, place)?;
        for _ in 0..MOST {
            if self.flying.is_empty() {
                break;
            }
            let (to, bytes) = self.flying.remove(0);
            if let Some(node) = self.nodes.get_mut(to) {
                node.give_message(bytes.as_slice())?;
            }
            self.leave(alloc, to)?;
        }
        Ok(())
    }

    /// The records of a node are written, and what may leave then sets out.
    fn leave(&mut self, alloc: Global, place: usize) -> Result<(), Fault> {
        if let Some(node) = self.nodes.get_mut(place) {
            node.write()?;
        }
        for _ in 0..MOST {
            let batch = self.nodes.get_mut(place).and_then(|node| node.leave());
            let Some(batch) = batch else {
                break;
            };
            for message in batch {
                self.set_out(alloc, message)?;
            }
        }
        Ok(())
    }

    /// A message sets out, to the place of the node that it names; or it comes to a client.
    fn set_out(&mut self, alloc: Global, message: Message) -> Result<(), Fault> {
        let place = match message.to {
            Addr::Server(id) => id.index as usize,
            Addr::Coordinator => COORDINATOR,
            Addr::Outside => {
                self.answers.push(message.try_clone(alloc)?)?;
                NODES
            }
        };
        if place < NODES {
            let mut bytes = Vec::new(alloc);
            encode_message(&message, &mut bytes)?;
            self.flying.push((place, bytes))?;
        }
        self.sent.push(message)?;
        Ok(())
    }
}
