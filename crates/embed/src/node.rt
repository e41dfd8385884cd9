//! A node in its process, with its file: what `docs/EMBEDDING.md` asks of whoever has one.

use crate::beginning::begun;
use rc_keeping::SaveFault;
use rc_process::{BackFault, MessageFault, Process};
use rc_types::{Fault, Message, NodeName, NodeWork, ServerId};
use rc_world::StepFault;
use std::alloc::Global;

/// A node: its process, unless that has ended; what is to be written at the end of its file; the file; and how many of
/// its bytes are known elsewhere to be safe. In place of the file on a disk there is one in memory, which is safe as
/// soon as it is written.
#[derive(Drop)]
pub(crate) struct Node {
    process: Option<Process<Global>>,
    pending: Vec<u8>,
    file: Vec<u8>,
    known: usize,
}

impl Node {
    /// The node is set up, once: its file begins with the save of a new node, and that is safe.
    pub(crate) fn set_up(alloc: Global, name: NodeName) -> Result<Node, Fault> {
        let mut file = Vec::new(alloc);
        match Process::begin(alloc, begun(name, alloc), &mut file) {
            Ok(process) => Ok(Node {
                process: Some(process),
                pending: Vec::new(alloc),
                known: file.len(),
                file,
            }),
            Err(fault) => Err(fault_of_save(fault)),
        }
    }

    /// The server of a host's last start.
    pub(crate) fn server(&self) -> Option<ServerId> {
        match &self.process {
            Some(process) => Some(process.node().server()),
            None => None,
        }
    }

    /// Gives the node a work.
    ///
    /// # Errors
    ///
    /// F18: no process has it, or it can't be given this now. F1.
    pub(crate) fn give(&mut self, work: &NodeWork) -> Result<(), Fault> {
        match &mut self.process {
            Some(process) => process.give(work, &mut self.pending).map_err(fault_of_step),
            None => Err(Fault::BadEvent),
        }
    }

    /// Gives the node a message as it has come.
    ///
    /// # Errors
    ///
    /// F18: no process has it, or these bytes are none. F1.
    pub(crate) fn give_message(&mut self, bytes: &[u8]) -> Result<(), Fault> {
        let Some(process) = &mut self.process else {
            return Err(Fault::BadEvent);
        };
        match process.give_message(bytes, &mut self.pending) {
            Ok(_) => Ok(()),
            Err(MessageFault::NoMemory) => Err(Fault::OutOfMemory),
            Err(_) => Err(Fault::BadEvent),
        }
    }

    /// Starts a host's server, with all open replicas that the host has.
    ///
    /// # Errors
    ///
    /// F18: no process has the node, or a server runs. F1.
    pub(crate) fn start(&mut self) -> Result<(), Fault> {
        match &mut self.process {
            Some(process) => process.start(&mut self.pending).map_err(fault_of_step),
            None => Err(Fault::BadEvent),
        }
    }

    /// Writes what is to be written, syncs it, and says how many bytes are safe.
    pub(crate) fn write(&mut self) -> Result<(), Fault> {
        self.file.extend_from_slice(self.pending.as_slice())?;
        self.pending.clear();
        let count = self.file.len();
        if let Some(process) = &mut self.process {
            if process.safe() <= count && count <= process.written() {
                process.synced(count);
                self.known = count;
            }
        }
        Ok(())
    }

    /// What one step has sent, and may leave now.
    pub(crate) fn leave(&mut self) -> Option<Vec<Message>> {
        match &mut self.process {
            Some(process) => process.leave(),
            None => None,
        }
    }

    /// A save takes the place of the journal. On a disk it is a second file: written, synced, renamed, and the folder
    /// synced.
    pub(crate) fn save(&mut self, alloc: Global) -> Result<(), Fault> {
        self.write()?;
        let mut second = Vec::new(alloc);
        if let Some(process) = &mut self.process {
            process.begin_save(&mut second).map_err(fault_of_save)?;
            self.file = second;
            process.saved();
            self.known = process.safe();
        }
        Ok(())
    }

    /// The process ends, and with it what it had not written. A new one has the node: it has come back from its file,
    /// which is cut where its good bytes end. Says how many these are.
    ///
    /// # Errors
    ///
    /// F18: the file has lost what was safe, and the node must not start. F1.
    pub(crate) fn come_back(&mut self, alloc: Global) -> Result<usize, Fault> {
        self.process = None;
        match Process::come_back(alloc, alloc, self.file.as_slice(), self.known) {
            Ok((process, added)) => {
                let good = process.written().saturating_sub(added.len());
                self.file.truncate(good);
                self.pending = added;
                self.process = Some(process);
                Ok(good)
            }
            Err(BackFault::NoMemory) => Err(Fault::OutOfMemory),
            Err(_) => Err(Fault::BadEvent),
        }
    }
}

/// A work for which the node's numbers do not suffice any more is one that can't be done.
fn fault_of_step(fault: StepFault) -> Fault {
    match fault {
        StepFault::Refused(fault) => fault,
        StepFault::NoRoom => Fault::BadEvent,
    }
}

/// The outside has no process.
fn fault_of_save(fault: SaveFault) -> Fault {
    match fault {
        SaveFault::OutOfMemory => Fault::OutOfMemory,
        SaveFault::Outside => Fault::BadEvent,
    }
}
