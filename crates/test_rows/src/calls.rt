//! Makes calls that `docs/CALLS.md` lists, by the path that stands there: one that is gone, or that stands elsewhere,
//! does not compile. A row is the path of a part, and below it stand its calls with their answers.

mod lists;
mod logs;
mod nodes;
mod owners;
mod replicas;
mod tablets;
mod values;
mod wires;
mod worlds;

use crate::lines::{Commands, Desk, Page};
use rc_types::{Fault, Kind, Message};
use std::sync::Wait;

/// Whoever makes the calls, of which some wait.
#[derive(Clone, Copy)]
pub struct Calls<'a, R> {
    rt: &'a R,
}

impl<'a, R> Calls<'a, R> {
    /// One that waits by this handle.
    pub fn new(rt: &'a R) -> Calls<'a, R> {
        Calls { rt }
    }
}

impl<R: Wait> Commands for Calls<'_, R> {
    /// The calls of the part with this path.
    fn take(&mut self, command: &str, desk: &mut Desk) -> Result<(), Fault> {
        let Desk { alloc, page, .. } = desk;
        let alloc = *alloc;
        match command {
            "rc_serverlist::ServerList" => lists::of_servers(alloc, page),
            "rc_config" => lists::of_members(alloc, page),
            "rc_rangetree::RangeTree" => tablets::of_a_tree(alloc, page),
            "rc_replica::Replica" => replicas::of_a_replica(alloc, page),
            "rc_backup::Backup" => replicas::of_a_backup(alloc, page),
            "rc_digestpick" => replicas::of_a_choice(alloc, page),
            "rc_headroll::LogHead" => logs::of_a_log(alloc, page),
            "rc_ownership::Ownership" => owners::of_an_owner(alloc, page),
            "rc_master::Master" => nodes::of_a_master(alloc, page),
            "rc_coordinator::Coordinator" => nodes::of_the_coordinator(alloc, page),
            "rc_world" => worlds::of_a_world(alloc, page),
            "rc_wire::Wire" => wires::of_a_wire(self.rt, alloc, page),
            _ => {
                page.put("\n    no such part");
                Ok(())
            }
        }
    }
}

/// The kinds of the messages that a call sent.
fn write_kinds(call: &str, sent: &[Message], page: &mut Page) {
    write!(page, "\n    {call}:");
    for message in sent {
        write!(page, " {}", Kind::of(&message.body).name());
    }
}
