//! The cases: which node the commands are for.

use crate::lines::{Commands, Desk, Page};
use crate::nodes::coordinators::Book;
use crate::nodes::hosts::Host;
use crate::nodes::worlds::Whole;
use crate::nodes::{coordinators, hosts, masters, owners, worlds};
use rc_coordinator::Coordinator;
use rc_master::Master;
use rc_ownership::Ownership;
use rc_types::Fault;
use std::alloc::AllocError;

/// The node that the present case is about.
#[derive(Drop)]
pub enum Case {
    None,
    Master(Master),
    Coordinator(Book),
    Host(Host),
    Owner(Ownership),
    World(Whole),
}

impl Commands for Case {
    /// A command: it begins a case, or is for the present one.
    fn take(&mut self, command: &str, desk: &mut Desk) -> Result<(), Fault> {
        if let Some(new) = begun(command, desk)? {
            *self = new;
            return Ok(());
        }
        match self {
            Case::None => {
                unknown(&mut desk.page);
                Ok(())
            }
            Case::Master(master) => masters::take(master, command, desk),
            Case::Coordinator(book) => coordinators::take(book, command, desk),
            Case::Host(host) => hosts::take(host, command, desk),
            Case::Owner(owner) => owners::take(owner, command, desk),
            Case::World(world) => worlds::take(world, command, desk),
        }
    }
}

/// The case that a command begins, if it does.
fn begun(command: &str, desk: &mut Desk) -> Result<Option<Case>, AllocError> {
    let alloc = desk.alloc;
    let numbers = &mut desk.numbers;
    Ok(Some(match command {
        "master" => Case::Master(masters::new(alloc, numbers, false)),
        "master-that-frees" => Case::Master(masters::new(alloc, numbers, true)),
        "coordinator" => Case::Coordinator(Coordinator::new(alloc, alloc)),
        "host" => Case::Host(hosts::new(alloc, numbers)?),
        "owner" => Case::Owner(Ownership::new(alloc)),
        "world" => Case::World(worlds::new(alloc, numbers, false)?),
        "world-that-frees" => Case::World(worlds::new(alloc, numbers, true)?),
        _ => return Ok(None),
    }))
}

/// A line that is no command of the case.
pub fn unknown(page: &mut Page) {
    page.put("\n    no such command");
}
