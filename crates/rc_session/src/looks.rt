//! What the coordinator knows of tablets and servers, coded.

ghost use Rattle.std.specs.Prelude.{◌≡◌, ◌++◌, Err, Some, IfOk, OnOk};
ghost use Rattle.std.specs.Option.{option_map};
ghost use Rattle.std.specs.List.{flat_map};
ghost use Rattle.rc_codec.specs.Parts.{listed};
ghost use Rattle.rc_codec.specs.Fields.{tablet_code};
ghost use Rattle.rc_world.specs.NodeView.{book_in};
ghost use Rattle.rc_session.specs.Looks.{tablets_code, servers_code};

use crate::faults::SessionFault;
use crate::session::Session;
use rc_codec::Put;
use rc_types::{Seq, Tablet};
use std::alloc::AllocError;

impl Session {
    /// All tablets in order of table and first key: how many there are, in eight bytes, and of each table, first key,
    /// last key, owner, term, and whether the owner has crashed.
    ///
    /// # Errors
    ///
    /// `Refused`: the node is not the coordinator. `NoMemory`.
    pub fn tablets(&self) -> Result<Vec<u8>, SessionFault>
        ensures { IfOk result (λ code.
            option_map tablets_code (book_in self.now.process.node) ≡ Some code.items) }
    {
        let Some(coordinator) = self.process.node().as_coordinator() else {
            return Err(SessionFault::Refused);
        };
        let Ok(tablets) = coordinator.tablets(self.alloc) else {
            return Err(SessionFault::NoMemory);
        };
        let mut code = Vec::new(self.alloc);
        match put_tablets(tablets.as_slice(), &mut code) {
            Ok(()) => Ok(code),
            Err(_) => Err(SessionFault::NoMemory),
        }
    }

    /// All servers in the order of enlisting: how many there are, in eight bytes, and each with whether it is up.
    ///
    /// # Errors
    ///
    /// `Refused`: the node is not the coordinator. `NoMemory`.
    pub fn servers(&self) -> Result<Vec<u8>, SessionFault>
        ensures { IfOk result (λ code.
            option_map servers_code (book_in self.now.process.node) ≡ Some code.items) }
    {
        let Some(coordinator) = self.process.node().as_coordinator() else {
            return Err(SessionFault::Refused);
        };
        let Ok(rows) = coordinator.servers().rows(self.alloc) else {
            return Err(SessionFault::NoMemory);
        };
        let mut code = Vec::new(self.alloc);
        match Seq::from_vec(rows).put(&mut code) {
            Ok(()) => Ok(code),
            Err(_) => Err(SessionFault::NoMemory),
        }
    }
}

/// How many tablets there are, and each of them.
fn put_tablets(tablets: &[Tablet], out: &mut Vec<u8>) -> Result<(), AllocError>
    ensures { OnOk result (out.new.items ≡ out.old.items ++ listed tablet_code tablets.now) }
{
    tablets.len().put(out)?;
    put_each(tablets, out)
}

/// Each of them.
fn put_each(tablets: &[Tablet], out: &mut Vec<u8>) -> Result<(), AllocError>
    ensures { OnOk result (out.new.items ≡ out.old.items ++ flat_map tablet_code tablets.now) }
{
    for tablet in tablets {
        put_tablet(tablet, out)?;
    }
    Ok(())
}

/// One of them.
fn put_tablet(tablet: &Tablet, out: &mut Vec<u8>) -> Result<(), AllocError>
    ensures { OnOk result (out.new.items ≡ out.old.items ++ tablet_code tablet.now) }
{
    let Tablet {
        range,
        owner,
        term,
        crashed,
    } = *tablet;
    (range, owner, term, crashed).put(out)
}
