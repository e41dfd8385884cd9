//! What is due, by who was heard.

ghost use Rattle.std.specs.Prelude.{◌≡◌, ◌++◌, Err, Some, IfOk, OnOk};
ghost use Rattle.rc_codec.specs.Parts.{listed};
ghost use Rattle.rc_codec.specs.Fields.{id_code};
ghost use Rattle.rc_session.specs.Looks.{AreDue, due_code, all_due};

use crate::faults::SessionFault;
use crate::session::Session;
use rc_codec::{DecodeFault, Put, Take};
use rc_runbook::{Due, Seen, dues};
use rc_types::{Seq, ServerId};
use std::alloc::{AllocError, Global};

impl Session {
    /// What is due at the coordinator, as `rc_runbook::dues` says, for who was heard lately, who was silent for longer
    /// than one waits, and which owners are stuck. Each list is coded: how many there are, in eight bytes, and the ids.
    /// Each due takes seven bytes: a Suspect and a Decide are coded as works, to be given to the node; a Restart, which
    /// is for whoever runs that server, as a Stop with the server's id.
    ///
    /// # Errors
    ///
    /// `Refused`: the node is not the coordinator. `Malformed`: a list is none. `NoMemory`.
    #[tactic(auto, using(crate::proofs::Whose::are_due))]
    pub fn dues(&self, heard: &[u8], silent: &[u8], stuck: &[u8]) -> Result<Vec<u8>, SessionFault>
        ensures { IfOk result (λ code. AreDue heard.now silent.now stuck.now self.now.process.node code.items) }
    {
        let Some(coordinator) = self.process.node().as_coordinator() else {
            return Err(SessionFault::Refused);
        };
        let heard = ids_of(self.alloc, heard)?;
        let silent = ids_of(self.alloc, silent)?;
        let stuck = ids_of(self.alloc, stuck)?;
        let seen = Seen {
            heard: heard.as_slice(),
            silent: silent.as_slice(),
            stuck: stuck.as_slice(),
        };
        let Ok(list) = dues(self.alloc, coordinator, &seen) else {
            return Err(SessionFault::NoMemory);
        };
        let mut code = Vec::new(self.alloc);
        match put_dues(list.as_slice(), &mut code) {
            Ok(()) => Ok(code),
            Err(_) => Err(SessionFault::NoMemory),
        }
    }
}

/// The ids that these bytes are.
fn ids_of(alloc: Global, bytes: &[u8]) -> Result<Seq<ServerId>, SessionFault>
    ensures { IfOk result (λ ids. bytes.now ≡ listed id_code ids) }
{
    match <Seq<ServerId>>::take(alloc, bytes) {
        Ok((ids, [])) => Ok(ids),
        Ok(_) => Err(SessionFault::Malformed),
        Err(DecodeFault::Malformed) => Err(SessionFault::Malformed),
        Err(DecodeFault::OutOfMemory) => Err(SessionFault::NoMemory),
    }
}

/// Adds what is due.
fn put_dues(list: &[Due], out: &mut Vec<u8>) -> Result<(), AllocError>
    ensures { OnOk result (out.new.items ≡ out.old.items ++ all_due list.now) }
{
    for due in list {
        put_due(*due, out)?;
    }
    Ok(())
}

/// One of them.
fn put_due(due: Due, out: &mut Vec<u8>) -> Result<(), AllocError>
    ensures { OnOk result (out.new.items ≡ out.old.items ++ due_code due) }
{
    match due {
        Due::Suspect(id) => (1u8, 5u8, id).put(out),
        Due::Decide(id) => (1u8, 6u8, id).put(out),
        Due::Restart(id) => (1u8, 3u8, id).put(out),
    }
}
