//! A host's server is started anew.

ghost use Rattle.std.specs.Prelude.{◌≡◌, ◌⊎◌, OnOk, OnErr};
ghost use Rattle.rc_session.specs.View.{session_seen, stopped, started, started_anew};
ghost use Rattle.rc_session.specs.Claims.{CanStart};

use crate::faults::SessionFault;
use crate::session::Session;
use rc_types::{Fault, NodeWork};
use rc_world::StepFault;

impl Session {
    /// Starts the host's server anew: stops it, if it runs, and starts it with all open replicas that the host has.
    ///
    /// # Errors
    ///
    /// `Refused`: the node is no host. `NoMemory`, `UsedUp`. After each nothing has changed, or the server is stopped.
    pub fn start(&mut self) -> Result<(), SessionFault>
        ensures started { OnOk result (session_seen self.new ≡ started_anew (session_seen self.old)) }
        ensures possible { OnOk result (CanStart (stopped (session_seen self.old))) }
        ensures err { OnErr result ((session_seen self.new ≡ session_seen self.old)
            ⊎ (session_seen self.new ≡ stopped (session_seen self.old))) }
    {
        match self.stop() {
            Ok(()) => self.start_whole(),
            Err(fault) => Err(fault),
        }
    }

    /// Stops the server, if one runs.
    fn stop(&mut self) -> Result<(), SessionFault>
        ensures stopped { OnOk result (session_seen self.new ≡ stopped (session_seen self.old)) }
        ensures same { OnErr result (session_seen self.new ≡ session_seen self.old) }
    {
        if self.process.node().runs() {
            self.give(&NodeWork::Stop)
        } else {
            Ok(())
        }
    }

    /// Starts the server with all open replicas that the host has.
    fn start_whole(&mut self) -> Result<(), SessionFault>
        ensures started { OnOk result (session_seen self.new ≡ started (session_seen self.old)) }
        ensures possible { OnOk result (CanStart (session_seen self.old)) }
        ensures same { OnErr result (session_seen self.new ≡ session_seen self.old) }
    {
        match self.process.start(&mut self.journal) {
            Ok(()) => Ok(()),
            Err(StepFault::NoRoom) => Err(SessionFault::UsedUp),
            Err(StepFault::Refused(Fault::BadEvent)) => Err(SessionFault::Refused),
            Err(StepFault::Refused(_)) => Err(SessionFault::NoMemory),
        }
    }
}
