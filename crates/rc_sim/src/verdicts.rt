//! What comes of a scenario, and why nothing came of it.

ghost use Rattle.std.specs.Prelude.{◌≡◌};

use rc_types::Code;
use std::alloc::{AllocError, AllocFailed};
use thiserror::Error;

/// What is printed of a scenario's run.
#[derive(Clone, Copy)]
pub enum Output {
    /// The report, with the audit's answer.
    Report,
    /// The trace of what was sent.
    Trace,
}

/// What came of a scenario, of a trace, of drawn events, of nodes on threads, or of a command line.
#[derive(Clone, Copy)]
pub enum Verdict {
    /// Every event happened, and the audit found no breach; or what was asked for was written: a trace, a story, a
    /// scenario, or a text.
    Clean,
    /// Every event happened, and the audit found a breach.
    Breach,
    /// The scenario or the trace is wrong at this place (F17).
    Bad(usize),
    /// The run stopped at this event of the scenario: F18 where it was not possible, F1 where its step
    /// found no memory. For nodes on threads: F18, where one could not go on, and how many events had happened.
    Stopped(usize, Code),
    /// What was looked for is not there: no line of the report begins with the text that is to be kept, or no seed
    /// reaches what is to be reached.
    NoLine,
    /// The command line is wrong.
    Wrong,
}

impl Verdict {
    ghost use Rattle.rc_sim.specs.Statuses.{verdict_status};

    /// The exit status that tells it: 0 clean, 1 a breach, 2 a wrong scenario or command line, an event that was not
    /// possible, or nothing that was looked for, 3 no memory.
    pub fn status(self) -> u8
        ensures { result ≡ verdict_status self }
    {
        match self {
            Verdict::Clean => 0,
            Verdict::Breach => 1,
            Verdict::Stopped(_, Code::OutOfMemory) => 3,
            Verdict::Bad(_) | Verdict::Stopped(..) | Verdict::NoLine | Verdict::Wrong => 2,
        }
    }
}

/// Why nothing, or not all, was written.
#[derive(Debug, Drop, Error, PartialEq)]
pub enum SimFault {
    /// Memory was refused outside a step of the run. Nothing was written.
    #[error("memory")]
    Memory,
    /// The reader failed. Nothing was written.
    #[error("read")]
    Read,
    /// The writer failed after it had taken so many bytes.
    #[error("write {0}")]
    Write(usize),
}

impl SimFault {
    ghost use Rattle.rc_sim.specs.Statuses.{fault_status};

    /// The exit status that tells it: 3 no memory, 4 a read or a write that failed.
    pub fn status(&self) -> u8
        ensures { result ≡ fault_status self.now }
    {
        match self {
            SimFault::Memory => 3,
            SimFault::Read | SimFault::Write(_) => 4,
        }
    }
}

/// What has no memory says nothing of the scenario.
impl From<AllocError> for SimFault {
    ghost use Rattle.rc_sim.specs.declared.verdicts.SimFault.TheVariants.{Memory};

    ghost from_gives = { λ _ e. e ≡ Memory };

    fn from(_: AllocError) -> SimFault {
        SimFault::Memory
    }
}

/// What could not be stored for want of memory says nothing of the scenario.
impl<T: Drop> From<AllocFailed<T>> for SimFault {
    ghost use Rattle.rc_sim.specs.declared.verdicts.SimFault.TheVariants.{Memory};

    ghost from_gives = { λ _ e. e ≡ Memory };

    fn from(_: AllocFailed<T>) -> SimFault {
        SimFault::Memory
    }
}
