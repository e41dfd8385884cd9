//! Why a node did not take what it was given.

use rc_types::Fault;
use std::fmt::{Display, Error, Formatter, Write};

/// Why a node that was given something did not take a step.
#[derive(Drop)]
pub enum StepFault {
    /// The node's numbers do not suffice for one more step: a generation, a version, a term, an attempt or the version
    /// of the list has come to the end of its type.
    NoRoom,
    /// The step was refused: `BadEvent` (F18) or `OutOfMemory` (F1).
    Refused(Fault),
}

impl Display for StepFault {
    fn fmt<W: Write>(&self, f: &mut Formatter<W>) -> Result<(), Error> {
        match self {
            StepFault::NoRoom => f.write_str(
                "the numbers of the node do not suffice for one more step",
            ),
            StepFault::Refused(fault) => Display::fmt(fault, f),
        }
    }
}
