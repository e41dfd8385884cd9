//! Single nodes, and worlds of them, told what to do line by line. Below each line stand the messages that are sent, or
//! what is asked for. A command that names a node begins a new case, and the commands below it are for that node.
//!
//! A command that is refused memory is given again, so it takes all its memory before anything changes; one that makes
//! several steps goes on where it was.

mod bodies;
mod cases;
mod coordinators;
mod hosts;
mod looks;
mod masters;
mod owners;
mod told;
mod worlds;

pub use cases::Case;
