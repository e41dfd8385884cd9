//! A node in its process: what has to be written down, and what may leave, as a machine that reads and writes nothing.
//!
//! A `Process` keeps a node, and knows how many bytes its journal has and how many of them are safe. Whoever has one
//! has five duties: it writes what it is given at the end of the journal's file, says when that is safe, cuts the file
//! where it says when it comes back, lets no other process at the file, and keeps elsewhere how many bytes were safe.
//! Then whatever happens is what `rc_history` has of lives (`laws`), and all that holds of those holds of the messages
//! that have left.
//!
//! To be read in this order: `specs/View.antt`, a process as its contracts see it; `process`, the calls; `messages`;
//! `coming_back`; `specs/Running.antt`, processes on their disks, and what a server does with them; `laws`.
#![tactic(auto)]

mod coming_back;
mod faults;
mod held;
pub mod laws;
mod messages;
mod process;
mod saving;

pub use faults::{BackFault, MessageFault};
pub use process::Process;
