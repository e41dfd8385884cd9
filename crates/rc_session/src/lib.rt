//! A node in its process, for callers that have bytes and numbers only: what comes is bytes, and what has to be
//! written and what may leave is taken as bytes, into the caller's room.
//!
//! A `Session` is an `rc_process::Process` with what has not been taken from it yet. Whatever it is called with, it
//! answers: bytes that are nothing, too little room, a count that can't be, a call that comes too early.
//!
//! To be read in this order: `specs/View.antt`, a session as its contracts see it; `specs/Claims.antt`, what its calls
//! promise; `session`, making one and giving it works and messages; `starting`; `leaving`, what may leave; `saving`;
//! `looks`, `dues` and `info`.
#![tactic(auto)]

mod dues;
mod faults;
mod info;
mod leaving;
mod looks;
mod moving;
mod saving;
mod session;
mod starting;
mod whole;

pub use faults::SessionFault;
pub use info::Info;
pub use leaving::Leaving;
pub use session::Session;
