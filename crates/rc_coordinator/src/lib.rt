//! The coordinator: it keeps the list of servers, the owner of each tablet, the least pair of each
//! master, and the recoveries of crashed masters. "Coordinator" in `docs/PROTOCOL.md` has its rules;
//! the words of the contracts are those of `rc_model`'s `Coordinator`, `Attempts`, `Deciding` and
//! `CoordinatorStep`.
//!
//! To be read in this order: `coordinator`, the calls; `state`, which work is taken how; the rules by topic:
//! `enlisting`, who is up; `deciding`, which log is chosen; `granting`, who owns what; `asking`, what the timer asks
//! for again; `ready`, who has said so; `recoveries`, what is remembered of recoveries; `plans`, which tablet goes to
//! whom; `grants`; `notices`, all other messages; `lists` and `making`, a coordinator of a save;
//! `copying`, a copy of one. Attempts and least
//! pairs are in `rc_attempts`.
#![tactic(auto)]

mod asking;
mod coordinator;
mod copying;
mod deciding;
mod enlisting;
mod granting;
mod grants;
mod lists;
mod making;
mod notices;
mod plans;
mod ready;
mod recoveries;
mod state;

pub use coordinator::Coordinator;
pub use lists::{Lists, ListsFault};
pub use rc_attempts::{Attempt, Decision, GivenPart};
pub use ready::Ready;
