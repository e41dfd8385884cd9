//! Scenarios: what one delivers, what its run is, and its run in a world, where each of its events is an event of the
//! world or a pass over the messages.
//!
//! `Mail` has the messages that are still to be delivered, and tells which of them a pass delivers next: `passing`,
//! what a pass leaves alone; `mail`, the calls, over `marks` and `lines`. A `Run` takes events in a world.
//!
//! What the run of a scenario is, and what is printed of it, are definitions: `specs/Runs.antt`, `specs/Printed.antt`.
//! `laws` are laws on them. `doubts`, `epochs`, `first`, `recoveries`, `rolls`, `worked` and `wrong` are worked
//! scenarios, whose contracts say what is printed for these bytes; the definitions compute it, from the bytes to the
//! report, and nothing of them runs.
//!
//! Drawn events are worlds whose events come from a seed. After a beginning that is the same for all, three words of a
//! generator choose each event (`drawing`, over `words`, `choosing` and `playing`). And there is power failure after
//! each event of such a world (`stopping`, over `cutting`). `drawn_laws` are the laws of both.
#![tactic(auto)]

mod choosing;
mod cutting;
pub mod doubts;
mod drawing;
pub mod drawn_laws;
pub mod epochs;
pub mod first;
pub mod laws;
mod lines;
mod mail;
mod marks;
mod onlookers;
mod passing;
mod playing;
pub mod recoveries;
pub mod rolls;
mod runs;
mod stopping;
mod words;
pub mod worked;
pub mod wrong;

pub use drawing::{draw, drawn_world};
pub use mail::Mail;
pub use onlookers::Onlooker;
pub use passing::Passing;
pub use runs::Run;
pub use stopping::{cut_each, stops};
