//! A master's log: its segments, of which the newest is the head. It says how heads are opened and
//! rolled, where entries are appended, what members have told, and how much of the log is durable.
//! It sends nothing.
#![tactic(auto)]

mod alive;
mod before;
mod durable;
mod filing;
mod going_back;
mod going_on;
mod log;
mod numbers;
mod opening;
mod others;
mod stuck;
mod telling;
mod watch;
mod watching;

pub use alive::AliveEntry;
pub use durable::Place;
pub use log::LogHead;
pub use rc_config::Segment;
