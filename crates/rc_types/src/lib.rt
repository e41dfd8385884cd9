//! The types that every other crate speaks of: ids, log entries, messages, events, refusals and
//! limits. All of it is plain data, and a copy of it equals its source.
#![tactic(auto)]

mod copies;
mod entries;
mod events;
mod faults;
mod ids;
mod kept;
pub mod laws;
pub mod limits;
mod messages;
mod rows;
mod sequence;
mod shared;
mod verdicts;

pub use copies::{copied, copied_map};
pub use entries::Entry;
pub use events::{Event, EventKind, MasterSetup, NodeWork, Order, Setup};
pub use faults::{Code, Fault};
pub use ids::{Addr, NODE_NUMBERS, NodeName, Pair, ServerId};
pub use kept::{Grant, GrantedRange, Member, Phase, Told};
pub use messages::{Body, Kind, Message};
pub use rows::{KeyRange, Part, Plan, PlanRow, Row, Tablet};
pub use sequence::{Seq, TryClone};
pub use shared::Shared;
pub use verdicts::Breach;
