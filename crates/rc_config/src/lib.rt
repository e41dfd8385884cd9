//! A segment of a master's log, in the master's own view. Its members: which backups are to keep a replica of it, under
//! which epoch, and what they have told. A member that has crashed is lost, and another takes its place. What is known
//! of the segment by that (`segment`); and how a head goes on, which the newest segments of a log decide (`heads`). The
//! words of the contracts are those of `rc_model`'s `Config`, `Segment` and `Log`.
#![tactic(auto)]

mod choosing;
mod config;
pub mod heads;
mod ids;
mod members;
mod replacing;
mod segment;
mod state;

pub use choosing::choose;
pub use config::{Config, MAX_MEMBERS};
pub use ids::MemberIds;
pub use segment::Segment;
pub use state::SegmentState;
