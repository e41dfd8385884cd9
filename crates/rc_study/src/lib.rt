//! Runs that are looked into. `exploring` draws runs in which much happens, `shrinking` looks for a smallest scenario
//! that still shows something, and `telling` is the story of a scenario's run, as data.
//!
//! All three only play worlds and runs, so whatever is promised of those holds here. Nothing is promised beside that
//! each call is safe and ends: which events are drawn, how small a scenario becomes and what a story has is tested.
//!
//! A `Survey` says what a run has reached: events, messages and refusals by kind, what came of them, and which rules of
//! the protocol were reached. It is told each event with what it has sent, and looks at nothing else: neither at a node
//! nor at a world. It notes what the messages tell of servers, replicas, segments and recoveries, and sees by that
//! which rule a step has reached. "Explored events" in `docs/FORMATS.md` says of each rule what is counted. Nothing is
//! claimed of the counts. To be read in this order: `rules` and `counts`; `servers`, `replicas`, `logs` and
//! `recoveries`, what is noted; `answers`, what a step sent; `backups`, `masters` and `coordinators`, the rules by who
//! takes the event; `surveying`; `counted_lines`, the lines of it; `goals`, what a run is to reach.
#![tactic(auto)]

mod answers;
mod backups;
mod coordinators;
mod counted_lines;
mod counts;
mod exploring;
mod goals;
mod logs;
mod masters;
mod recoveries;
mod replicas;
mod rules;
mod servers;
mod shrinking;
mod surveying;
mod telling;

pub use counted_lines::Sum;
pub use counts::Counts;
pub use exploring::{Exploration, Options};
pub use goals::Goal;
pub use shrinking::{Left, saved_events, saved_scenario, shrink};
pub use surveying::Survey;
pub use telling::{Played, story_json};
