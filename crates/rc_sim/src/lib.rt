//! What the program `ramseg` does: a scenario is run, a trace or a history is judged, events are drawn, or nodes are
//! run on threads; and what came of it is written.
#![tactic(auto)]

mod answers;
mod commanding;
mod counted;
mod cutting;
mod drawing;
mod exploring;
mod healing;
mod histories;
mod narrating;
mod outlets;
mod playing;
mod scales;
mod seeking;
mod shrinking;
mod simulating;
mod surveying;
mod threading;
mod verdicts;

pub use commanding::command;
pub use counted::Counted;
pub use drawing::{cut_powers, fuzz};
pub use exploring::explore;
pub use narrating::Telling;
pub use rc_runs::{draw, stops};
pub use seeking::{Search, seek};
pub use simulating::simulate;
pub use surveying::survey;
pub use threading::threads;
pub use verdicts::{Output, SimFault, Verdict};
