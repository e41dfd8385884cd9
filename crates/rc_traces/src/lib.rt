//! Traces: lists of messages as text, with what a judge asks of each. "Trace" in `docs/FORMATS.md` has the members.
//!
//! And what is printed of a list of messages: a line for each message of six kinds, counts, and what the audit found
//! (`reports`, over `lines`, `counts` and `audited`). A trace is judged, from its bytes to what is printed (`judging`).
//! "Report" in `docs/FORMATS.md` has the text of each line.
#![tactic(auto)]

mod audited;
mod codes;
mod counts;
mod ends;
mod fields;
mod judging;
pub mod limits;
mod lines;
mod listed;
mod lists;
mod names;
mod outlines;
mod reading;
mod reports;
mod values;
mod whole;
mod writing;

pub use ends::{add_stopped, error_text};
pub use judging::{Finding, Judgement, judge};
pub use reading::{read_outline, read_trace};
pub use reports::report_of;
pub use writing::write_trace;
