//! What clients saw: a history of their writes and reads, and the judge of it. A history is a list of events, as in the
//! books: invocations, and responses that name theirs. `specs/Linearizable.antt` says what it means that one is
//! linearizable by versions; `check` answers just that.
//!
//! To be read in this order: `events`, `operations`, `specs/Linearizable.antt`, `judging`; then `messages`, which makes
//! the history of the messages that were sent in a run, and `writing` and `reading`, which give it as JSON lines.
#![tactic(auto)]

mod bars;
mod births;
mod chains;
mod differing;
mod doubled;
pub mod events;
mod judging;
mod lines;
mod matching;
mod messages;
pub mod operations;
mod pending;
mod reading;
mod reads;
mod telling;
mod timely;
mod unwritten;
mod writing;

pub use events::{ClientEvent, Request};
pub use judging::{Violation, check, violations_refute};
pub use lines::LineFault;
pub use messages::{History, history_of};
pub use operations::{Kind, Operation};
pub use reading::{HistoryFault, ReadHistory, read_history};
pub use telling::judgement_text;
pub use writing::history_text;
