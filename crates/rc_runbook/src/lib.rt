//! The runbook: what is to be done for a cluster that does not come back by itself. `docs/EMBEDDING.md`, "The runbook",
//! has it in words.
//!
//! The coordinator never acts by itself: it is told whom to believe dead, and when to decide. `dues` says what it is to
//! be told, and which server is to be stopped and started, by what it knows and by what was seen of the servers. It
//! decides nothing, and changes nothing; who asks it too often loses no data, since each Suspect, each Decide and each
//! restart is safe at any time.
//!
//! `heal` follows it in a world: the events that bring each tablet back, with what was done and why; and of each tablet
//! that does not come back which segment is gone. What was sent before and has not arrived counts as lost. Of what is
//! sent from then on nothing is lost. To be read in this order: `course`, a world that goes on; `views`, when it has
//! settled; `rounds`, the runbook; `trying`, whether a tablet is served; `losses`, what is gone; `checking`, whether
//! what is said is so; `healing`, all of it.
#![tactic(auto)]

mod asking;
mod attempts;
mod checking;
mod course;
mod deeds;
mod healing;
mod losses;
mod rounds;
mod seen;
mod trying;
mod views;

pub use asking::{Due, dues};
pub use deeds::{Deed, Dropped, Gone, Served, Why};
pub use healing::{Healed, heal};
pub use seen::Seen;
