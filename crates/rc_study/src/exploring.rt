//! Runs whose events are drawn so that much happens: segments fill and heads roll, servers stop, are suspected while
//! they live and go on writing, members are replaced, logs are recovered and change their owner several times.
//!
//! What is drawn is events of a world, and each that is not possible is passed over; so whatever is promised of worlds
//! holds of these runs. By which weights it is drawn is no promise. What a run has reached is counted as it goes on,
//! from its events and its messages alone, by `rc_study`.
//!
//! To be read in this order: `options`; `choosing`, which kind of event comes next; `mail`, what waits to be
//! delivered; `roster`, which servers there are and who owns what; `exploration`, the run.

mod choosing;
mod exploration;
mod mail;
mod options;
mod roster;

pub use exploration::Exploration;
pub use options::Options;
