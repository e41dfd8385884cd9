//! Parts of the protocol, told what to do line by line. A command that names a part begins a new case of it, and the
//! commands below it are for that case.
//!
//! A command that is refused memory is given again, so it takes all its memory before anything changes; one that makes
//! several changes goes on where it was.

mod audits;
mod backups;
mod cases;
mod entries;
mod heads;
mod lists;
mod members;
mod owners;
mod picks;
mod replicas;
mod tablets;
mod texts;

pub use cases::Case;
