//! The story of a scenario's run: which event of the world came from where, what it sent and changed, and how masters
//! and backups stand at the end. It is what a run of the scenario leads to, and no more: it is read from the world's
//! own events and messages, and from its nodes.

mod changing;
mod played;
mod standing;

pub use played::{Played, story_json};
