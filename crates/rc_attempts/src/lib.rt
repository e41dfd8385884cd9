//! What the coordinator looks up to tell what is late from what counts: the attempts to recover crashed masters, by
//! their numbers, and the least pair of each master. A commit counts where its sender is up, and a recovered part
//! where its attempt is its master's current one. The words of the contracts are those of `rc_model`'s `Attempts`,
//! `Coordinator` and `Deciding`.
#![tactic(auto)]

mod attempts;
pub mod least;
pub mod numbers;

pub use attempts::{Attempt, Decision, GivenPart};
