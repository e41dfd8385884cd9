//! What a master owns: the ranges granted to it, the notes of its log by which it numbers versions
//! and reads, and the parts of crashed masters' logs that it replays. The words of the contracts are
//! those of `rc_model`'s `Ownership` and `Versions`.
#![tactic(auto)]

mod bounds;
mod counts;
mod grants;
mod groups;
mod highs;
mod looks;
mod notes;
mod ownership;
mod part;
mod parts;
mod pieces;
mod replay;
mod rows;
mod shared;
mod tops;
mod touched;
mod unfinished;

pub use groups::group_of;
pub use looks::PartProgress;
pub use ownership::Ownership;
