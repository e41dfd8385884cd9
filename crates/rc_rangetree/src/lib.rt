//! Which tablet holds a key: the tablets of all tables as a search tree, in memory of any allocator.
//!
//! Whoever uses a `RangeTree` sees the list of its tablets, in order of table and first key, and of
//! each tablet how many forks lie above it: at most `MAX_FORKS`. Every call goes down by recursion,
//! and so does the release of a tree's memory. A change that would make a longer way down builds
//! the tree anew from its list, as flat as can be: 1,024 tablets then lie below 10 forks.
#![tactic(auto)]

pub mod limits;
mod nodes;
mod points;
mod ranges;
mod trees;

pub use ranges::are_tablets;
pub use trees::RangeTree;
