//! How deep a tree gets.

/// The greatest number of forks that a way from the root of a tree to a tablet passes.
pub const MAX_FORKS: usize = 20;
