//! How great the numbers of a trace may be, where the protocol sets no limit.

/// The greatest offset, length, attempt or term.
pub const LAST_NUMBER: u32 = u32::MAX;
