//! How long a scenario may be, and how great the numbers in it, where the protocol sets no limit.

/// How many bytes a scenario may have.
pub const MOST_BYTES: usize = 16_777_216;

/// The greatest name of a table.
pub const LAST_TABLE: u32 = u32::MAX;

/// The greatest generation of a server. Generations count from 1.
pub const LAST_GENERATION: u32 = u32::MAX;

/// The greatest number of a message. Messages count from 0.
pub const LAST_MESSAGE: u32 = u32::MAX;
