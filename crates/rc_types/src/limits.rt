//! The numbers that bound the protocol. "Limits" in `docs/PROTOCOL.md` says where each is tested.

/// The greatest replication factor: each segment has 1 to this many replicas.
pub const MAX_FACTOR: u8 = 5;

/// The greatest size of a segment, in entries.
pub const MAX_SEGMENT: u16 = 1024;

/// The greatest length of a value, in bytes. A master refuses a longer one with F7.
pub const MAX_VALUE: usize = 1024;

/// How many hosts there may be: host indexes are 0 to one less. At most 64, since `rc_reading`'s `Hosts` has a bit of a
/// `u64` for each.
pub const MAX_HOSTS: u8 = 64;

/// The last segment of a log. Segments count from 1.
pub const LAST_SEGMENT: u16 = 65535;

/// The last epoch of a segment. Epochs count from 0.
pub const LAST_EPOCH: u16 = 65535;

/// How many tablets there may be at once. One more is refused with F15.
pub const MAX_TABLETS: usize = 1024;

/// How many events one world takes. The next one is refused with F18.
pub const MAX_EVENTS: usize = 200_000;

/// The greatest key. A key is a 64-bit number and stands for itself, not for a hash of a text.
pub const LAST_KEY: u64 = u64::MAX;
