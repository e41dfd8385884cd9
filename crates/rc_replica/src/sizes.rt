//! How much a replica holds.

ghost use Rattle.std.specs.Prelude.{◌≡◌};
ghost use Rattle.rc_types.specs.Counts.{within_64_bits};
ghost use Rattle.rc_replica.specs.Sizes.{value_len, value_bytes};

use crate::kept::Replica;
use rc_types::{Entry, Shared};

impl Replica {
    /// How many bytes the values of its entries have, or the greatest number where they have more. It goes over
    /// all entries, and takes no memory.
    pub fn value_bytes(&self) -> usize
        ensures { result ≡ within_64_bits (value_bytes self.now.entries) }
    {
        bytes_in(self.entries())
    }
}

/// How many bytes the values of these entries have.
fn bytes_in(entries: &[Entry]) -> usize
    ensures { result ≡ within_64_bits (value_bytes entries.now) }
{
    let mut bytes = 0usize;
    for entry in entries {
        bytes = bytes.saturating_add(value_len(&entry.value));
    }
    bytes
}

/// How many bytes the value has.
fn value_len(value: &Option<Shared<u8>>) -> usize
    ensures { result ≡ value_len value.now }
{
    match value {
        Some(bytes) => bytes.len(),
        None => 0,
    }
}
