//! How much a backup keeps of one master.

ghost use Rattle.std.specs.Prelude.{◌≡◌, nat_eq, length, not, count_by};
ghost use Rattle.std.specs.Map.{values_of};
ghost use Rattle.rc_types.specs.Counts.{within_64_bits};
ghost use Rattle.rc_replica.specs.HeldSizes.{count_entries, value_bytes};

use crate::held::Held;

impl Held {
    /// How many replicas there are.
    pub fn len(&self) -> usize
        ensures { result ≡ length self.now.replicas }
    {
        self.replicas().len()
    }

    /// Whether there is no replica.
    pub fn is_empty(&self) -> bool
        ensures { result ≡ nat_eq (length self.now.replicas) 0 }
    {
        self.replicas().is_empty()
    }

    /// How many of the replicas are open. It goes over them all, and takes no memory.
    pub fn count_open(&self) -> usize
        ensures { result ≡ count_by (λ replica. not replica.closed) (values_of self.now.replicas) }
    {
        self.replicas()
            .values()
            .filter(|replica| !replica.is_closed())
            .count()
    }

    /// How many entries the replicas have, or the greatest number where they have more. It goes over the replicas,
    /// and over no entry; it takes no memory.
    pub fn count_entries(&self) -> usize
        ensures { result ≡ within_64_bits (count_entries self.now.replicas) }
    {
        let mut entries = 0usize;
        for (_, replica) in self.replicas() {
            entries = entries.saturating_add(replica.len());
        }
        entries
    }

    /// How many bytes the values of all entries have, or the greatest number where they have more. It goes over each
    /// entry of each replica, and takes no memory.
    pub fn value_bytes(&self) -> usize
        ensures { result ≡ within_64_bits (value_bytes self.now.replicas) }
    {
        let mut bytes = 0usize;
        for (_, replica) in self.replicas() {
            bytes = bytes.saturating_add(replica.value_bytes());
        }
        bytes
    }
}
