//! Sets of hosts.

ghost use Rattle.std.specs.Prelude.{◌≡◌, ◌<◌};
ghost use Rattle.rc_types.specs.declared.limits.TheConstants.{MAX_HOSTS};

use rc_types::limits::MAX_HOSTS;

/// A set of hosts. Asking whether a host is in it costs the same whatever it holds.
#[derive(Clone, Copy)]
pub struct Hosts {
    bits: u64,
}

impl Hosts {
    ghost use Rattle.rc_reading.specs.Hosts.{has_host, with_host, no_hosts};

    /// The empty set.
    pub fn new() -> Hosts
        ensures { result ≡ no_hosts }
    {
        Hosts { bits: 0 }
    }

    /// The set with the host of this index in it.
    pub fn with(self, host: u8) -> Hosts
        requires { host < MAX_HOSTS }
        ensures { result ≡ with_host self host }
    {
        Hosts {
            bits: self.bits | (1 << host),
        }
    }

    /// Whether the host of this index is in the set. There is none from 64 on.
    pub fn has(self, host: u8) -> bool
        ensures { result ≡ has_host self host }
    {
        host < MAX_HOSTS && (self.bits >> host) & 1 == 1
    }
}
