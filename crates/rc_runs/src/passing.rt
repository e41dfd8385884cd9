//! Which messages a pass leaves alone.

ghost use Rattle.std.specs.Prelude.{◌≡◌};
ghost use Rattle.rc_types.specs.Kinds.{kind_of};
ghost use Rattle.rc_runs.specs.Passing.{is_for_one_of, is_left_alone};

use rc_reading::{Hosts, Kinds};
use rc_types::{Addr, Kind, Message};

/// Which messages a pass leaves alone, beside those to the outside.
#[derive(Clone, Copy)]
pub struct Passing {
    /// Messages whose body is of one of these kinds.
    pub kinds: Kinds,
    /// Messages to a server on one of these hosts.
    pub hosts: Hosts,
}

impl Passing {
    /// Whether the pass leaves this message alone: it is for the outside, or for a server on one of
    /// the hosts, or its body is of one of the kinds. It costs the same whatever the sets hold.
    pub(crate) fn leaves_alone(&self, message: &Message) -> bool
        ensures { result ≡ is_left_alone self.now message.now }
    {
        self.spares(message.to) || self.kinds.has(Kind::of(&message.body))
    }

    pub(crate) fn spares(&self, to: Addr) -> bool
        ensures { result ≡ is_for_one_of self.now.hosts to }
    {
        match to {
            Addr::Outside => true,
            Addr::Coordinator => false,
            Addr::Server(id) => self.hosts.has(id.index),
        }
    }
}
