//! Who takes part: servers, and the addresses of messages; and pairs of a segment and an epoch.

ghost use Rattle.std.specs.Prelude.{◌≡◌, ◌<◌, Some};
ghost use Rattle.std.proofs.Common.{rules};
ghost use Rattle.std.specs.Cmp.{partial_order_from_own_ties};
ghost use Rattle.std.specs.Cmp.Rules.{comparing};
ghost use Rattle.rc_types.specs.declared.ids.TheConstants.{NODE_NUMBERS};
ghost use Rattle.std.specs.Ordering.{nat_cmp, on, then_cmp, as_partial_cmp};

use std::cmp::Ordering;
use std::fmt;

/// One run of one host: the host's index, and how often it was started. An id is never used again.
#[derive(Clone, Copy, Debug, PartialEq, Eq, Hash)]
pub struct ServerId {
    /// The host, 0 to 63.
    pub index: u8,
    /// The number of the start, from 1.
    pub generation: u32,
}

/// Ids are ordered by index, and those of one index by generation.
impl Ord for ServerId {
    ghost cmp = { then_cmp (on (λ i. i.index) nat_cmp) (on (λ i. i.generation) nat_cmp) };

    ghost total = { Prim.search (comparing, rules) };

    ghost matches_partial_cmp = { Prim.search (comparing, rules) };

    ghost matches_eq = { Prim.search (comparing, rules) };

    fn cmp(&self, other: &ServerId) -> Ordering {
        self.index
            .cmp(&other.index)
            .then(self.generation.cmp(&other.generation))
    }
}

impl PartialOrd for ServerId {
    ghost partial_cmp = { as_partial_cmp (then_cmp (on (λ i. i.index) nat_cmp) (on (λ i. i.generation) nat_cmp)) };

    ghost laws = { partial_order_from_own_ties (Prim.search (comparing, rules)) (Prim.search (comparing, rules)) };

    fn partial_cmp(&self, other: &ServerId) -> Option<Ordering> {
        Some(self.cmp(other))
    }
}

/// An id is printed as its index, a point and its generation, as in `0.1`.
impl fmt::Display for ServerId {
    ghost use Rattle.rc_types.specs.Texts.{id_text};

    ghost output = { λ id. Some (id_text id) };

    fn fmt<W: fmt::Write>(&self, f: &mut fmt::Formatter<W>) -> fmt::Result {
        write!(f, "{}.{}", self.index, self.generation)
    }
}

/// Where a message comes from or goes to.
#[derive(Clone, Copy, Debug, PartialEq, Eq, Hash)]
pub enum Addr {
    /// The one coordinator.
    Coordinator,
    /// A server, which is a master and a backup at once.
    Server(ServerId),
    /// The clients and the operators, taken together.
    Outside,
}

/// How many numbers of nodes there can be: of the outside, of the coordinator, and of 256 hosts.
pub const NODE_NUMBERS: usize = 258;

/// Which node: one that has a state of its own. All servers of a host, one after the other, are one node.
#[derive(Clone, Copy, Debug, PartialEq, Eq, Hash)]
pub enum NodeName {
    /// The clients and the operators, taken together.
    Outside,
    /// The one coordinator.
    Coordinator,
    /// The host of this index, 0 to 63.
    Host(u8),
}

impl NodeName {
    ghost use Rattle.rc_types.specs.Names.{node_of, number_of};

    /// The node at this address.
    pub fn at(addr: Addr) -> NodeName
        ensures { result ≡ node_of addr }
    {
        match addr {
            Addr::Outside => NodeName::Outside,
            Addr::Coordinator => NodeName::Coordinator,
            Addr::Server(id) => NodeName::Host(id.index),
        }
    }

    /// The number of the node: 0 is the outside's, 1 the coordinator's, index + 2 that of a host.
    pub fn number(self) -> usize
        ensures is { result ≡ number_of self }
        ensures few { result < NODE_NUMBERS }
    {
        match self {
            NodeName::Outside => 0,
            NodeName::Coordinator => 1,
            NodeName::Host(index) => usize::from(index) + 2,
        }
    }
}

/// The coordinator is printed as `c`, the outside as `out`, and a server as its id.
impl fmt::Display for Addr {
    ghost use Rattle.rc_types.specs.Texts.{addr_text};

    ghost output = { λ addr. Some (addr_text addr) };

    fn fmt<W: fmt::Write>(&self, f: &mut fmt::Formatter<W>) -> fmt::Result {
        match self {
            Addr::Coordinator => write!(f, "c"),
            Addr::Server(id) => write!(f, "{id}"),
            Addr::Outside => write!(f, "out"),
        }
    }
}

/// A segment under an epoch. The coordinator keeps the least pair of each master: an open replica
/// below it counts for nothing in a recovery. The least of all pairs is (0, 0).
#[derive(Clone, Copy, Debug, PartialEq, Eq, Hash)]
pub struct Pair {
    /// The segment, 1 to 65,535; 0 stands below all of them.
    pub seg: u16,
    /// The epoch, 0 to 65,535.
    pub epoch: u16,
}

/// Pairs are ordered by segment, and those of one segment by epoch.
impl Ord for Pair {
    ghost cmp = { then_cmp (on (λ p. p.seg) nat_cmp) (on (λ p. p.epoch) nat_cmp) };

    ghost total = { Prim.search (comparing, rules) };

    ghost matches_partial_cmp = { Prim.search (comparing, rules) };

    ghost matches_eq = { Prim.search (comparing, rules) };

    fn cmp(&self, other: &Pair) -> Ordering {
        self.seg.cmp(&other.seg).then(self.epoch.cmp(&other.epoch))
    }
}

impl PartialOrd for Pair {
    ghost partial_cmp = { as_partial_cmp (then_cmp (on (λ p. p.seg) nat_cmp) (on (λ p. p.epoch) nat_cmp)) };

    ghost laws = { partial_order_from_own_ties (Prim.search (comparing, rules)) (Prim.search (comparing, rules)) };

    fn partial_cmp(&self, other: &Pair) -> Option<Ordering> {
        Some(self.cmp(other))
    }
}
