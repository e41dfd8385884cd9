//! A coordinator as the lists of what it knows, by which it can be written down and made again.

ghost use Rattle.std.specs.Prelude.{◌≡◌};

use rc_attempts::Attempt;
use rc_types::{Grant, Pair, Seq, ServerId, Tablet};
use std::alloc::{AllocError, AllocFailed};
use std::fmt;
use std::marker::Model;

/// All that a coordinator knows. Contracts see it as the book of the coordinator that can be made of it.
#[derive(Drop)]
pub struct Lists {
    /// How often the list of servers has changed.
    pub version: u32,
    /// Every id that was ever enlisted, in the order of enlisting, and whether it is up.
    pub rows: Seq<(ServerId, bool)>,
    /// Who has said that it is ready.
    pub ready: Seq<ServerId>,
    /// The tablets, in order of table and first key.
    pub tablets: Seq<Tablet>,
    /// The least pair of each master that has committed one.
    pub least: Seq<(ServerId, Pair)>,
    /// All attempts, in the order of their numbers.
    pub attempts: Seq<Attempt>,
    /// The number of the current attempt of each master that had one.
    pub current: Seq<(ServerId, u32)>,
    /// All grants, in the order of granting.
    pub grants: Seq<Grant>,
    /// The term that was given last.
    pub last_term: u32,
}

impl Model for Lists {
    ghost use Rattle.rc_coordinator.specs.Book.{Book};

    ghost Value = { Book };

    ghost view = { λ l. record {
      servers = record { version = l.version; rows = l.rows };
      ready = l.ready;
      tablets = l.tablets;
      least = l.least;
      attempts = l.attempts;
      current = l.current;
      grants = l.grants;
      last_term = l.last_term;
    } };
}

/// Why no coordinator was made of lists.
#[derive(Clone, Copy, PartialEq, Eq)]
pub enum ListsFault {
    /// Memory was refused.
    OutOfMemory,
    /// No coordinator has these lists.
    NoCoordinator,
}

impl fmt::Display for ListsFault {
    fn fmt<W: fmt::Write>(&self, f: &mut fmt::Formatter<W>) -> fmt::Result {
        match self {
            ListsFault::OutOfMemory => write!(f, "memory was refused"),
            ListsFault::NoCoordinator => write!(f, "no coordinator has these lists"),
        }
    }
}

/// For a debugger a fault is its text.
impl fmt::Debug for ListsFault {
    fn fmt<W: fmt::Write>(&self, f: &mut fmt::Formatter<W>) -> fmt::Result {
        write!(f, "{self}")
    }
}

/// What has no memory is `OutOfMemory`.
impl From<AllocError> for ListsFault {
    ghost use Rattle.rc_coordinator.specs.declared.lists.ListsFault.TheVariants.{OutOfMemory};

    ghost from_gives = { λ _ e. e ≡ OutOfMemory };

    fn from(_: AllocError) -> ListsFault {
        ListsFault::OutOfMemory
    }
}

/// What could not be stored for want of memory is `OutOfMemory`.
impl<T: Drop> From<AllocFailed<T>> for ListsFault {
    ghost use Rattle.rc_coordinator.specs.declared.lists.ListsFault.TheVariants.{OutOfMemory};

    ghost from_gives = { λ _ e. e ≡ OutOfMemory };

    fn from(_: AllocFailed<T>) -> ListsFault {
        ListsFault::OutOfMemory
    }
}
