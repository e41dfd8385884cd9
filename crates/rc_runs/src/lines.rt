//! A line of numbers: the messages of one kind to one host, or to the coordinator, that wait.

ghost use Rattle.std.specs.Prelude.{◌≡◌, ◌++◌, ◌∷◌, [], ◌<◌, ◌⊎◌, not, filter, IsTrue, OnOk, OnErr};
ghost use Rattle.rc_runs.specs.Lanes.{marked};
ghost use Rattle.rc_runs.specs.Passing.{is_for_one_of};
ghost use Rattle.rc_runs.specs.declared.passing.Passing.{Passing};
ghost use Rattle.rc_runs.specs.Lanes.{Lane, is_lane_left};
ghost use Rattle.rc_reading.specs.declared.hosts.Hosts.{Hosts};

use crate::passing::Passing;
use rc_types::{Addr, Kind, TryClone};
use std::alloc::{AllocError, Global};
use std::marker::Model;

/// The numbers, ascending, of messages that a pass leaves alone together or not at all: they are of one kind,
/// and all to servers on one host, or all to the coordinator.
pub(crate) struct Line {
    kind: Kind,
    to: Addr,
    pub(crate) numbers: Vec<usize>,
}

impl Drop for Line {
    fn drop(self) {
        let Line {
            kind: _,
            to: _,
            numbers: _,
        } = self;
    }
}

impl Model for Line {
    ghost use Rattle.rc_runs.specs.Lanes.{Lane};

    ghost Value = { Lane };

    ghost view = { λ line. record { kind = line.kind; to = line.to; numbers = line.numbers.items } };
}

impl Line {
    /// A line with no number yet.
    pub(crate) fn new(alloc: Global, kind: Kind, to: Addr) -> Line
        ensures { result ≡ record { kind = kind; to = to; numbers = [] } }
    {
        Line {
            kind,
            to,
            numbers: Vec::new(alloc),
        }
    }

    /// The numbers.
    pub(crate) fn numbers(&self) -> &[usize]
        ensures { result.now ≡ self.now.numbers }
    {
        self.numbers.as_slice()
    }

    /// Whether the pass leaves these messages alone.
    pub(crate) fn is_left_by(&self, passing: &Passing) -> bool
        ensures { result ≡ is_lane_left passing.now self.now.kind self.now.to }
    {
        passing.spares(self.to) || passing.kinds.has(self.kind)
    }

    /// Whether messages of this kind to this addressee belong to the line.
    pub(crate) fn suits(&self, kind: Kind, to: Addr) -> bool
        ensures { IsTrue result → (passing : Passing) → is_lane_left passing self.now.kind self.now.to ≡
            is_lane_left passing kind to }
    {
        self.kind.number() == kind.number() && has_same_host(self.to, to)
    }

    /// One number more.
    pub(crate) fn push(&mut self, number: usize) -> Result<(), AllocError>
        ensures ok { OnOk result (self.new ≡ record {
          kind = self.old.kind;
          to = self.old.to;
          numbers =
              self.old.numbers ++ number ∷ [];
        }) }
        ensures err { OnErr result (self.new ≡ self.old) }
    {
        self.numbers.push(number)?;
        Ok(())
    }

    /// Where the first of its messages was delivered, those that were wait no longer.
    pub(crate) fn tidy(&mut self, delivered: &[bool])
        ensures kind { self.new.kind ≡ self.old.kind }
        ensures to { self.new.to ≡ self.old.to }
        ensures numbers { (self.new.numbers ≡ self.old.numbers) ⊎ (self.new.numbers ≡
            filter (λ n. not (marked delivered.now n)) self.old.numbers) }
    {
        match self.numbers.first() {
            Some(first) if is_marked(delivered, *first) => {
                let Line { numbers, .. } = self;
                numbers.retain(|number| !is_marked(delivered, *number));
            }
            _ => {}
        }
    }
}

impl TryClone for Line {
    fn try_clone(&self, alloc: Global) -> Result<Line, AllocError> {
        Ok(Line {
            kind: self.kind,
            to: self.to,
            numbers: self.numbers.as_slice().to_vec(alloc)?,
        })
    }
}

/// Whether the message of this number is marked.
pub(crate) fn is_marked(marks: &[bool], number: usize) -> bool
    ensures { result ≡ marked marks.now number }
{
    marks.get(number).copied().unwrap_or(false)
}

/// Whether both are the coordinator, or servers on one host.
fn has_same_host(one: Addr, other: Addr) -> bool
    ensures { IsTrue result → (hosts : Hosts) → is_for_one_of hosts one ≡ is_for_one_of hosts other }
{
    match (one, other) {
        (Addr::Coordinator, Addr::Coordinator) => true,
        (Addr::Server(id), Addr::Server(next)) => id.index == next.index,
        _ => false,
    }
}
