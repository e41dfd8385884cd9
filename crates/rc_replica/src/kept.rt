//! The replica.

ghost use Rattle.std.specs.Prelude.{◌≡◌, length, nat_eq, OnOk, OnErr, IfOk};

use crate::copies::append_copies;
use rc_types::{Entry, Shared, TryClone, copied};
use std::alloc::{AllocError, Global};
use std::marker::Model;

/// What one backup keeps of one segment: the epoch under which it was placed last, whether it is
/// closed, the digest that it was opened with, and the entries of the segment from the first on.
pub struct Replica {
    epoch: u16,
    closed: bool,
    digest: Shared<u16>,
    entries: Vec<Entry>,
}

impl Drop for Replica {
    fn drop(self) {
        let Replica {
            epoch: _,
            closed: _,
            digest: _,
            entries: _,
        } = self;
    }
}

impl Model for Replica {
    ghost use Rattle.rc_model.specs.Replica.{Replica as Kept};

    ghost Value = { Kept };

    ghost view = { λ r. record {
      epoch = r.epoch;
      closed = r.closed;
      digest = r.digest;
      entries = r.entries.items;
    } };
}

impl Replica {
    ghost use Rattle.rc_model.specs.Replica.{placed, appended, closes, closed_at};

    /// A replica of these parts. It takes no memory.
    pub fn new(epoch: u16, closed: bool, digest: Shared<u16>, entries: Vec<Entry>) -> Replica
        ensures { result ≡ record { epoch = epoch; closed = closed; digest = digest; entries = entries.items } }
    {
        Replica {
            epoch,
            closed,
            digest,
            entries,
        }
    }

    /// Takes a Place of the whole segment as its master has it: these are its entries, from the
    /// first on, and `closed` says whether it is closed at exactly their number. One under a lower
    /// epoch changes nothing, and a closed replica only takes the epoch. Only memory can be refused
    /// (F1), and then the replica is as it was.
    pub fn place(
        &mut self,
        alloc: Global,
        epoch: u16,
        entries: &[Entry],
        closed: bool,
    ) -> Result<(), AllocError>
        ensures ok { OnOk result (self.new ≡ placed self.old epoch entries.now closed) }
        ensures err { OnErr result (self.new ≡ self.old) }
    {
        if epoch < self.epoch {
            return Ok(());
        }
        if !self.closed {
            if let Some(added) = entries.get(self.entries.len()..) {
                append_copies(&mut self.entries, alloc, added)?;
            }
            self.closed = closed && self.entries.len() == entries.len();
        }
        self.epoch = epoch;
        Ok(())
    }

    /// Takes an Append of these entries, of which the first stands at `offset`: those past the
    /// replica's length are added. A closed replica, or one that has not all entries before
    /// `offset`, stays as it is. Only memory can be refused (F1), and then the replica is as it was.
    pub fn append(
        &mut self,
        alloc: Global,
        offset: usize,
        entries: &[Entry],
    ) -> Result<(), AllocError>
        ensures ok { OnOk result (self.new ≡ appended self.old offset entries.now) }
        ensures err { OnErr result (self.new ≡ self.old) }
    {
        if self.closed || offset > self.entries.len() {
            return Ok(());
        }
        if let Some(added) = entries.get(self.entries.len() - offset..) {
            append_copies(&mut self.entries, alloc, added)?;
        }
        Ok(())
    }

    /// Closes an open replica that has exactly `len` entries, and says whether it did.
    pub fn close(&mut self, len: usize) -> bool
        ensures closes { result ≡ closes self.old len }
        ensures closed { self.new ≡ closed_at self.old len }
    {
        let closes = !self.closed && self.entries.len() == len;
        self.closed = self.closed || closes;
        closes
    }

    /// How many entries the replica has.
    pub fn len(&self) -> usize
        ensures { result ≡ length self.now.entries }
    {
        self.entries.len()
    }

    /// Whether the replica has no entries.
    pub fn is_empty(&self) -> bool
        ensures { result ≡ nat_eq (length self.now.entries) 0 }
    {
        self.entries.is_empty()
    }

    /// Whether the replica is closed, so that its entries stay as they are.
    pub fn is_closed(&self) -> bool
        ensures { result ≡ self.now.closed }
    {
        self.closed
    }

    /// The epoch under which the replica was placed last.
    pub fn epoch(&self) -> u16
        ensures { result ≡ self.now.epoch }
    {
        self.epoch
    }

    /// The segments that made up the log when this one was opened.
    pub fn digest(&self) -> &[u16]
        ensures { result.now ≡ self.now.digest }
    {
        self.digest.as_slice()
    }

    /// One more owner of the digest. It fails only where more owners can't be counted.
    pub(crate) fn share_digest(&self) -> Result<Shared<u16>, AllocError>
        ensures { IfOk result (λ digest. digest ≡ self.now.digest) }
    {
        self.digest.share()
    }

    /// The entries, in the order of the log.
    pub fn entries(&self) -> &[Entry]
        ensures { result.now ≡ self.now.entries }
    {
        self.entries.as_slice()
    }
}

/// A copy, which has the same digest and the same values in memory.
impl TryClone for Replica {
    fn try_clone(&self, alloc: Global) -> Result<Replica, AllocError> {
        Ok(Replica {
            epoch: self.epoch,
            closed: self.closed,
            digest: self.digest.share()?,
            entries: copied(alloc, self.entries.as_slice())?,
        })
    }
}
