//! What a master has sent of its segments, and which of their replicas are open.

use crate::replicas::Replica;
use rc_types::{ServerId, Shared};
use std::alloc::{AllocError, Global};
use std::collections::HashMap;
use std::mem::replace;

/// An open replica of a segment.
#[derive(Clone, Copy)]
struct Open {
    host: u8,
    replica: Replica,
    /// The last start of the host at which it was named among those that are kept; 0 where there is none.
    named: usize,
}

/// A segment of a master.
#[derive(Drop)]
pub(crate) struct Segment {
    pub(crate) epoch: u16,
    /// Its members under this epoch, at most `MAX_FACTOR`.
    pub(crate) members: Vec<ServerId>,
    /// The members under the epoch before.
    before: Vec<ServerId>,
    /// The epoch under which a Close was last sent.
    closing: Option<u16>,
    /// Whether an entry of a recovered log was appended to it.
    pub(crate) replayed: bool,
    /// Its open replicas, one on each of some hosts.
    open: Vec<Open>,
}

impl Segment {
    /// It is placed at a backup, after it was opened.
    fn place(
        &mut self,
        alloc: Global,
        backup: ServerId,
        epoch: u16,
        closed: bool,
    ) -> Result<Placing, AllocError> {
        let changes = epoch > self.epoch;
        if changes {
            self.epoch = epoch;
            self.before = replace(&mut self.members, Vec::new(alloc));
        } else if self.members.contains(&backup) {
            return Ok(Placing::Other);
        }
        self.members.push(backup)?;
        Ok(if closed {
            Placing::Refill
        } else if epoch > 0 && !self.before.contains(&backup) {
            Placing::Replacement
        } else if changes {
            Placing::Change
        } else {
            Placing::Other
        })
    }

    /// It is closed: whether it was so under an earlier epoch.
    pub(crate) fn close(&mut self) -> bool {
        let last = self.closing.replace(self.epoch);
        last.is_some_and(|epoch| epoch < self.epoch)
    }

    /// What the host has told last of its open replica.
    pub(crate) fn open_at(&self, host: u8) -> Option<Replica> {
        let open = self.open.iter().find(|open| open.host == host)?;
        Some(open.replica)
    }

    /// The open replica of the host.
    fn open_at_mut(&mut self, host: u8) -> Option<&mut Open> {
        self.open.iter_mut().find(|open| open.host == host)
    }

    /// The host tells of its open replica: whether it does so first.
    pub(crate) fn open(&mut self, host: u8, replica: Replica) -> Result<bool, AllocError> {
        if let Some(open) = self.open_at_mut(host) {
            open.replica = replica;
            return Ok(false);
        }
        self.open.push(Open {
            host,
            replica,
            named: 0,
        })?;
        Ok(true)
    }

    /// The host has no open replica any more: whether it had one.
    pub(crate) fn lose(&mut self, host: u8) -> bool {
        let count = self.open.len();
        self.open.retain(|open| open.host != host);
        self.open.len() < count
    }

    /// At this start of the host its replica is named among those that are kept: whether it has an open one.
    pub(crate) fn name(&mut self, host: u8, start: usize) -> bool {
        match self.open_at_mut(host) {
            Some(open) => {
                open.named = start;
                true
            }
            None => false,
        }
    }

    /// Whether the host has an open replica that was named at this start.
    pub(crate) fn is_named(&self, host: u8, start: usize) -> bool {
        let mut open = self.open.iter();
        open.any(|open| open.host == host && open.named == start)
    }
}

/// What a Place is.
#[derive(Clone, Copy)]
pub(crate) enum Placing {
    /// Of a new head, to its first member, with a digest of an earlier one or not.
    Head,
    /// Under a new epoch, to the first member.
    Change,
    /// To a member that was none under the epoch before.
    Replacement,
    /// To a new member of a shut segment.
    Refill,
    /// Anything else.
    Other,
}

/// The segments of a master.
#[derive(Drop)]
pub(crate) struct Log {
    alloc: Global,
    /// Those that it has placed, from the first on.
    segments: Vec<Segment>,
    /// The version that was last appended, by table and key.
    versions: HashMap<(u32, u64), u64>,
}

impl Log {
    /// There are none.
    pub(crate) fn new(alloc: Global) -> Log {
        Log {
            alloc,
            segments: Vec::new(alloc),
            versions: HashMap::new(alloc),
        }
    }

    /// The greatest segment that was placed; 0 where none was.
    pub(crate) fn head(&self) -> u16 {
        u16::try_from(self.segments.len()).unwrap_or(u16::MAX)
    }

    /// What is known of a segment.
    pub(crate) fn segment(&self, seg: u16) -> Option<&Segment> {
        self.segments.get((seg as usize).checked_sub(1)?)
    }

    /// What is known of a segment.
    pub(crate) fn segment_mut(&mut self, seg: u16) -> Option<&mut Segment> {
        self.segments.get_mut((seg as usize).checked_sub(1)?)
    }

    /// A segment is placed at a backup. A master opens its segments one after another, so one that is not known is the
    /// next one.
    pub(crate) fn place(
        &mut self,
        backup: ServerId,
        seg: u16,
        epoch: u16,
        closed: bool,
    ) -> Result<Placing, AllocError> {
        let alloc = self.alloc;
        if let Some(segment) = self.segment_mut(seg) {
            return segment.place(alloc, backup, epoch, closed);
        }
        let mut members = Vec::new(alloc);
        members.push(backup)?;
        self.segments.push(Segment {
            epoch,
            members,
            before: Vec::new(alloc),
            closing: None,
            replayed: false,
            open: Vec::new(alloc),
        })?;
        Ok(Placing::Head)
    }

    /// Whether one of these segments has an entry of a recovered log.
    pub(crate) fn has_replayed(&self, digest: &Shared<u16>) -> bool {
        let mut segs = digest.as_slice().iter().map(|seg| self.segment(*seg));
        segs.any(|known| known.is_some_and(|segment| segment.replayed))
    }

    /// This version of a key is appended.
    pub(crate) fn append(&mut self, table: u32, key: u64, version: u64) -> Result<(), AllocError> {
        self.versions.insert((table, key), version)?;
        Ok(())
    }

    /// The version of the key that was appended last.
    pub(crate) fn version(&self, table: u32, key: u64) -> u64 {
        self.versions.get(&(table, key)).copied().unwrap_or(0)
    }
}
