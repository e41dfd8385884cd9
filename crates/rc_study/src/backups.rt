//! The rules that a backup reaches.

use crate::answers::stored_in;
use crate::counts::more;
use crate::replicas::Replica;
use crate::rules::Rule;
use crate::surveying::Survey;
use rc_types::{Body, Message, ServerId};
use std::alloc::AllocError;

/// A master's segment at a backup.
#[derive(Clone, Copy)]
pub(crate) struct Kept {
    pub(crate) backup: ServerId,
    pub(crate) master: ServerId,
    pub(crate) seg: u16,
}

impl Survey {
    /// A Place, an Append or a Close has come to a backup that runs.
    pub(crate) fn store(&mut self, kept: Kept, body: &Body, answer: &[Message]) {
        let freed = (kept.backup, kept.master, kept.seg);
        if let Some(now) = stored_in(answer) {
            self.stored(kept, body, now);
        } else if self.servers.has_fenced(kept.backup, kept.master) {
            self.at_fence(kept.master, body);
        } else if self.freed.contains(&freed) {
            self.counts.reach(Rule::FreedMark);
        } else {
            self.counts.reach(Rule::AppendWithoutReplica);
        }
    }

    /// It has come to a backup that has fenced the master.
    fn at_fence(&mut self, master: ServerId, body: &Body) {
        more(&mut self.counts.fenced);
        let rule = match body {
            Body::Place { .. } => Rule::FenceDropsPlace,
            Body::Append { .. } => Rule::FenceDropsAppend,
            _ => Rule::FenceDropsClose,
        };
        let is_suspected = self.servers.is_suspected(master);
        self.reach_if(is_suspected, rule);
    }

    /// It was answered that the replica is now so.
    fn stored(&mut self, kept: Kept, body: &Body, now: Replica) {
        match body {
            Body::Place { epoch, closed, .. } => {
                self.reach_if(now.epoch > *epoch, Rule::PlaceBelowEpoch);
                let is_new = now.epoch == *epoch && *epoch > 0;
                let stays_closed = now.closed && !*closed && is_new;
                self.reach_if(stays_closed, Rule::PlaceAtClosedReplica);
            }
            Body::Append {
                offset,
                entries,
                ..
            } => {
                self.reach_if(now.closed, Rule::AppendAtClosedReplica);
                self.reach_if(now.len < *offset, Rule::AppendAboveLength);
                let end = offset.saturating_add(entries.len());
                let segment = self.servers.segment(kept.master, kept.seg);
                let before = segment.and_then(|segment| segment.open_at(kept.backup.index));
                let is_known = before.is_some_and(|before| before.len >= end);
                self.reach_if(is_known, Rule::AppendOfKnownEntries);
            }
            _ => self.reach_if(!now.closed, Rule::CloseAtOtherLength),
        }
    }

    /// A Gather has come to a backup that runs.
    pub(crate) fn gather(&mut self, backup: ServerId, master: ServerId) -> Result<(), AllocError> {
        let again = self.servers.fence(backup, master)?;
        self.reach_if(again, Rule::GatherAgain);
        Ok(())
    }

    /// A Fetch of so many entries has come to a backup that runs.
    pub(crate) fn fetch(&mut self, len: usize, answer: &[Message]) {
        for message in answer {
            if let Body::Data { entries, .. } = &message.body {
                self.reach_if(entries.len() < len, Rule::DataLeavesOut);
            }
        }
    }

    /// A Free has come to a backup that runs.
    pub(crate) fn free(&mut self, kept: Kept) -> Result<(), AllocError> {
        if self.servers.has_fenced(kept.backup, kept.master) {
            self.counts.reach(Rule::FreeAtFence);
            return Ok(());
        }
        self.freed.insert((kept.backup, kept.master, kept.seg))?;
        if let Some(segment) = self.servers.segment_mut(kept.master, kept.seg) {
            segment.lose(kept.backup.index);
        }
        Ok(())
    }

    /// A host is started, and keeps these of its open replicas.
    pub(crate) fn start(&mut self, host: u8, kept: &[(ServerId, u16)]) -> Result<(), AllocError> {
        self.servers.start(host)?;
        let restart = self.servers.keep(host, kept)?;
        self.reach_if(restart.keeps_named, Rule::RestartKeepsNamed);
        self.reach_if(restart.drops_unnamed, Rule::RestartDropsUnnamed);
        self.reach_if(restart.keeps_closed, Rule::RestartKeepsClosed);
        Ok(())
    }
}
