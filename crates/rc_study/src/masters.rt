//! The rules that a master reaches.

use crate::answers::{count_of, places, refusal_in, version_read};
use crate::rules::Rule;
use crate::surveying::Survey;
use rc_types::{Body, Code, Kind, Message, ServerId, Shared};

impl Survey {
    /// A write or a read has come to a master that runs, or another message but a list.
    pub(crate) fn ask(&mut self, master: ServerId, body: &Body, answer: &[Message]) {
        match body {
            Body::Write { table, key, .. } => self.refused(master, *table, *key, answer),
            Body::Read { table, key } => {
                self.refused(master, *table, *key, answer);
                self.read(master, *table, *key, answer);
            }
            Body::Stored { seg, epoch, .. } => {
                let segment = self.servers.segment(master, *seg);
                let is_old = segment.is_some_and(|segment| *epoch < segment.epoch);
                self.reach_if(is_old, Rule::StoredOfOldEpoch);
                let acknowledged = count_of(answer, Kind::WriteOk);
                self.reach_if(acknowledged > 1, Rule::AcknowledgedTogether);
            }
            Body::CommitOk { seg, epoch } => self.committed(master, *seg, *epoch),
            _ => {}
        }
    }

    /// A request was answered: perhaps refused, by a deposed master or where the key is to be recovered.
    fn refused(&mut self, master: ServerId, table: u32, key: u64, answer: &[Message]) {
        let code = refusal_in(answer);
        let server = self.servers.get(master);
        if code == Code::Deposed.number() {
            self.counts.reach(Rule::DeposedRefuses);
        } else if code == Code::NotOwner.number()
            && server.is_some_and(|server| server.awaits(table, key))
        {
            self.counts.reach(Rule::ReadBeforeGranted);
        }
    }

    /// A key was read, perhaps while a newer version of it is not durable.
    fn read(&mut self, master: ServerId, table: u32, key: u64, answer: &[Message]) {
        if let (Some(version), Some(server)) = (version_read(answer), self.servers.get(master)) {
            let is_older = version < server.log.version(table, key);
            self.reach_if(is_older, Rule::ReadBeforeStored);
        }
    }

    /// An epoch of a segment is committed.
    fn committed(&mut self, master: ServerId, seg: u16, epoch: u16) {
        let Some(server) = self.servers.get(master) else {
            return;
        };
        let segment = server.log.segment(seg);
        let is_current = segment.is_some_and(|segment| epoch == segment.epoch);
        let is_later = epoch > 0 && is_current && !server.is_deposed;
        self.reach_if(is_later, Rule::EpochCommitted);
    }

    /// A list has come to a master that runs.
    pub(crate) fn list(
        &mut self,
        master: ServerId,
        version: u32,
        rows: &Shared<(ServerId, bool)>,
        answer: &[Message],
    ) {
        let Some(server) = self.servers.get_mut(master) else {
            return;
        };
        if version <= server.list {
            self.counts.reach(Rule::StaleList);
            return;
        }
        server.list = version;
        let head = server.log.head();
        let segment = server.log.segment(head);
        if let Some(segment) = segment.filter(|_| !places(answer, head)) {
            for (id, up) in rows.as_slice() {
                let is_lost = !*up && segment.members.contains(id);
                self.counts.reach_if(is_lost, Rule::NoReplacement);
            }
        }
    }
}
