//! What backups have told of their replicas.

use crate::servers::Servers;
use rc_types::{Body, ServerId};
use std::alloc::AllocError;

/// What a backup has told of a replica.
#[derive(Clone, Copy)]
pub(crate) struct Replica {
    pub(crate) epoch: u16,
    pub(crate) len: usize,
    pub(crate) closed: bool,
}

impl Replica {
    /// What a Stored tells of one.
    pub(crate) fn told_in(body: &Body) -> Option<Replica> {
        match *body {
            Body::Stored {
                epoch,
                len,
                closed,
                ..
            } => Some(Replica { epoch, len, closed }),
            _ => None,
        }
    }
}

/// What a restart does with the replicas of its host.
#[derive(Clone, Copy)]
pub(crate) struct Restart {
    pub(crate) keeps_named: bool,
    pub(crate) drops_unnamed: bool,
    pub(crate) keeps_closed: bool,
}

impl Servers {
    /// A host has told of a replica of a segment.
    pub(crate) fn tell(
        &mut self,
        host: u8,
        master: ServerId,
        seg: u16,
        replica: Replica,
    ) -> Result<(), AllocError> {
        let Some(segment) = self.segment_mut(master, seg) else {
            return Ok(());
        };
        if replica.closed {
            segment.lose(host);
            self.close(host);
        } else if segment.open(host, replica)? {
            self.open(host, master, seg)?;
        }
        Ok(())
    }

    /// The host was started once more, and keeps these of its open replicas: of those of which it has told it has no
    /// other any more.
    pub(crate) fn keep(
        &mut self,
        host: u8,
        kept: &[(ServerId, u16)],
    ) -> Result<Restart, AllocError> {
        let start = self.starts(host);
        let mut restart = Restart {
            keeps_named: false,
            drops_unnamed: false,
            keeps_closed: self.has_closed(host),
        };
        for (master, seg) in kept {
            if let Some(segment) = self.segment_mut(*master, *seg) {
                restart.keeps_named = segment.name(host, start) || restart.keeps_named;
            }
        }
        for (master, seg) in &self.take_open(host) {
            if let Some(segment) = self.segment_mut(*master, *seg) {
                if segment.is_named(host, start) {
                    self.open(host, *master, *seg)?;
                } else {
                    restart.drops_unnamed = segment.lose(host) || restart.drops_unnamed;
                }
            }
        }
        Ok(restart)
    }
}
