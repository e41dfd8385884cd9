//! What a node is saved as: a host without its master, read part by part as lists, or a coordinator's book.

ghost use Rattle.std.specs.Prelude.{◌≡◌};
ghost use Rattle.rc_codec.specs.Reading.{Gives};
ghost use Rattle.rc_keeping.specs.SaveReaders.{alone_at, coded_at};

use crate::book_reading::WrittenBook;
use rc_codec::{DecodeFault, Take};
use rc_replica::Replica;
use rc_types::{Entry, MasterSetup, Seq, ServerId, Shared};
use rc_world::HostHead;
use std::alloc::Global;
use std::marker::Model;

/// A segment and its replica.
pub(crate) struct Piece {
    pub(crate) seg: u16,
    pub(crate) replica: Replica,
}

impl Drop for Piece {
    fn drop(self) {
        let Piece { seg: _, replica: _ } = self;
    }
}

impl Model for Piece {
    ghost use Rattle.std.specs.Prelude.{ℕ};
    ghost use Rattle.rc_model.specs.Replica.{Replica as Kept};

    ghost Value = { ℕ × Kept };

    ghost view = { λ p. (p.seg, p.replica) };
}

impl Piece {
    /// The segment and its replica.
    pub(crate) fn into_pair(self) -> (u16, Replica)
        ensures { result ≡ self }
    {
        let Piece { seg, replica } = self;
        (seg, replica)
    }
}

impl Take for Piece {
    ghost use Rattle.rc_keeping.specs.SaveReaders.{replica_at};

    ghost read = { replica_at };

    fn take(alloc: Global, bytes: &[u8]) -> Result<(Piece, &[u8]), DecodeFault> {
        let ((seg, epoch, closed, digest, entries), rest) = <(
            u16,
            u16,
            bool,
            Shared<u16>,
            Seq<Entry>,
        )>::take(alloc, bytes)?;
        let replica = Replica::new(epoch, closed, digest, entries.into_vec());
        Ok((Piece { seg, replica }, rest))
    }
}

/// A master, and what is kept of it, in whatever order.
pub(crate) struct Part {
    pub(crate) master: ServerId,
    pub(crate) fenced: bool,
    pub(crate) replicas: Seq<Piece>,
    pub(crate) freed: Seq<u16>,
}

impl Drop for Part {
    fn drop(self) {
        let Part {
            master: _,
            fenced: _,
            replicas: _,
            freed: _,
        } = self;
    }
}

impl Model for Part {
    ghost use Rattle.rc_types.specs.declared.ids.ServerId.{ServerId as Id};
    ghost use Rattle.rc_model.specs.Backup.{Held};

    ghost Value = { Id × Held };

    ghost view = { λ p. (p.master, record { fenced = p.fenced; replicas = p.replicas; freed = p.freed }) };
}

impl Part {
    /// The master, whether it is fenced, its replicas and its freed segments.
    pub(crate) fn into_parts(self) -> (ServerId, bool, Vec<Piece>, Vec<u16>)
        ensures master { result.0 ≡ self.0 }
        ensures fenced { result.1 ≡ self.1.fenced }
        ensures replicas { result.2.items ≡ self.1.replicas }
        ensures freed { result.3.items ≡ self.1.freed }
    {
        let Part {
            master,
            fenced,
            replicas,
            freed,
        } = self;
        (master, fenced, replicas.into_vec(), freed.into_vec())
    }
}

impl Take for Part {
    ghost use Rattle.rc_keeping.specs.SaveReaders.{held_at};

    ghost read = { held_at };

    fn take(alloc: Global, bytes: &[u8]) -> Result<(Part, &[u8]), DecodeFault> {
        let ((master, fenced, replicas, freed), rest) = <(
            ServerId,
            bool,
            Seq<Piece>,
            Seq<u16>,
        )>::take(alloc, bytes)?;
        let part = Part {
            master,
            fenced,
            replicas,
            freed,
        };
        Ok((part, rest))
    }
}

/// A host without its master, all lists in whatever order.
pub(crate) struct Written {
    pub(crate) head: HostHead,
    pub(crate) own: ServerId,
    pub(crate) table: Seq<Part>,
}

impl Drop for Written {
    fn drop(self) {
        let Written {
            head: _,
            own: _,
            table: _,
        } = self;
    }
}

impl Model for Written {
    ghost use Rattle.rc_world.specs.HostParts.{HostParts};

    ghost Value = { HostParts };

    ghost view = { λ w. record { head = w.head; backup = record { own = w.own; table = w.table } } };
}

impl Written {
    /// What the host is by itself.
    pub(crate) fn head(&self) -> HostHead
        ensures { result ≡ self.now.head }
    {
        self.head
    }

    /// The backup's id, and what it keeps of each master.
    pub(crate) fn into_kept(self) -> (ServerId, Vec<Part>)
        ensures own { result.0 ≡ self.backup.own }
        ensures table { result.1.items ≡ self.backup.table }
    {
        let Written {
            head: _,
            own,
            table,
        } = self;
        (own, table.into_vec())
    }
}

impl Take for Written {
    ghost use Rattle.rc_keeping.specs.SaveReaders.{host_at};

    ghost read = { host_at };

    fn take(alloc: Global, bytes: &[u8]) -> Result<(Written, &[u8]), DecodeFault> {
        let ((head, own, table), rest) = <(Head, ServerId, Seq<Part>)>::take(alloc, bytes)?;
        let head = head.into_head();
        Ok((Written { head, own, table }, rest))
    }
}

/// What a host is by itself.
#[derive(Drop)]
struct Head {
    head: HostHead,
}

impl Model for Head {
    ghost use Rattle.rc_world.specs.declared.head.HostHead.{HostHead as Numbers};

    ghost Value = { Numbers };

    ghost view = { λ h. h.head };
}

impl Head {
    fn into_head(self) -> HostHead
        ensures { result ≡ self }
    {
        self.head
    }
}

impl Take for Head {
    ghost use Rattle.rc_keeping.specs.SaveReaders.{head_at};

    ghost read = { head_at };

    fn take(alloc: Global, bytes: &[u8]) -> Result<(Head, &[u8]), DecodeFault> {
        let ((index, setup, generation, runs), rest) = <(u8, MasterSetup, u32, bool)>::take(
            alloc, bytes,
        )?;
        let head = HostHead {
            index,
            setup,
            generation,
            runs,
        };
        Ok((Head { head }, rest))
    }
}

/// What was read.
#[derive(Drop)]
pub(crate) struct Read {
    pub(crate) kind: Kind,
}

/// What it is that was read.
#[derive(Drop)]
pub(crate) enum Kind {
    /// A host without its master.
    Host(Written),
    /// All of the coordinator.
    Coordinator(WrittenBook),
}

impl Model for Read {
    ghost use Rattle.rc_keeping.specs.Saved.{Saved};

    ghost Value = { Saved };

    ghost use Rattle.rc_keeping.specs.ReadView.{read_view};

    ghost view = { λ r. read_view r.kind };
}

/// What these bytes are, and no more.
#[tactic(auto, unfolding(crate::specs::SaveReaders::alone_at))]
pub(crate) fn take_alone(alloc: Global, code: &[u8]) -> Result<Read, DecodeFault>
    ensures { Gives (λ read. read) result (alone_at code.now) }
{
    match take_coded(alloc, code) {
        Ok((read, [])) => Ok(read),
        Ok(_) => Err(DecodeFault::Malformed),
        Err(fault) => Err(fault),
    }
}

/// What stands behind the version and the kind.
fn take_coded(alloc: Global, bytes: &[u8]) -> Result<(Read, &[u8]), DecodeFault>
    ensures { Gives (λ x. (x.0, x.1.now)) result (coded_at bytes.now) }
{
    match bytes {
        [1, 9, rest @ ..] => {
            let (written, rest) = Written::take(alloc, rest)?;
            let kind = Kind::Host(written);
            Ok((Read { kind }, rest))
        }
        [1, 10, rest @ ..] => {
            let (written, rest) = WrittenBook::take(alloc, rest)?;
            let kind = Kind::Coordinator(written);
            Ok((Read { kind }, rest))
        }
        _ => Err(DecodeFault::Malformed),
    }
}
