//! What becomes of one replica by a message, and what is told of it.

ghost use Rattle.std.specs.Prelude.{◌≡◌, filter, unwrap_or, Some, None, OnOk, OnErr, IfOk};
ghost use Rattle.rc_model.specs.Backup.{replica_after, stored_of, row_of_replica, is_in_part};
ghost use Rattle.rc_replica.specs.HeldAfter.{put_after, stored_after, data_from};

use crate::kept::Replica;
use rc_types::{Body, Entry, Part, Row, Seq, TryClone};
use std::alloc::{AllocError, Global};
use std::collections::BTreeMap;

/// What a Fetch asks for: of this segment, the entries of this part among the first so many.
#[derive(Clone, Copy)]
pub struct Request {
    /// The attempt that asks.
    pub attempt: u32,
    /// The segment.
    pub seg: u16,
    /// How many entries the replica must have; those past them are not sent.
    pub len: usize,
    /// Which entries are asked for, and the term that they get.
    pub part: Part,
}

/// The row of a replica. Only memory can be refused (F1).
pub(crate) fn row(seg: u16, replica: &Replica) -> Result<Row, AllocError>
    ensures { IfOk result (λ row. row ≡ row_of_replica (seg, replica.now)) }
{
    let digest = replica.share_digest()?;
    Ok(Row {
        seg,
        epoch: replica.epoch(),
        closed: replica.is_closed(),
        len: replica.len(),
        digest,
    })
}

/// The answer to the master: the replica as it now is.
fn stored(seg: u16, replica: &Replica) -> Body
    ensures { result ≡ stored_of seg replica.now }
{
    Body::Stored {
        seg,
        epoch: replica.epoch(),
        len: replica.len(),
        closed: replica.is_closed(),
    }
}

/// Takes a Place, an Append or a Close of a replica that is there, and gives the answer. Only memory
/// can be refused (F1), and then the replica is as it was.
pub(crate) fn change(
    replica: &mut Replica,
    alloc: Global,
    seg: u16,
    body: &Body,
) -> Result<Option<Body>, AllocError>
    ensures state { OnOk result (replica.new ≡ unwrap_or (replica_after (Some replica.old) body.now) replica.old) }
    ensures answer { IfOk result (λ answer. answer ≡ stored_after seg (replica_after (Some replica.old) body.now)) }
    ensures err { OnErr result (replica.new ≡ replica.old) }
{
    match body {
        Body::Place {
            epoch,
            entries,
            closed,
            ..
        } => replica.place(alloc, *epoch, entries.as_slice(), *closed)?,
        Body::Append {
            offset,
            entries,
            ..
        } => replica.append(alloc, *offset, entries.as_slice())?,
        Body::Close { len, .. } => {
            replica.close(*len);
        }
        _ => return Ok(None),
    }
    Ok(Some(stored(seg, replica)))
}

/// Takes a Place, an Append or a Close of a segment that has no replica: a Place makes one, which is
/// answered, and the others do nothing. Only memory can be refused (F1), and then nothing has
/// changed.
pub(crate) fn place_first(
    replicas: &mut BTreeMap<u16, Replica>,
    alloc: Global,
    seg: u16,
    body: &Body,
) -> Result<Option<Body>, AllocError>
    ensures state { OnOk result (replicas.new.entries ≡
        put_after replicas.old.entries seg (replica_after None body.now)) }
    ensures answer { IfOk result (λ answer. answer ≡ stored_after seg (replica_after None body.now)) }
    ensures err { OnErr result (replicas.new.entries ≡ replicas.old.entries) }
{
    match body {
        Body::Place {
            epoch,
            digest,
            entries,
            closed,
            ..
        } => {
            let digest = digest.share()?;
            let entries = entries.try_clone(alloc)?.into_vec();
            let replica = Replica::new(*epoch, *closed, digest, entries);
            let answer = stored(seg, &replica);
            replicas.insert(seg, replica)?;
            Ok(Some(answer))
        }
        _ => Ok(None),
    }
}

/// Whether the entry has the part's previous term and lies in its range.
fn is_in_part(part: &Part, entry: &Entry) -> bool
    ensures { result ≡ is_in_part part.now entry.now }
{
    entry.term == part.previous && part.range.holds(entry.table, entry.key)
}

/// Copies of those entries that belong to the part, in their order. Only memory can be refused (F1).
fn entries_in_part(alloc: Global, part: &Part, entries: &[Entry]) -> Result<Seq<Entry>, AllocError>
    ensures { IfOk result (λ chosen. chosen ≡ filter (is_in_part part.now) entries.now) }
{
    let mut chosen = Vec::new(alloc);
    for entry in entries {
        if is_in_part(part, entry) {
            chosen.push(entry.try_clone(alloc)?)?;
        }
    }
    Ok(Seq::from_vec(chosen))
}

/// The answer to a Fetch, where the replica has as many entries as are asked for. Only memory can be
/// refused (F1).
pub(crate) fn data(
    alloc: Global,
    request: &Request,
    replica: &Replica,
) -> Result<Option<Body>, AllocError>
    ensures { IfOk result (λ answer. answer ≡
        data_from request.now.attempt request.now.seg request.now.len request.now.part (Some replica.now)) }
{
    let Some(first) = replica.entries().get(..request.len) else {
        return Ok(None);
    };
    let entries = entries_in_part(alloc, &request.part, first)?;
    Ok(Some(Body::Data {
        attempt: request.attempt,
        seg: request.seg,
        term: request.part.term,
        entries,
    }))
}
