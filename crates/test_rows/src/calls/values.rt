//! What the calls are given.

use rc_types::{Addr, Body, Entry, Fault, KeyRange, Message, Seq, ServerId, Setup, Shared};
use std::alloc::{AllocError, Global};

/// The first server of host 0.
pub const OWNER: ServerId = ServerId {
    index: 0,
    generation: 1,
};

/// The first server of host 1.
pub const OTHER: ServerId = ServerId {
    index: 1,
    generation: 1,
};

/// The first server of host 2.
pub const THIRD: ServerId = ServerId {
    index: 2,
    generation: 1,
};

/// The table of all entries.
pub const TABLE: u32 = 7;

/// The key of all entries.
pub const KEY: u64 = 5;

/// A range with that key.
pub const RANGE: KeyRange = KeyRange {
    table: TABLE,
    lo: 0,
    hi: 8,
};

/// A value of one byte.
pub fn value(alloc: Global) -> Result<Shared<u8>, AllocError> {
    Shared::from_vec(alloc, vec![in alloc; b'a']?)
}

/// An entry of that key, of term 1 and version 1.
pub fn entry(alloc: Global) -> Result<Entry, AllocError> {
    Ok(Entry {
        term: 1,
        table: TABLE,
        key: KEY,
        version: 1,
        value: Some(value(alloc)?),
    })
}

/// A list of that entry.
pub fn entries(alloc: Global) -> Result<Vec<Entry>, AllocError> {
    Ok(vec![in alloc; entry(alloc)?]?)
}

/// The digest of the first segment.
pub fn digest(alloc: Global) -> Result<Shared<u16>, AllocError> {
    Shared::from_vec(alloc, vec![in alloc; 1u16]?)
}

/// A Place of the owner's first segment, with one entry, for the other server.
pub fn place(alloc: Global) -> Result<Message, Fault> {
    Ok(Message {
        from: Addr::Server(OWNER),
        to: Addr::Server(OTHER),
        body: Body::Place {
            seg: 1,
            epoch: 0,
            closed: false,
            digest: digest(alloc)?,
            entries: Seq::from_vec(entries(alloc)?),
        },
    })
}

/// A Gather for the owner's replicas, for the other server.
pub fn gather() -> Message {
    Message {
        from: Addr::Coordinator,
        to: Addr::Server(OTHER),
        body: Body::Gather {
            attempt: 1,
            master: OWNER,
        },
    }
}
