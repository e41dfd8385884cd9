//! Acknowledged writes, as the messages tell of them.

ghost use Rattle.std.specs.Prelude.{◌≡◌};
ghost use Rattle.std.specs.Option.{option_map, option_to_list};
ghost use Rattle.rc_types.specs.declared.ids.ServerId.{ServerId};
ghost use Rattle.rc_model.specs.Recovered.{ack_in};
ghost use Rattle.rc_model.specs.Breach.{agrees};
ghost use Rattle.rc_audit.specs.Highs.{ack_key};
ghost use Rattle.rc_audit.specs.Writes.{ack_of, acks_from, acks_by};

use crate::highs::TermKey;
use rc_types::{Addr, Body, Entry, Message, ServerId};

/// An acknowledged write: its place in its master's log, and what was written.
#[derive(Clone, Copy)]
pub struct AckedWrite {
    /// The segment.
    pub seg: u16,
    /// The offset in the segment, in entries.
    pub offset: usize,
    /// The term.
    pub term: u32,
    /// The table.
    pub table: u32,
    /// The key.
    pub key: u64,
    /// The version.
    pub version: u64,
}

impl AckedWrite {
    /// The key, under its term.
    pub fn term_key(self) -> TermKey
        ensures { result ≡ ack_key (ack_of self) }
    {
        TermKey {
            term: self.term,
            table: self.table,
            key: self.key,
        }
    }

    /// Whether the entry is of this term, table, key and version.
    pub(crate) fn agrees(self, entry: &Entry) -> bool
        ensures { result ≡ agrees (ack_of self) entry.now }
    {
        entry.term == self.term
            && entry.table == self.table
            && entry.key == self.key
            && entry.version == self.version
    }
}

/// The write that this message body acknowledges, if it does.
pub fn write_in(body: &Body) -> Option<AckedWrite>
    ensures { option_to_list (option_map ack_of result) ≡ ack_in body.now }
{
    match body {
        Body::WriteOk {
            seg,
            offset,
            term,
            table,
            key,
            version,
        } => Some(AckedWrite {
            seg: *seg,
            offset: *offset,
            term: *term,
            table: *table,
            key: *key,
            version: *version,
        }),
        _ => None,
    }
}

/// The write that a server acknowledges by this message, if it does, with the server.
pub(crate) fn acked_in(message: &Message) -> Option<(ServerId, AckedWrite)>
    ensures { (m : ServerId) → acks_by result m ≡ acks_from message.now m }
{
    let Addr::Server(master) = message.from else {
        return None;
    };
    Some((master, write_in(&message.body)?))
}
