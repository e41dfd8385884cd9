//! The events of a history: what clients ask for, and what they are told.

use rc_types::Shared;

/// What a client asks of a key.
#[derive(Drop)]
pub enum Request {
    /// To write this; `None` deletes.
    Write(Option<Shared<u8>>),
    /// To read it.
    Read,
}

/// An event of a history. Its moment is its number there, counted from 0.
#[derive(Drop)]
pub enum ClientEvent {
    /// A client asks: the invocation of an operation.
    Invoked {
        /// The table.
        table: u32,
        /// The key in it.
        key: u64,
        /// What is asked.
        request: Request,
    },
    /// The response to a write.
    Written {
        /// The moment of the invocation.
        invocation: usize,
        /// The version that the write got.
        version: u64,
    },
    /// The response to a read.
    Shown {
        /// The moment of the invocation.
        invocation: usize,
        /// The version of the key; 0 where nothing was written.
        version: u64,
        /// Its value; `None` where it was deleted, or there is none.
        value: Option<Shared<u8>>,
    },
    /// The operation was refused: it never takes place.
    Failed {
        /// The moment of the invocation.
        invocation: usize,
    },
}
