//! What a judge of a list of messages can find.

use crate::ids::ServerId;
use std::fmt;

/// A breach of the headline in a list of messages.
#[derive(Clone, Copy)]
pub enum Breach {
    /// A write that the plan's master has acknowledged is not in the recovered log, neither at its place
    /// nor by a greater version of its key under its term; or another entry was sent for its place.
    Missing {
        /// The attempt of the plan.
        attempt: u32,
        /// The master that the plan recovers.
        master: ServerId,
        /// The segment of the acknowledged write.
        seg: u16,
        /// Its place there, in entries.
        offset: usize,
    },
    /// A place of the recovered log holds what its master never sent there, or sent in two ways.
    Invented {
        /// The attempt of the plan.
        attempt: u32,
        /// The master that the plan recovers.
        master: ServerId,
        /// The segment of the recovered log.
        seg: u16,
        /// The place there, in entries.
        offset: usize,
    },
    /// A write acknowledged under a later ownership has no greater version than one acknowledged
    /// under an earlier one.
    Version {
        /// The table.
        table: u32,
        /// The key in it.
        key: u64,
        /// The term of the earlier ownership.
        earlier_term: u32,
        /// The version acknowledged under it.
        earlier_version: u64,
        /// The term of the later ownership.
        later_term: u32,
        /// The version acknowledged under that one.
        later_version: u64,
    },
}

impl fmt::Display for Breach {
    fn fmt<W: fmt::Write>(&self, f: &mut fmt::Formatter<W>) -> fmt::Result {
        match self {
            Breach::Missing {
                attempt,
                master,
                seg,
                offset,
            } => write!(
                f,
                "breach missing attempt {attempt} of {master} seg {seg} at {offset}"
            ),
            Breach::Invented {
                attempt,
                master,
                seg,
                offset,
            } => write!(
                f,
                "breach invented attempt {attempt} of {master} seg {seg} at {offset}"
            ),
            Breach::Version {
                table,
                key,
                earlier_term,
                earlier_version,
                later_term,
                later_version,
            } => {
                write!(
                    f,
                    "breach version table {table} key {key} term {earlier_term}"
                )?;
                write!(
                    f,
                    " version {earlier_version} term {later_term} version {later_version}"
                )
            }
        }
    }
}
