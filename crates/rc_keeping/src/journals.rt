//! A journal: a record for each work.

ghost use Rattle.std.specs.Prelude.{◌≡◌, ◌++◌, [], IfOk, OnOk, OnErr};
ghost use Rattle.rc_keeping.specs.Spelling.{record_of};
ghost use Rattle.rc_keeping.specs.Claims.{AreReadFrom};

use crate::records::{put_sealed, take_record};
use crate::works::encode_work;
use rc_codec::DecodeFault;
use rc_types::NodeWork;
use std::alloc::{AllocError, Global};

/// How many bytes of a work are coded before the room for them grows.
const ROOM: usize = 256;

/// Adds the record of a work at the end of a journal. That it is safe there is for whoever keeps the journal.
///
/// # Errors
///
/// Memory was refused; the journal is as before.
pub fn write_down(alloc: Global, work: &NodeWork, journal: &mut Vec<u8>) -> Result<(), AllocError>
    ensures ok { OnOk result (journal.new.items ≡ journal.old.items ++ record_of work.now) }
    ensures err { OnErr result (journal.new.items ≡ journal.old.items) }
{
    let mut code = Vec::with_capacity(alloc, ROOM)?;
    encode_work(work, &mut code)?;
    put_sealed(code.as_slice(), journal)
}

/// The works that a journal has up to the first record that is damaged or cut short, and how many bytes these take.
/// What follows them is no record, so whoever goes on writing has to cut it off first.
///
/// # Errors
///
/// Memory was refused.
pub fn read_back(alloc: Global, journal: &[u8]) -> Result<(Vec<NodeWork>, usize), AllocError>
    ensures { IfOk result (λ found. AreReadFrom journal.now found.0.items found.1) }
{
    let mut works = Vec::new(alloc);
    let good = read_into(alloc, journal, &mut works)?;
    Ok((works, good))
}

/// Adds the works to a list, which is given empty; and says how many bytes they take.
fn read_into(alloc: Global, journal: &[u8], works: &mut Vec<NodeWork>) -> Result<usize, AllocError>
    requires { works.old.items ≡ [] }
    ensures { IfOk result (λ good. AreReadFrom journal.now works.new.items good) }
{
    let mut rest = journal;
    loop {
        match take_record(alloc, rest) {
            Ok((work, after)) => {
                works.push(work)?;
                rest = after;
            }
            Err(DecodeFault::Malformed) => return Ok(journal.len() - rest.len()),
            Err(DecodeFault::OutOfMemory) => return Err(AllocError),
        }
    }
}
