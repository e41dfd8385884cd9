//! Command lines of `ramseg`: a row says what the command reads and what the writer takes, and is answered with the
//! status and what was written.

mod outcomes;
mod rows;
mod streams;

use outcomes::show;
use rows::Row;
use std::io;
use std::sync::Wait;
use std::thread::Threads;

/// Runs the rows one after the other, and prints what comes of each. Where memory is refused, a line `refused` goes to
/// standard error, and the same call is made once more.
///
/// # Errors
///
/// A write failed, or memory was refused twice.
pub fn run<R: Print + Eprint + AllocGlobal + Threads + Wait + Sync>(
    rt: &R,
    text: &str,
) -> io::Result<()> {
    let rows = text.strip_suffix('\n').unwrap_or(text);
    for row in rows.split("\n== ").skip(1) {
        show(rt, &Row::of(row))?;
    }
    Ok(())
}
