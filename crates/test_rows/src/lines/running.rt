//! Reads lines, and answers each.

use crate::lines::{Numbers, Page};
use crate::refused::again;
use rc_types::Fault;
use std::alloc::{AllocError, Global};
use std::io;
use std::io::ErrorKind;

/// What a line is answered with.
#[derive(Drop)]
pub struct Desk {
    /// Where memory is taken from.
    pub alloc: Global,
    /// The numbers of the line.
    pub numbers: Numbers,
    /// The answer.
    pub page: Page,
}

impl Desk {
    /// One with all the memory that the answers take.
    fn new(alloc: Global) -> Result<Desk, AllocError> {
        Ok(Desk {
            alloc,
            numbers: Numbers::new(alloc)?,
            page: Page::new(alloc)?,
        })
    }
}

/// Whoever answers commands.
pub trait Commands {
    /// Answers a command with its numbers on the page.
    ///
    /// # Errors
    ///
    /// Memory was refused. Then the same command is given once more, with its numbers and an empty page, and has to
    /// answer as if nothing had been refused.
    fn take(&mut self, command: &str, desk: &mut Desk) -> Result<(), Fault>;
}

/// Answers each line: writes the line, and its answer behind it. Empty lines and lines that begin with `#` are written
/// as they are. Where memory is refused, a line `refused` goes to standard error.
///
/// # Errors
///
/// A write failed, or memory was refused twice.
pub fn run<R: AllocGlobal + Eprint + Print, C: Commands>(
    rt: &R,
    commands: &mut C,
    rows: &str,
) -> io::Result<()> {
    let mut desk = again!(rt; Desk::new(rt.alloc()));
    for line in rows.lines() {
        print!(rt; "{line}")?;
        if let Some(command) = command_of(line) {
            answer(rt, commands, command, line, &mut desk)?;
        }
        println!(rt; "")?;
    }
    Ok(())
}

/// The command of a line: its first word, where that is no comment.
fn command_of(line: &str) -> Option<&str> {
    if line.starts_with('#') {
        return None;
    }
    line.split_whitespace().next()
}

/// Answers a command, which is given again where memory is refused.
fn answer<R: AllocGlobal + Eprint + Print, C: Commands>(
    rt: &R,
    commands: &mut C,
    command: &str,
    line: &str,
    desk: &mut Desk,
) -> io::Result<()> {
    desk.numbers.read(line)?;
    desk.page.clear();
    if commands.take(command, desk).is_err() {
        eprintln!(rt; "refused")?;
        desk.numbers.rewind();
        desk.page.clear();
        if commands.take(command, desk).is_err() {
            return Err(ErrorKind::OutOfMemory.into());
        }
    }
    match desk.page.text() {
        Some(text) => print!(rt; "{text}"),
        None => Err(ErrorKind::OutOfMemory.into()),
    }
}
