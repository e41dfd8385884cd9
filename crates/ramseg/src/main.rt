//! The program `ramseg`: its words and its standard input, output and error go to `rc_sim::command`.
#![tactic(auto)]

use rc_sim::{Counted, command};
use std::io;
use std::io::{ErrorKind, Write};
use std::process::ExitCode;
use std::rt::Env;

/// What standard error says where memory was refused before the words were read.
const MEMORY: &str = "memory\n";

/// What standard error says where a word of the command line is not UTF-8.
const NOT_UTF_8: &str = "error: invalid UTF-8 was detected in one or more arguments

Usage: ramseg <COMMAND>

For more information, try '--help'.
";

fn main(rt: HostRuntime) -> ExitCode {
    let mut reader = Counted::new(rt.stdin());
    let mut writer = Counted::new(rt.stdout());
    let mut errors = Counted::new(rt.stderr());
    let status = match words(&rt) {
        Ok(words) => command(
            &rt,
            rt.alloc(),
            words.as_slice(),
            &mut reader,
            &mut writer,
            &mut errors,
        ),
        Err(error) if error.kind() == ErrorKind::OutOfMemory => told(MEMORY, 3, &mut errors),
        Err(_) => told(NOT_UTF_8, 2, &mut errors),
    };
    ExitCode::from(status)
}

/// The words after the program's name. Fails where memory was refused, and where one is not UTF-8.
fn words<R: Env + AllocGlobal>(rt: &R) -> io::Result<Vec<String>> {
    Ok(std::env::args(rt)?.skip(1).collect(rt.alloc())?)
}

/// Says this on standard error, where that can be written, and gives the status.
fn told<E: Write>(text: &str, status: u8, errors: &mut Counted<E>) -> u8 {
    let _ = errors.inner.write_all(text.as_bytes());
    status
}
