//! Rows: what is asked, and what comes of it. Standard input has sections, each of one topic: of single parts, of nodes
//! and whole worlds, of command lines, and of the calls that `docs/CALLS.md` lists. What precedes the first row of a
//! section tells how its rows are written.
#![tactic(auto)]

mod calls;
mod command_lines;
mod lines;
mod nodes;
mod parts;
mod refused;
mod sections;

use lines::run;
use refused::again;
use sections::{Topic, titled};
use std::io;
use std::io::{ErrorKind, Read};
use std::sync::Wait;
use std::thread::Threads;

/// Answers the sections that standard input has, one after the other. Where memory is refused, a line `refused` goes to
/// standard error, and the same call is made once more. It fails where what is read is not UTF-8 or has a section of
/// another topic, a read or a write failed, or memory was refused twice.
fn main(rt: HostRuntime) -> io::Result<()> {
    let bytes = whole_input(&rt)?;
    let Ok(text) = str::from_utf8(bytes.as_slice()) else {
        return Err(ErrorKind::InvalidData.into());
    };
    for section in text.split("\n=== ").skip(1) {
        let (title, rows) = titled(section);
        let Some(topic) = Topic::named(title) else {
            rt.eprintln("a section of no known topic")?;
            return Err(ErrorKind::InvalidData.into());
        };
        println!(rt; "=== {title}")?;
        answer(&rt, topic, rows)?;
    }
    Ok(())
}

/// Answers the rows of a section.
fn answer<R: AllocGlobal + Eprint + Print + Threads + Wait + Sync>(
    rt: &R,
    topic: Topic,
    rows: &str,
) -> io::Result<()> {
    match topic {
        Topic::Parts => run(rt, &mut parts::Case::None, rows),
        Topic::Nodes => run(rt, &mut nodes::Case::None, rows),
        Topic::CommandLines => command_lines::run(rt, rows),
        Topic::Calls => run(rt, &mut calls::Calls::new(rt), rows),
    }
}

/// All of standard input.
fn whole_input<R: Input + Eprint + AllocGlobal>(rt: &R) -> io::Result<Vec<u8>> {
    let mut bytes = Vec::new(rt.alloc());
    let mut reader = rt.reader();
    let mut chunk = [0u8; 4096];
    for _ in 0..u64::MAX {
        let count = reader.read(&mut chunk)?;
        if count == 0 {
            break;
        }
        again!(rt; bytes.extend_from_slice(chunk.get(..count).unwrap_or(&[])));
    }
    Ok(bytes)
}
