//! What comes of a row, and how it is printed.

use crate::command_lines::rows::{Inputs, Row};
use crate::command_lines::streams::{Sink, Source};
use crate::refused::again;
use rc_sim::{Counted, command};
use std::alloc::AllocError;
use std::io;
use std::sync::Wait;
use std::thread::Threads;

/// So many bytes of output need no memory while they are written.
const EXPECTED: usize = 8_192;

/// The status of a program that found no memory.
const NO_MEMORY: u8 = 3;

/// The status of a program that could not read or write.
const FAILED: u8 = 4;

/// What came of a command line.
#[derive(Drop)]
struct Outcome {
    status: u8,
    output: Vec<u8>,
    errors: Vec<u8>,
}

impl Outcome {
    /// That of the row's command line, on this input.
    fn of<R: AllocGlobal + Threads + Wait + Sync>(
        rt: &R,
        row: &Row<'_>,
        input: &[u8],
    ) -> Result<Outcome, AllocError> {
        let alloc = rt.alloc();
        let words = row.words(alloc)?;
        let mut reader = Counted::new(Source {
            bytes: input,
            gives: row.gives,
            fails: row.fails,
        });
        let mut writer = Counted::new(Sink {
            taken: Vec::with_capacity(alloc, EXPECTED)?,
            takes: row.takes,
            room: row.room,
        });
        let mut errors = Counted::new(Vec::with_capacity(alloc, EXPECTED)?);
        let status = command(
            rt,
            alloc,
            words.as_slice(),
            &mut reader,
            &mut writer,
            &mut errors,
        );
        Ok(Outcome {
            status,
            output: writer.inner.taken,
            errors: errors.inner,
        })
    }

    /// Whether the other one has the same status and the same output. What standard error says of a fault names its
    /// place, and so differs from input to input.
    fn is_like(&self, other: &Outcome) -> bool {
        self.status == other.status && self.output.as_slice() == other.output.as_slice()
    }

    /// Whether memory was refused, for what it does or for what it tells of a fault.
    fn lacked_memory(&self) -> bool {
        self.status == NO_MEMORY || self.errors.as_slice() == b"memory\n".as_slice()
    }

    /// Whether the writer failed after so many bytes, and took just the first ones of this output.
    fn failed_after(&self, room: usize, output: &[u8]) -> bool {
        self.status == FAILED
            && output.get(..room) == Some(self.output.as_slice())
            && self.written() == Some(room)
    }

    /// How many bytes were written, as standard error tells it.
    fn written(&self) -> Option<usize> {
        let told = str::from_utf8(self.errors.as_slice()).ok()?;
        told.strip_prefix("write ")?
            .strip_suffix("\n")?
            .parse()
            .ok()
    }

    /// Prints it; or its status and the last line alone.
    fn print<R: Print>(&self, rt: &R, only_end: bool) -> io::Result<()> {
        println!(rt; "status {}", self.status)?;
        if only_end {
            rt.write_all(last_line(self.output.as_slice()))?;
            return println!(rt);
        }
        rt.write_all(self.output.as_slice())?;
        println!(rt)?;
        if !self.errors.is_empty() {
            println!(rt; "-- on standard error:")?;
            rt.write_all(self.errors.as_slice())?;
            println!(rt)?;
        }
        Ok(())
    }
}

/// The last line, with its line feed.
fn last_line(text: &[u8]) -> &[u8] {
    let front = text.strip_suffix(b"\n").unwrap_or(text);
    match front.iter().rposition(|byte| *byte == b'\n') {
        Some(place) => text.get(place + 1..).unwrap_or(text),
        None => text,
    }
}

/// The runs of a row's command line.
#[derive(Drop)]
struct Runs<'a> {
    row: &'a Row<'a>,
    count: usize,
    last: Option<Outcome>,
}

impl Runs<'_> {
    /// Runs the command line on this input. Prints what comes of it, where it is not what came of the last one.
    fn add<R: Print + Eprint + AllocGlobal + Threads + Wait + Sync>(
        &mut self,
        rt: &R,
        input: &[u8],
    ) -> io::Result<()> {
        let outcome = final_outcome(rt, self.row, input)?;
        let is_known = match &self.last {
            Some(last) => outcome.is_like(last),
            None => false,
        };
        if !is_known {
            if self.count > 0 {
                println!(rt; "-- from input {} on:", self.count)?;
            }
            outcome.print(rt, self.row.shows_end)?;
        }
        self.last = Some(outcome);
        self.count = self.count.saturating_add(1);
        Ok(())
    }

    /// Runs it with a writer that fails after no bytes, after one, and so on, up to one less than it wrote. Prints how
    /// many of these took just what they had room for.
    fn cut<R: Print + Eprint + AllocGlobal + Threads + Wait + Sync>(
        &self,
        rt: &R,
        input: &[u8],
    ) -> io::Result<()> {
        let whole = match &self.last {
            Some(last) => last.output.as_slice(),
            None => &[],
        };
        let mut count = 0usize;
        for room in 0..whole.len() {
            let outcome = final_outcome(rt, &self.row.with_room(room), input)?;
            count = count.saturating_add(usize::from(outcome.failed_after(room, whole)));
        }
        println!(rt;
            "-- {count} writers of {} took what they had room for\n",
            whole.len()
        )
    }
}

/// Prints what comes of a row.
pub fn show<R: Print + Eprint + AllocGlobal + Threads + Wait + Sync>(
    rt: &R,
    row: &Row<'_>,
) -> io::Result<()> {
    println!(rt; "== {}", row.title)?;
    let input = again!(rt; row.input(rt.alloc()));
    let mut runs = Runs {
        row,
        count: 0,
        last: None,
    };
    match row.inputs {
        Inputs::Whole => return runs.add(rt, input.as_slice()),
        Inputs::Fronts => {
            for length in 0..=input.len() {
                runs.add(rt, input.get(..length).unwrap_or(&[]))?;
            }
        }
        Inputs::Lines => {
            for line in input.split(|byte| *byte == b'\n') {
                runs.add(rt, line)?;
            }
        }
        Inputs::Rooms => {
            runs.add(rt, input.as_slice())?;
            return runs.cut(rt, input.as_slice());
        }
    }
    println!(rt; "-- {} inputs\n", runs.count)
}

/// What comes of a row on this input. Where memory was refused, that is told, and the row is run once more.
fn final_outcome<R: Eprint + AllocGlobal + Threads + Wait + Sync>(
    rt: &R,
    row: &Row<'_>,
    input: &[u8],
) -> io::Result<Outcome> {
    match Outcome::of(rt, row, input) {
        Ok(outcome) if !outcome.lacked_memory() => Ok(outcome),
        _ => {
            rt.eprintln("refused")?;
            Ok(Outcome::of(rt, row, input)?)
        }
    }
}
