//! The whole program, on the words of its command line.

ghost use Rattle.std.specs.Prelude.{◌≡◌, ◌≢◌, ◌≤◌, ℕ, Some, None, Ok, Err, IfOk, map, string_bytes};
ghost use Rattle.rc_commands.specs.declared.asking.Asked.{Asked as AskedModel};
ghost use Rattle.rc_commands.specs.declared.asking.Asked.TheVariants.{Audit, Check};
ghost use Rattle.rc_commands.specs.Asking.{IsInRange, as_command, asked_in};
ghost use Rattle.rc_sim.specs.declared.verdicts.Output.TheVariants.{Report};
ghost use Rattle.rc_sim.specs.declared.verdicts.SimFault.TheVariants.{Memory, Read as ReadFailed, Write as WriteFailed};
ghost use Rattle.rc_sim.specs.declared.verdicts.Verdict.TheVariants.{Breach, Wrong};
ghost use Rattle.rc_sim.specs.Failures.{OneFailed, failed_reads, failed_writes};
ghost use Rattle.rc_sim.specs.Statuses.{fault_status, outcome_status, Answered, ComesOf, Does};
ghost use Rattle.rc_sim.specs.Verdicts.{Played, Told};
ghost use Rattle.rc_sim.specs.Written.{IsWritten, IsBegun};

use crate::counted::Counted;
use crate::cutting::cut_explored;
use crate::drawing::{cut_powers, fuzz};
use crate::exploring::explore;
use crate::healing::heal;
use crate::histories::weigh_history;
use crate::narrating::{Telling, narrate};
use crate::outlets::write_all;
use crate::playing::{play, weigh};
use crate::seeking::{Search, seek};
use crate::shrinking::shrink;
use crate::surveying::survey;
use crate::threading::threads;
use crate::verdicts::{Output, SimFault, Verdict};
use linked_list_allocator::LocalHeap;
use rc_commands::{Asked, Drawing, asked_for};
use rc_study::Options;
use std::alloc::Global;
use std::io::{Read, Write};
use std::sync::Wait;
use std::thread;

/// Does what the words after the program's name ask for, and gives the exit status: 0 where all is
/// well, 1 where an audit found a breach or a history is not linearizable, 2 for a wrong command line, scenario,
/// trace or history, for an event that was not possible, and where `shrink` finds no line to keep, 3 where memory was
/// refused, 4 where a read or a write failed.
///
/// `run` and `trace` run the scenario that the reader gives (see [`simulate`](crate::simulate)), `log` tells its story,
/// `history` what its clients saw, `heal` adds what brings its tablets back, `shrink` leaves out of it what it can,
/// `audit` judges the trace that it gives, `check` the history; `fuzz`, `stops`, `threads` and `explore` read nothing.
/// Help and the version go to the writer. What is wrong with the command line, and the line of a fault (`memory`,
/// `read`, `write N`), go to `errors`; where that can not be written, the status alone tells. Only `threads` starts
/// threads and waits.
pub fn command<H: thread::Threads + Wait + Sync, R: Read, W: Write, E: Write>(
    rt: &H,
    alloc: Global,
    words: &[String],
    reader: &mut Counted<R>,
    writer: &mut Counted<W>,
    errors: &mut Counted<E>,
) -> u8
    ensures does { (asked : AskedModel) → asked_in (map string_bytes words.now) ≡ Some asked
        → Does asked result (R.remaining reader.old.inner) (W.contents writer.old.inner) (W.contents writer.new.inner) }
    ensures unread { asked_in (map string_bytes words.now) ≡ None → reader.new ≡ reader.old }
    ensures known { result ≤ 4 }

    // status 4 tells that the reader or the writer failed in this very call, and each other status that neither did
    ensures failed { result ≡ 4
        → OneFailed reader.old.failures reader.new.failures writer.old.failures writer.new.failures }
    ensures unfailed { result ≢ 4
        → (reader.new.failures ≡ reader.old.failures) × (writer.new.failures ≡ writer.old.failures) }

    // a breach is told of a trace or a history alone that was given: no run has one, no drawing, no nodes on threads
    ensures no_breach { asked_in (map string_bytes words.now) ≢ Some Audit →
        asked_in (map string_bytes words.now) ≢ Some Check → result ≢ 1 }
{
    match asked_for(alloc, words) {
        Ok(asked) => {
            let outcome = done(rt, alloc, asked, reader, writer, errors);
            ended(outcome, errors)
        }
        Err(_) => failed(&SimFault::Memory, errors),
    }
}

/// Does what was asked for: what came of it.
fn done<H: thread::Threads + Wait + Sync, R: Read, W: Write, E: Write>(
    rt: &H,
    alloc: Global,
    asked: Asked,
    reader: &mut Counted<R>,
    writer: &mut Counted<W>,
    errors: &mut Counted<E>,
) -> Result<Verdict, SimFault>
    requires { IsInRange asked }
    ensures answered { Answered (ComesOf asked) result (R.remaining reader.old.inner) (W.contents writer.old.inner)
        (W.contents writer.new.inner) }
    ensures unread { as_command asked ≡ None → reader.new ≡ reader.old }
    ensures reads { reader.new.failures ≡ failed_reads result reader.old.failures }
    ensures writes { writer.new.failures ≡ failed_writes result writer.old.failures }
    ensures no_breach { asked ≢ Audit → asked ≢ Check → result ≢ Ok Breach }
{
    match asked {
        Asked::Run { heap } => run(alloc, heap, reader, writer, errors),
        Asked::Trace => play(alloc, alloc, Output::Trace, reader, writer, errors),
        Asked::Audit => weigh(alloc, reader, writer),
        Asked::History => narrate(alloc, Telling::History, reader, writer),
        Asked::Check => weigh_history(alloc, reader, writer),
        Asked::Fuzz { seed, steps, free } => fuzz(alloc, seed, steps as usize, free, writer),
        Asked::Stops { seed, steps } => cut_powers(alloc, seed, steps as usize, writer),
        Asked::StopsExplored { drawing } => {
            let options = options_of(&drawing);
            cut_explored(alloc, &options, writer)
        }
        Asked::Threads { hosts, writes } => threads(rt, alloc, hosts, writes, writer),
        Asked::Explore {
            drawing,
            save,
            progress,
        } => {
            let options = options_of(&drawing);
            explore(alloc, &options, save, progress, writer, errors)
        }
        Asked::Survey {
            drawing,
            last,
            progress,
        } => {
            let options = options_of(&drawing);
            survey(alloc, &options, last, progress, writer, errors)
        }
        Asked::Until {
            goal,
            drawing,
            last,
            save,
            progress,
        } => {
            let options = options_of(&drawing);
            let search = Search {
                goal,
                last,
                save,
                progress,
            };
            seek(alloc, &options, &search, writer, errors)
        }
        Asked::Shrink { keep } => shrink(alloc, keep.as_slice(), reader, writer),
        Asked::Log => narrate(alloc, Telling::Json, reader, writer),
        Asked::Heal { power_cycle } => heal(alloc, power_cycle, reader, writer, errors),
        Asked::Tell(text) => tell(text.as_str(), writer),
        Asked::Wrong(text) => Ok(refused(text.as_str(), errors)),
    }
}

/// What a run is drawn with, as it was asked for.
fn options_of(drawing: &Drawing) -> Options
    ensures same { (result.seed ≡ drawing.now.seed) × (result.steps ≡ drawing.now.steps)
        × (result.hosts ≡ drawing.now.hosts) × (result.factor ≡ drawing.now.factor)
        × (result.segment ≡ drawing.now.segment) × (result.free ≡ drawing.now.free) }
{
    Options {
        seed: drawing.seed,
        steps: drawing.steps as usize,
        hosts: drawing.hosts,
        factor: drawing.factor,
        segment: drawing.segment,
        free: drawing.free,
    }
}

/// Simulates the scenario that the reader gives; where a heap is asked for, with the tablets in one of so
/// many bytes.
fn run<R: Read, W: Write, E: Write>(
    alloc: Global,
    heap: Option<usize>,
    reader: &mut Counted<R>,
    writer: &mut Counted<W>,
    errors: &mut Counted<E>,
) -> Result<Verdict, SimFault>
    ensures answered { Answered (Played Report) result (R.remaining reader.old.inner) (W.contents writer.old.inner)
        (W.contents writer.new.inner) }
    ensures reads { reader.new.failures ≡ failed_reads result reader.old.failures }
    ensures writes { writer.new.failures ≡ failed_writes result writer.old.failures }
    ensures no_breach { result ≢ Ok Breach }
{
    let Some(bytes) = heap else {
        return play(alloc, alloc, Output::Report, reader, writer, errors);
    };
    match LocalHeap::new(alloc, bytes) {
        Ok(heap) => play(alloc, &heap, Output::Report, reader, writer, errors),
        Err(_) => Err(SimFault::Memory),
    }
}

/// Writes a text: help, or the version.
fn tell<W: Write>(text: &str, writer: &mut Counted<W>) -> Result<Verdict, SimFault>
    ensures ok { IfOk result (λ verdict.
        IsWritten Told verdict (W.contents writer.old.inner) (W.contents writer.new.inner)) }
    ensures cut_short { (count : ℕ) → result ≡ Err (WriteFailed count) →
        IsBegun Told count (W.contents writer.old.inner) (W.contents writer.new.inner) }
    ensures writes { writer.new.failures ≡ failed_writes result writer.old.failures }
    ensures fault { (result ≢ Err Memory) × (result ≢ Err ReadFailed) }
    ensures no_breach { result ≢ Ok Breach }
{
    match write_all(writer, text.as_bytes()) {
        Ok(()) => Ok(Verdict::Clean),
        Err(fault) => Err(fault),
    }
}

/// Writes what is wrong with the command line.
fn refused<E: Write>(text: &str, errors: &mut Counted<E>) -> Verdict
    ensures { result ≡ Wrong }
{
    let _ = write_all(errors, text.as_bytes());
    Verdict::Wrong
}

/// The status of what came of the words; a fault is told.
fn ended<E: Write>(outcome: Result<Verdict, SimFault>, errors: &mut Counted<E>) -> u8
    ensures { result ≡ outcome_status outcome }
{
    match outcome {
        Ok(verdict) => verdict.status(),
        Err(fault) => failed(&fault, errors),
    }
}

/// Tells of a fault.
fn failed<E: Write>(fault: &SimFault, errors: &mut Counted<E>) -> u8
    ensures { result ≡ fault_status fault.now }
{
    let _ = writeln!(errors.inner, "{fault}");
    fault.status()
}
