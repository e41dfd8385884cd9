//! From nodes on threads to bytes: what they did together is reported.

ghost use Rattle.std.specs.Prelude.{◌≡◌, ◌≢◌, ◌≤◌, ℕ, string_bytes, IfOk, Ok, Err};
ghost use Rattle.std.specs.Io.KnownBytes.{Keeps};
ghost use Rattle.rc_types.specs.declared.limits.TheConstants.{MAX_HOSTS};
ghost use Rattle.rc_sim.specs.declared.verdicts.SimFault.TheVariants.{Memory, Read as ReadFailed, Write as WriteFailed};
ghost use Rattle.rc_sim.specs.declared.verdicts.Verdict.TheVariants.{Breach};
ghost use Rattle.rc_sim.specs.Failures.{failed_writes};
ghost use Rattle.rc_sim.specs.Verdicts.{Threaded};
ghost use Rattle.rc_sim.specs.Written.{IsWritten, IsBegun};

use crate::answers::{Answer, ended, stopped};
use crate::counted::Counted;
use crate::simulating::write_answer;
use crate::verdicts::{Output, SimFault, Verdict};
use rc_types::Code;
use rc_wire::world_of_threads;
use std::alloc::{AllocError, Global};
use std::io::Write;
use std::sync::Wait;
use std::thread;

/// Runs the nodes of so many hosts, each on a thread of its own, with so many writes and a recovery, and writes the
/// report of the world in which all has happened that they did; and where a node could not take its next work (F18), a
/// last line that says so, with how many events had happened.
///
/// It fails as `fuzz` does: `Memory` also where a thread was refused.
pub fn threads<R: thread::Threads + Wait + Sync, W: Write>(
    rt: &R,
    alloc: Global,
    hosts: u8,
    writes: u32,
    writer: &mut Counted<W>,
) -> Result<Verdict, SimFault>
    requires { hosts ≤ MAX_HOSTS }
    ensures ok { IfOk result (λ verdict.
        IsWritten (Threaded hosts writes) verdict (W.contents writer.old.inner) (W.contents writer.new.inner)) }
    ensures cut_short { (count : ℕ) → result ≡ Err (WriteFailed count) →
        IsBegun (Threaded hosts writes) count (W.contents writer.old.inner) (W.contents writer.new.inner) }
    ensures nothing_without_memory { result ≡ Err Memory →
        Keeps (W.contents writer.old.inner) (W.contents writer.new.inner) }
    ensures writes { writer.new.failures ≡ failed_writes result writer.old.failures }
    ensures unread { result ≢ Err ReadFailed }
    ensures no_breach { result ≢ Ok Breach }
{
    let answer = threaded_answer(rt, alloc, hosts, writes)?;
    write_answer(writer, &answer)
}

/// What is written of such a run.
fn threaded_answer<R: thread::Threads + Wait + Sync>(
    rt: &R,
    alloc: Global,
    hosts: u8,
    writes: u32,
) -> Result<Answer, AllocError>
    requires { hosts ≤ MAX_HOSTS }
    ensures ok { IfOk result (λ answer. Threaded hosts writes answer.verdict (string_bytes answer.text)) }
{
    match world_of_threads(rt, alloc, hosts, writes) {
        Ok((world, true)) => ended(alloc, &world, Output::Report),
        Ok((world, false)) => {
            let place = world.events().len();
            stopped(alloc, &world, Output::Report, place, Code::BadEvent)
        }
        Err(_) => Err(AllocError),
    }
}
