//! From a seed to bytes: the power is cut after each event of a run that is drawn to reach much.

ghost use Rattle.std.specs.Prelude.{◌≡◌, ◌≢◌, ◌≤◌, ℕ, length, string_bytes, IfOk, Ok, Err};
ghost use Rattle.std.specs.Io.KnownBytes.{Keeps};
ghost use Rattle.rc_types.specs.declared.limits.TheConstants.{MAX_EVENTS};
ghost use Rattle.rc_world.specs.HostView.{IsWithinLimits};
ghost use Rattle.rc_sim.specs.declared.verdicts.SimFault.TheVariants.{Memory, Read as ReadFailed, Write as WriteFailed};
ghost use Rattle.rc_sim.specs.declared.verdicts.Verdict.TheVariants.{Breach};
ghost use Rattle.rc_sim.specs.Failures.{failed_writes};
ghost use Rattle.rc_sim.specs.Verdicts.{CutEach, PowersCut};
ghost use Rattle.rc_sim.specs.Written.{IsWritten, IsBegun};

use crate::answers::Answer;
use crate::counted::Counted;
use crate::drawing::cuts_answer;
use crate::simulating::write_answer;
use crate::surveying::drawn;
use crate::verdicts::{SimFault, Verdict};
use rc_study::Options;
use rc_types::{Event, Setup};
use std::alloc::{AllocError, Global};
use std::io::Write;

/// Draws events so that much happens, cuts the power after each of them, in three ways, and writes how often that was
/// done and in how many of these a breach was found, which is none.
///
/// It fails as `fuzz` does.
pub(crate) fn cut_explored<W: Write>(
    alloc: Global,
    options: &Options,
    writer: &mut Counted<W>,
) -> Result<Verdict, SimFault>
    ensures ok { IfOk result (λ verdict.
        IsWritten PowersCut verdict (W.contents writer.old.inner) (W.contents writer.new.inner)) }
    ensures cut_short { (count : ℕ) → result ≡ Err (WriteFailed count) →
        IsBegun PowersCut count (W.contents writer.old.inner) (W.contents writer.new.inner) }
    ensures nothing_without_memory { result ≡ Err Memory →
        Keeps (W.contents writer.old.inner) (W.contents writer.new.inner) }
    ensures writes { writer.new.failures ≡ failed_writes result writer.old.failures }
    ensures unread { result ≢ Err ReadFailed }
    ensures no_breach { result ≢ Ok Breach }
{
    let answer = explored_answer(alloc, options)?;
    write_answer(writer, &answer)
}

/// What is printed of such power failures.
fn explored_answer(alloc: Global, options: &Options) -> Result<Answer, AllocError>
    ensures ok { IfOk result (λ answer. PowersCut answer.verdict (string_bytes answer.text)) }
{
    let run = drawn(alloc, options)?;
    let setup = options.setup(alloc);
    events_answer(alloc, &setup, options.hosts, run.world().events())
}

/// What is printed of power failures after each of these events.
fn events_answer(
    alloc: Global,
    setup: &Setup,
    hosts: u8,
    events: &[Event],
) -> Result<Answer, AllocError>
    requires within { IsWithinLimits setup.now }
    requires few { length events.now ≤ MAX_EVENTS }
    ensures ok { IfOk result (λ answer. CutEach (length events.now) answer.verdict (string_bytes answer.text)) }
{
    match rc_runs::cut_each(alloc, setup, hosts, events) {
        Ok(breaches) => cuts_answer(alloc, 3 * events.len(), breaches),
        Err(_) => Err(AllocError),
    }
}
