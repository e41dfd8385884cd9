//! What is answered to the bytes of a scenario or of a trace.

ghost use Rattle.std.specs.Prelude.{◌≡◌, [], ◌++◌, string_bytes, Ok, IfOk};
ghost use Rattle.rc_model.specs.Breach.{breach};
ghost use Rattle.rc_model.specs.Report.{report};
ghost use Rattle.rc_world.specs.Happened.{sent_in};
ghost use Rattle.rc_world.specs.HostView.{IsWithinLimits};
ghost use Rattle.rc_traces.specs.Ends.{error_line};
ghost use Rattle.rc_reading.specs.Scenario.{reading};
ghost use Rattle.rc_sim.specs.declared.verdicts.Verdict.TheVariants.{Bad, Stopped};
ghost use Rattle.rc_sim.specs.Verdicts.{audited, verdict_of, printed_of, last_line, Comes, Judged};

use crate::counted::Counted;
use crate::scales::Scales;
use crate::verdicts::{Output, Verdict};
use rc_audit::audit;
use rc_reading::{ReadFault, Scenario, read_scenario};
use rc_runs::Run;
use rc_traces::{Finding, add_stopped, error_text, report_of, write_trace};
use rc_types::{Code, Message};
use rc_world::World;
use std::alloc::{AllocError, Allocator, Global};
use std::io::Write;

/// What is answered, and what is printed.
#[derive(Drop)]
pub struct Answer {
    pub(crate) verdict: Verdict,
    pub(crate) text: String,
}

impl Answer {
    /// This text, and this verdict.
    pub(crate) fn of(verdict: Verdict, text: String) -> Answer
        ensures verdict { result.verdict ≡ verdict }
        ensures text { result.text ≡ text }
    {
        Answer { verdict, text }
    }

    /// No text, and this verdict.
    pub(crate) fn nothing(alloc: Global, verdict: Verdict) -> Answer
        ensures verdict { result.verdict ≡ verdict }
        ensures text { string_bytes result.text ≡ [] }
    {
        Answer::of(verdict, String::new(alloc))
    }
}

/// The answer to these bytes as a scenario. The run's tablets lie in memory of the second allocator. It
/// fails only where memory was refused outside a step of the run. `errors` is told where its messages take much memory.
pub(crate) fn answer_to<E: Write, A: Allocator + Clone>(
    alloc: Global,
    bytes: &[u8],
    tablets: A,
    output: Output,
    errors: &mut Counted<E>,
) -> Result<Answer, AllocError>
    ensures ok { IfOk result (λ answer. Comes output (reading bytes.now) answer.verdict (string_bytes answer.text)) }
{
    match read_scenario(alloc, bytes) {
        Ok(scenario) => played(alloc, scenario, tablets, output, errors),
        Err(ReadFault::OutOfMemory) => Err(AllocError),
        Err(ReadFault::BadInput(place)) => bad(alloc, place),
    }
}

/// The answer to a scenario.
fn played<E: Write, A: Allocator + Clone>(
    alloc: Global,
    scenario: Scenario,
    tablets: A,
    output: Output,
    errors: &mut Counted<E>,
) -> Result<Answer, AllocError>
    requires { IsWithinLimits scenario.setup }
    ensures ok { IfOk result (λ answer. Comes output (Ok scenario) answer.verdict (string_bytes answer.text)) }
{
    let Scenario { setup, events } = scenario;
    let mut run = Run::new(alloc, setup, tablets);
    match run.play_all(alloc, events.as_slice(), &mut Scales::new(errors)) {
        Ok(()) => {
            let world = run.world();
            ended(alloc, world, output)
        }
        Err((place, fault)) => stopped(alloc, run.world(), output, place, fault.code()),
    }
}

/// The answer to a run whose events have all happened.
pub(crate) fn ended<A: Allocator + Clone>(
    alloc: Global,
    world: &World<A>,
    output: Output,
) -> Result<Answer, AllocError>
    ensures verdict { IfOk result (λ answer. answer.verdict ≡ verdict_of output (sent_in world.now)) }
    ensures text { IfOk result (λ answer. string_bytes answer.text ≡ printed_of output (sent_in world.now)) }
{
    match output {
        Output::Report => reported(alloc, world.sent()),
        Output::Trace => traced(alloc, world.sent()),
    }
}

/// The answer with a report of these messages.
fn reported(alloc: Global, sent: &[Message]) -> Result<Answer, AllocError>
    ensures verdict { IfOk result (λ answer. answer.verdict ≡ audited (breach sent.now)) }
    ensures text { IfOk result (λ answer. string_bytes answer.text ≡ report sent.now) }
{
    let found = audit(alloc, sent)?;
    let text = report_of(alloc, sent, found)?;
    let verdict = match found {
        None => Verdict::Clean,
        Some(_) => Verdict::Breach,
    };
    Ok(Answer::of(verdict, text))
}

/// The answer with a trace of these messages.
fn traced(alloc: Global, sent: &[Message]) -> Result<Answer, AllocError>
    ensures verdict { IfOk result (λ answer. answer.verdict ≡ verdict_of Output.Trace sent.now) }
    ensures text { IfOk result (λ answer. string_bytes answer.text ≡ printed_of Output.Trace sent.now) }
{
    let text = write_trace(alloc, sent)?;
    Ok(Answer::of(Verdict::Clean, text))
}

/// The answer to a run that stopped at this event.
pub(crate) fn stopped<A: Allocator + Clone>(
    alloc: Global,
    world: &World<A>,
    output: Output,
    place: usize,
    code: Code,
) -> Result<Answer, AllocError>
    ensures verdict { IfOk result (λ answer. answer.verdict ≡ Stopped place code) }
    ensures text { IfOk result (λ answer. string_bytes answer.text
        ≡ printed_of output (sent_in world.now) ++ last_line output code place) }
{
    let Answer { mut text, .. } = ended(alloc, world, output)?;
    add_last_line(alloc, &mut text, output, place, code)?;
    Ok(Answer::of(Verdict::Stopped(place, code), text))
}

/// Adds the last line of what is printed of a run that stopped: a report has one.
fn add_last_line(
    alloc: Global,
    text: &mut String,
    output: Output,
    place: usize,
    code: Code,
) -> Result<(), AllocError>
    ensures ok { IfOk result (λ _. string_bytes text.new ≡ string_bytes text.old ++ last_line output code place) }
{
    match output {
        Output::Report => add_stopped(alloc, text, code, place),
        Output::Trace => Ok(()),
    }
}

/// The answer to a scenario that is wrong at this place.
pub(crate) fn bad(alloc: Global, place: usize) -> Result<Answer, AllocError>
    ensures verdict { IfOk result (λ answer. answer.verdict ≡ Bad place) }
    ensures text { IfOk result (λ answer. string_bytes answer.text ≡ error_line place) }
{
    let text = error_text(alloc, place)?;
    Ok(Answer::of(Verdict::Bad(place), text))
}

/// The answer to these bytes as a trace, which are let go of once they are read, unless they are wrong. It fails only
/// where memory was refused.
pub fn judgement_of(alloc: Global, bytes: &mut Vec<u8>) -> Result<Answer, AllocError>
    ensures ok { IfOk result (λ answer. Judged bytes.old.items answer.verdict (string_bytes answer.text)) }
{
    let judged = rc_traces::judge(alloc, bytes)?;
    let verdict = match judged.finding {
        Finding::Clean => Verdict::Clean,
        Finding::Breach => Verdict::Breach,
        Finding::Bad(place) => Verdict::Bad(place),
    };
    Ok(Answer::of(verdict, judged.text))
}
