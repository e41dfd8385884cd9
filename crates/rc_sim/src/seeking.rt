//! From several seeds to bytes: the first of them whose run reaches a rule, a kind of event or a kind of message.

ghost use Rattle.std.specs.Prelude.{◌≡◌, ◌≢◌, ℕ, string_bytes, IfOk, Ok, Err, []};
ghost use Rattle.std.specs.Io.KnownBytes.{Keeps};
ghost use Rattle.rc_sim.specs.declared.verdicts.SimFault.TheVariants.{Memory, Read as ReadFailed, Write as WriteFailed};
ghost use Rattle.rc_sim.specs.declared.verdicts.Verdict.TheVariants.{Breach};
ghost use Rattle.rc_sim.specs.Failures.{failed_writes};
ghost use Rattle.rc_sim.specs.Verdicts.{Sought};
ghost use Rattle.rc_sim.specs.Written.{IsWritten, IsBegun};

use crate::answers::Answer;
use crate::counted::Counted;
use crate::exploring::add_sizes;
use crate::outlets::write_all;
use crate::simulating::write_answer;
use crate::surveying::tell_seed;
use crate::verdicts::{SimFault, Verdict};
use rc_study::{Exploration, Goal, Options, saved_events};
use rc_types::{Event, EventKind, Kind, Message, Seq};
use std::alloc::{AllocError, Global};
use std::io::Write;

/// What is looked for, and how it is told.
#[derive(Drop)]
pub struct Search {
    /// The name of a rule, of a kind of event, or of a kind of message.
    pub goal: Seq<u8>,
    /// The last seed; the options have the first.
    pub last: u64,
    /// Whether the events up to the one that reaches it are written as a scenario.
    pub save: bool,
    /// Whether `errors` is told at each seed how far it is.
    pub progress: bool,
}

/// Runs events that are drawn from each seed, one after another, until one reaches what is looked for, and writes which
/// seed that is, and what has reached it. Where none does, or the name is none, nothing is written, and `errors` is
/// told.
///
/// It fails as `fuzz` does.
pub fn seek<W: Write, E: Write>(
    alloc: Global,
    options: &Options,
    search: &Search,
    writer: &mut Counted<W>,
    errors: &mut Counted<E>,
) -> Result<Verdict, SimFault>
    ensures ok { IfOk result (λ verdict.
        IsWritten Sought verdict (W.contents writer.old.inner) (W.contents writer.new.inner)) }
    ensures cut_short { (count : ℕ) → result ≡ Err (WriteFailed count) →
        IsBegun Sought count (W.contents writer.old.inner) (W.contents writer.new.inner) }
    ensures nothing_without_memory { result ≡ Err Memory →
        Keeps (W.contents writer.old.inner) (W.contents writer.new.inner) }
    ensures writes { writer.new.failures ≡ failed_writes result writer.old.failures }
    ensures unread { result ≢ Err ReadFailed }
    ensures no_breach { result ≢ Ok Breach }
{
    let answer = sought(alloc, options, search, errors)?;
    write_answer(writer, &answer)
}

/// What is written of what is looked for.
fn sought<E: Write>(
    alloc: Global,
    options: &Options,
    search: &Search,
    errors: &mut Counted<E>,
) -> Result<Answer, AllocError>
    ensures ok { IfOk result (λ answer. Sought answer.verdict (string_bytes answer.text)) }
    ensures no_breach { IfOk result (λ answer. answer.verdict ≢ Breach) }
{
    let word = str::from_utf8(search.goal.as_slice()).unwrap_or("");
    let Some(goal) = Goal::of(word) else {
        let text = unknown(alloc, word)?;
        let _ = write_all(errors, text.as_bytes());
        return Ok(Answer::nothing(alloc, Verdict::Wrong));
    };
    match first_of(alloc, options, search, goal, errors)? {
        Some(text) => Ok(Answer::of(Verdict::Clean, text)),
        None => {
            let _ = writeln!(
                errors.inner,
                "error: none of the seeds {}..{} reaches '{}'",
                options.seed,
                search.last,
                goal.name()
            );
            Ok(Answer::nothing(alloc, Verdict::NoLine))
        }
    }
}

/// What is told of the first seed that reaches it, if one does.
fn first_of<E: Write>(
    alloc: Global,
    options: &Options,
    search: &Search,
    goal: Goal,
    errors: &mut Counted<E>,
) -> Result<Option<String>, AllocError> {
    let count = search.last.saturating_sub(options.seed).saturating_add(1);
    for number in 0..count {
        let mut options = *options;
        options.seed = options.seed.saturating_add(number);
        if let Some(text) = found_in(alloc, &options, search.save, goal)? {
            return Ok(Some(text));
        }
        if search.progress {
            tell_seed(options.seed, number, count, errors);
        }
    }
    Ok(None)
}

/// What is told of this seed, if it reaches it.
fn found_in(
    alloc: Global,
    options: &Options,
    save: bool,
    goal: Goal,
) -> Result<Option<String>, AllocError> {
    let Ok(mut run) = Exploration::toward(alloc, options, Some(goal)) else {
        return Err(AllocError);
    };
    if run.go_until(alloc).is_err() {
        return Err(AllocError);
    }
    let Some(number) = run.found() else {
        return Ok(None);
    };
    let text = if save {
        saved_until(alloc, options, &run, number)?
    } else {
        told(alloc, options, &run, goal, number)?
    };
    Ok(Some(text))
}

/// The events up to the one of this number, as a scenario.
fn saved_until(
    alloc: Global,
    options: &Options,
    run: &Exploration,
    number: usize,
) -> Result<String, AllocError> {
    let setup = options.setup(alloc);
    let events = run.world().events();
    let until = number.saturating_add(1).min(events.len());
    saved_events(alloc, &setup, events.get(..until).unwrap_or(events))
}

/// What was drawn with, and the event of this number, which reaches it.
fn told(
    alloc: Global,
    options: &Options,
    run: &Exploration,
    goal: Goal,
    number: usize,
) -> Result<String, AllocError> {
    let mut text = String::new(alloc);
    write!(text, "drawn seed {} ", options.seed)?;
    add_sizes(&mut text, options)?;
    write!(text, "until {} event {number}", goal.name())?;
    if let Some(event) = run.world().events().get(number) {
        tell_event(&mut text, event, run.world().sent())?;
    }
    text.push_str("\n")?;
    Ok(text)
}

/// The kind of an event; of a delivery also the message.
fn tell_event(text: &mut String, event: &Event, sent: &[Message]) -> Result<(), AllocError> {
    write!(text, " kind {}", EventKind::of(event).name())?;
    if let Event::Deliver(number) = event {
        if let Some(message) = sent.get(*number) {
            write!(
                text,
                " message {number} body {} from {} to {}",
                Kind::of(&message.body).name(),
                message.from,
                message.to
            )?;
        }
    }
    Ok(())
}

/// That a word names nothing that can be reached, and what can be.
fn unknown(alloc: Global, word: &str) -> Result<String, AllocError> {
    let mut text = String::new(alloc);
    write!(
        text,
        "error: '{word}' is no rule, kind of event or kind of message"
    )?;
    text.push_str("\n\nThey are:")?;
    for name in &Goal::names(alloc)? {
        write!(text, " {name}")?;
    }
    text.push_str("\n")?;
    Ok(text)
}
