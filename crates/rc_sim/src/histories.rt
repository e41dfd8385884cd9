//! What clients saw: the history of a run is written, and one that is given is judged.

ghost use Rattle.std.specs.Prelude.{◌≡◌, ℕ, List, string_bytes, IfOk};
ghost use Rattle.rc_sim.specs.Failures.{failed_reads, failed_writes};
ghost use Rattle.rc_sim.specs.Histories.{Checked, weighed};
ghost use Rattle.rc_sim.specs.Statuses.{Answered};

use crate::answers::{Answer, bad};
use crate::counted::Counted;
use crate::outlets::read_all;
use crate::simulating::write_answer;
use crate::verdicts::{SimFault, Verdict};
use rc_clients::{
    HistoryFault, ReadHistory, Violation, check, history_of, history_text, judgement_text,
    read_history,
};
use rc_reading::limits::MOST_BYTES;
use rc_types::Message;
use std::alloc::{AllocError, Global};
use std::io::{Read, Write};

/// What the clients saw who asked and were told these messages, as JSON lines.
pub(crate) fn history_lines(alloc: Global, messages: &[Message]) -> Result<String, AllocError> {
    let history = history_of(alloc, messages)?;
    history_text(alloc, &history)
}

/// Reads a history, judges it, and writes what was found, or the one line of a history that is wrong. Nothing is
/// claimed of the text.
///
/// It fails as [`simulate`](crate::simulate) does.
pub(crate) fn weigh_history<R: Read, W: Write>(
    alloc: Global,
    reader: &mut Counted<R>,
    writer: &mut Counted<W>,
) -> Result<Verdict, SimFault>
    ensures answered { Answered Checked result (R.remaining reader.old.inner) (W.contents writer.old.inner)
        (W.contents writer.new.inner) }
    ensures reads { reader.new.failures ≡ failed_reads result reader.old.failures }
    ensures writes { writer.new.failures ≡ failed_writes result writer.old.failures }
{
    let bytes = read_all(alloc, reader)?;
    let answer = judged(alloc, bytes.as_slice())?;
    write_answer(writer, &answer)
}

/// What is answered to these bytes as a history.
fn judged(alloc: Global, bytes: &[u8]) -> Result<Answer, AllocError>
    ensures ok { IfOk result (λ answer. Checked bytes.now answer.verdict (string_bytes answer.text)) }
{
    if bytes.len() > MOST_BYTES {
        return bad(alloc, 0);
    }
    match read_history(alloc, bytes) {
        Ok(history) => weighed_answer(alloc, &history),
        Err(HistoryFault::OutOfMemory) => Err(AllocError),
        Err(HistoryFault::BadLine(line, _)) => bad(alloc, line),
    }
}

/// What the judge says of a history.
fn weighed_answer(alloc: Global, history: &ReadHistory) -> Result<Answer, AllocError>
    ensures ok { IfOk result (λ answer. (bytes : List ℕ) → Checked bytes answer.verdict (string_bytes answer.text)) }
{
    let found = check(alloc, history.events.as_slice())?;
    let text = judgement_text(alloc, history, found)?;
    Ok(Answer::of(verdict_of(found), text))
}

/// The verdict on a history that is linearizable, or is not.
fn verdict_of(found: Option<Violation>) -> Verdict
    ensures { result ≡ weighed found }
{
    match found {
        None => Verdict::Clean,
        Some(_) => Verdict::Breach,
    }
}
