//! From a trace's bytes to what is printed of it.

ghost use Rattle.std.specs.Prelude.{◌≡◌, ℕ, Ok, Err, string_bytes, IfOk};
ghost use Rattle.rc_reading.specs.declared.faults.ReadFault.TheVariants.{BadInput};
ghost use Rattle.rc_model.specs.Breach.{breach};
ghost use Rattle.rc_traces.specs.Trace.{reading};
ghost use Rattle.rc_traces.specs.declared.judging.Finding.TheVariants.{Bad};
ghost use Rattle.rc_traces.specs.Ends.{judgement, error_line};
ghost use Rattle.rc_traces.specs.Judged.{finding_of, finding_in, text_of};

use crate::ends::error_text;
use crate::reports::judgement_of;
use crate::{read_outline, read_trace};
use rc_audit::{audit, has_recovery};
use rc_reading::ReadFault;
use rc_types::{Breach, Message};
use std::alloc::{AllocError, Global};

/// The name of a plan in a trace.
const PLAN: &[u8] = b"\"plan\"";

/// What comes of a trace.
#[derive(Clone, Copy)]
pub enum Finding {
    /// The audit found no breach.
    Clean,
    /// The audit found a breach.
    Breach,
    /// The trace is wrong at this place (F17).
    Bad(usize),
}

/// What comes of a trace, and what is printed.
#[derive(Drop)]
pub struct Judgement {
    /// What comes of it.
    pub finding: Finding,
    /// What is printed.
    pub text: String,
}

/// Judges the trace that these bytes are: prints how many messages it has, and what the audit finds in them; or
/// the one line of a trace that is wrong. The bytes are let go of before the audit. Those of a trace that is wrong
/// stay.
///
/// # Errors
///
/// `OutOfMemory` (F1): memory was refused.
pub fn judge(alloc: Global, bytes: &mut Vec<u8>) -> Result<Judgement, AllocError>
    ensures finding { IfOk result (λ judged. judged.finding ≡ finding_of (reading bytes.old.items)) }
    ensures text { IfOk result (λ judged. string_bytes judged.text ≡ text_of (reading bytes.old.items)) }
    ensures kept { IfOk result (λ judged. (place : ℕ) → judged.finding ≡ Bad place → bytes.new ≡ bytes.old) }
{
    match messages_to_judge(alloc, bytes.as_slice()) {
        Ok(messages) => {
            *bytes = Vec::new(alloc);
            judge_messages(alloc, messages.as_slice())
        }
        Err(ReadFault::BadInput(place)) => bad(alloc, place),
        Err(ReadFault::OutOfMemory) => Err(AllocError),
    }
}

/// Messages that are judged as those that the bytes say. Where no recovery was accepted nobody asks for entries, so
/// none is kept.
fn messages_to_judge(alloc: Global, bytes: &[u8]) -> Result<Vec<Message>, ReadFault>
    ensures finding { IfOk result (λ messages. finding_in (breach messages.items) ≡ finding_of (reading bytes.now)) }
    ensures text { IfOk result (λ messages. judgement messages.items ≡ text_of (reading bytes.now)) }
    ensures bad { (place : ℕ) → result ≡ Err (BadInput place) → reading bytes.now ≡ Err place }
{
    if !names_a_plan(bytes) {
        let messages = read_outline(alloc, bytes)?;
        if !has_recovery(messages.as_slice()) {
            return Ok(messages);
        }
    }
    read_trace(alloc, bytes)
}

/// Whether the name of a plan stands in these bytes, as it is mostly written. Then there may be a recovery, and the
/// trace is read once, whole.
fn names_a_plan(bytes: &[u8]) -> bool {
    bytes.windows(PLAN.len()).any(|part| part == PLAN)
}

/// Judges the messages of a trace.
fn judge_messages(alloc: Global, messages: &[Message]) -> Result<Judgement, AllocError>
    ensures finding { IfOk result (λ judged. judged.finding ≡ finding_in (breach messages.now)) }
    ensures text { IfOk result (λ judged. string_bytes judged.text ≡ judgement messages.now) }
{
    let found = audit(alloc, messages)?;
    let text = judgement_of(alloc, messages, found)?;
    let finding = finding_in(found);
    Ok(Judgement { finding, text })
}

/// What a breach, or none, is to a judge.
fn finding_in(found: Option<Breach>) -> Finding
    ensures { result ≡ finding_in found }
{
    match found {
        None => Finding::Clean,
        Some(_) => Finding::Breach,
    }
}

/// The judgement of a trace that is wrong at this place.
fn bad(alloc: Global, place: usize) -> Result<Judgement, AllocError>
    ensures finding { IfOk result (λ judged. judged.finding ≡ finding_of (Err place)) }
    ensures text { IfOk result (λ judged. string_bytes judged.text ≡ error_line place) }
{
    let text = error_text(alloc, place)?;
    let finding = Finding::Bad(place);
    Ok(Judgement { finding, text })
}
