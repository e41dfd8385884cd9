//! The report as a whole.

ghost use Rattle.std.specs.Prelude.{◌≡◌, ◌++◌, IfOk, codes, length, string_bytes};
ghost use Rattle.rc_model.specs.Report.{message_lines, count_line, counts_text, audit_line, report};
ghost use Rattle.rc_traces.specs.Ends.{judgement};
ghost use Rattle.rc_model.specs.Breach.{breach};

use crate::audited::add_audit;
use crate::counts::{add_count, add_counts};
use crate::lines::add_messages;
use rc_types::{Breach, Message};
use std::alloc::{AllocError, Global};

/// The report of these messages, with what the audit found in them. It costs one look at each message, and what
/// it prints.
///
/// # Errors
///
/// `OutOfMemory` (F1): memory was refused.
pub fn report_of(
    alloc: Global,
    messages: &[Message],
    found: Option<Breach>,
) -> Result<String, AllocError>
    ensures ok { IfOk result
        (λ text. string_bytes text ≡ message_lines messages.now ++ counts_text messages.now ++ audit_line found) }
    // told of the messages' own first breach, it is the report of the definitions
    ensures judged { found ≡ breach messages.now → IfOk result (λ text. string_bytes text ≡ report messages.now) }
{
    let mut text = String::new(alloc);
    add_messages(&mut text, messages)?;
    add_counts(&mut text, messages)?;
    add_audit(&mut text, found)?;
    Ok(text)
}

/// The judgement of these messages, told what the audit found in them: how many they are, and the audit's line.
///
/// # Errors
///
/// `OutOfMemory` (F1): memory was refused.
pub(crate) fn judgement_of(
    alloc: Global,
    messages: &[Message],
    found: Option<Breach>,
) -> Result<String, AllocError>
    ensures ok { IfOk result (λ text. string_bytes text ≡ count_line (codes "messages ") (length messages.now) ++
        audit_line found) }
    // told of the messages' own first breach, it is the judgement of the definitions
    ensures judged { found ≡ breach messages.now → IfOk result (λ text. string_bytes text ≡ judgement messages.now) }
{
    let mut text = String::new(alloc);
    add_count(&mut text, "messages ", messages.len())?;
    add_audit(&mut text, found)?;
    Ok(text)
}
