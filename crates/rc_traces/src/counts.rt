//! How many messages of four kinds there are.

ghost use Rattle.std.specs.Prelude.{◌≡◌, ◌++◌, OnOk, string_bytes};
ghost use Rattle.rc_model.specs.Report.{count_of, count_line, counts_ack, counts_refused, counts_plan, counts_grant};
ghost use Rattle.rc_model.specs.Report.{counts_text};

use rc_types::{Body, Message};
use std::alloc::AllocError;

/// How many messages of four kinds there are.
#[derive(Clone, Copy)]
struct Counts {
    acknowledged: usize,
    refused: usize,
    plans: usize,
    grants: usize,
}

/// Adds the counts of these messages.
pub(crate) fn add_counts(text: &mut String, messages: &[Message]) -> Result<(), AllocError>
    ensures { OnOk result (string_bytes text.new ≡ string_bytes text.old ++ counts_text messages.now) }
{
    let counts = counts_of(messages);
    add_count(text, "messages ", messages.len())?;
    add_count(text, "acknowledged ", counts.acknowledged)?;
    add_count(text, "refused ", counts.refused)?;
    add_count(text, "plans ", counts.plans)?;
    add_count(text, "grants ", counts.grants)
}

/// Adds a line of a word and a count.
pub(crate) fn add_count(text: &mut String, word: &str, count: usize) -> Result<(), AllocError>
    ensures { OnOk result (string_bytes text.new ≡ string_bytes text.old ++ count_line word.now count) }
{
    write!(text, "{word}{count}\n")
}

fn counts_of(messages: &[Message]) -> Counts
    ensures acknowledged { result.acknowledged ≡ count_of counts_ack messages.now }
    ensures refused { result.refused ≡ count_of counts_refused messages.now }
    ensures plans { result.plans ≡ count_of counts_plan messages.now }
    ensures grants { result.grants ≡ count_of counts_grant messages.now }
{
    let mut acknowledged = 0;
    let mut refused = 0;
    let mut plans = 0;
    let mut grants = 0;
    for message in messages {
        match &message.body {
            Body::WriteOk { .. } => acknowledged += 1,
            Body::Refused { .. } => refused += 1,
            Body::Plan { .. } => plans += 1,
            Body::Own { .. } => grants += 1,
            _ => {}
        }
    }
    Counts {
        acknowledged,
        refused,
        plans,
        grants,
    }
}
