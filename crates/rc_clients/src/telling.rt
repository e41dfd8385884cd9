//! What is told of a history that was judged.

use crate::events::ClientEvent;
use crate::judging::Violation;
use crate::operations::{Kind, operation_at};
use crate::reading::ReadHistory;
use std::alloc::{AllocError, Global};
use std::fmt::Write;

/// How many operations the history has, and what was found.
///
/// # Errors
///
/// Only memory can be refused.
pub fn judgement_text(
    alloc: Global,
    history: &ReadHistory,
    found: Option<Violation>,
) -> Result<String, AllocError> {
    let mut text = String::new(alloc);
    let count = (0..history.events.len())
        .filter(|moment| operation_at(history.events.as_slice(), *moment).is_some())
        .count();
    write!(text, "operations {count}\n")?;
    match found {
        None => text.push_str("linearizable\n")?,
        Some(found) => add_violation(&mut text, history, found)?,
    }
    Ok(text)
}

/// Adds what breaks the history, with the lines of its operations.
fn add_violation(
    text: &mut String,
    history: &ReadHistory,
    found: Violation,
) -> Result<(), AllocError> {
    text.push_str("not linearizable: ")?;
    match found {
        Violation::OutOfTime(first, later) => {
            add_operation(text, history, first)?;
            text.push_str(" was answered before the invocation of ")?;
            add_operation(text, history, later)?;
            text.push('\n')?;
        }
        Violation::NotNothing(one) => {
            add_operation(text, history, one)?;
            text.push_str(" stands before the first write, and is one, or shows a value\n")?;
        }
        Violation::TwoWrites(first, later) => {
            add_operation(text, history, first)?;
            text.push_str(" and ")?;
            add_operation(text, history, later)?;
            text.push_str(" are two writes of one version\n")?;
        }
        Violation::TwoValues(first, later) => {
            add_operation(text, history, first)?;
            text.push_str(" and ")?;
            add_operation(text, history, later)?;
            text.push_str(" have two values of one version\n")?;
        }
        Violation::NeverWritten(one) => {
            add_operation(text, history, one)?;
            text.push_str(" has a version that no write can have got\n")?;
        }
        Violation::TooFewWrites(one) => {
            add_operation(text, history, one)?;
            text.push_str(
                " has a version for which no write is left: each that can have got it has a lower one\n",
            )?;
        }
    }
    Ok(())
}

/// Adds an operation: what it is, its key, its version, and the lines of its events.
fn add_operation(
    text: &mut String,
    history: &ReadHistory,
    moment: usize,
) -> Result<(), AllocError> {
    let Some(operation) = operation_at(history.events.as_slice(), moment) else {
        return Ok(());
    };
    let kind = match operation.kind {
        Kind::Write => "write",
        Kind::Read => "read",
    };
    let (table, key, version) = (operation.table, operation.key, operation.version);
    let asked = history
        .lines
        .get(operation.invocation)
        .copied()
        .unwrap_or(0);
    let told = history.lines.get(operation.response).copied().unwrap_or(0);
    write!(
        text,
        "the {kind} of {table}/{key} in lines {asked} and {told} with version {version}"
    )?;
    Ok(())
}
