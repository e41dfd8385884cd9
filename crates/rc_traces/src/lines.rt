//! The lines of messages.

ghost use Rattle.std.specs.Prelude.{◌≡◌, ◌++◌, [], OnOk, string_bytes};
ghost use Rattle.rc_types.specs.declared.messages.Body.TheVariants.{WriteOk, ReadOk, Plan, Own};
ghost use Rattle.rc_types.specs.Texts.{addr_text};
ghost use Rattle.rc_model.specs.Report.{body_line, message_line, message_lines, rows_text};

use rc_types::{Addr, Body, KeyRange, Message, PlanRow, ServerId};
use std::alloc::AllocError;

/// Adds the lines of these messages, in order.
pub(crate) fn add_messages(text: &mut String, messages: &[Message]) -> Result<(), AllocError>
    ensures { OnOk result (string_bytes text.new ≡ string_bytes text.old ++ message_lines messages.now) }
{
    for message in messages {
        add_message(text, message)?;
    }
    Ok(())
}

/// Adds the line of this message; most messages have none.
fn add_message(text: &mut String, message: &Message) -> Result<(), AllocError>
    ensures { OnOk result (string_bytes text.new ≡ string_bytes text.old ++ message_line message.now) }
{
    add_line(text, message.from, message.to, &message.body)
}

fn add_line(text: &mut String, from: Addr, to: Addr, body: &Body) -> Result<(), AllocError>
    ensures { OnOk result (string_bytes text.new ≡ string_bytes text.old ++ body_line (addr_text from) (addr_text to)
        body.now) }
{
    match body {
        Body::WriteOk {
            seg,
            offset,
            term,
            table,
            key,
            version,
        } => {
            write!(text, "ack {from} seg {seg} at {offset} term {term}")?;
            write!(text, " table {table} key {key} version {version}\n")
        }
        Body::ReadOk {
            table,
            key,
            version,
            ..
        } => write!(
            text,
            "read {from} table {table} key {key} version {version}\n"
        ),
        Body::Refused { code } => {
            let number = code.number();
            write!(text, "refused {number} from {from} to {to}\n")
        }
        Body::SplitOk { table, at } => write!(text, "split table {table} at {at}\n"),
        Body::Plan {
            attempt,
            master,
            head,
            rows,
            ..
        } => add_plan(text, to, *attempt, *master, *head, rows.as_slice()),
        Body::Own {
            range: KeyRange { table, lo, hi },
            term,
            previous,
            attempt,
        } => {
            write!(text, "own {to} term {term} table {table} from {lo} to {hi}")?;
            write!(text, " after {previous} attempt {attempt}\n")
        }
        _ => Ok(()),
    }
}

/// Adds the line of a plan to this address, with its attempt, its master and its head.
fn add_plan(
    text: &mut String,
    to: Addr,
    attempt: u32,
    master: ServerId,
    head: u16,
    rows: &[PlanRow],
) -> Result<(), AllocError>
    ensures { OnOk result
        (string_bytes text.new ≡ string_bytes text.old ++ body_line [] (addr_text to)
        (Plan head attempt master rows.now [])) }
{
    write!(text, "plan {attempt} of {master} to {to} head {head} rows")?;
    add_rows(text, rows)?;
    text.push_str("\n")
}

/// Adds the texts of these rows of a plan, in order.
fn add_rows(text: &mut String, rows: &[PlanRow]) -> Result<(), AllocError>
    ensures { OnOk result (string_bytes text.new ≡ string_bytes text.old ++ rows_text rows.now) }
{
    for row in rows {
        let PlanRow { seg, holder, len } = *row;
        write!(text, " {seg}:{holder}:{len}")?;
    }
    Ok(())
}
