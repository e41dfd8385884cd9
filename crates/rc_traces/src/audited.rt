//! The line of the audit.

ghost use Rattle.std.specs.Prelude.{◌≡◌, ◌++◌, Some, OnOk, string_bytes};
ghost use Rattle.rc_model.specs.Report.{place_text, verdict_text, audit_line};

use rc_types::{Breach, ServerId};
use std::alloc::AllocError;

/// Adds the line that tells what the audit found.
pub(crate) fn add_audit(text: &mut String, found: Option<Breach>) -> Result<(), AllocError>
    ensures { OnOk result (string_bytes text.new ≡ string_bytes text.old ++ audit_line found) }
{
    text.push_str("audit ")?;
    match found {
        None => text.push_str("clean")?,
        Some(finding) => add_breach(text, finding)?,
    }
    text.push_str("\n")
}

fn add_breach(text: &mut String, finding: Breach) -> Result<(), AllocError>
    ensures { OnOk result (string_bytes text.new ≡ string_bytes text.old ++ verdict_text (Some finding)) }
{
    match finding {
        Breach::Missing {
            attempt,
            master,
            seg,
            offset,
        } => {
            text.push_str("breach missing")?;
            add_place(text, attempt, master, seg, offset)
        }
        Breach::Invented {
            attempt,
            master,
            seg,
            offset,
        } => {
            text.push_str("breach invented")?;
            add_place(text, attempt, master, seg, offset)
        }
        Breach::Version {
            table,
            key,
            earlier_term,
            earlier_version,
            later_term,
            later_version,
        } => {
            write!(
                text,
                "breach version table {table} key {key} term {earlier_term}"
            )?;
            write!(
                text,
                " version {earlier_version} term {later_term} version {later_version}"
            )
        }
    }
}

fn add_place(
    text: &mut String,
    attempt: u32,
    master: ServerId,
    seg: u16,
    offset: usize,
) -> Result<(), AllocError>
    ensures { OnOk result (string_bytes text.new ≡ string_bytes text.old ++ place_text attempt master seg offset) }
{
    write!(text, " attempt {attempt} of {master} seg {seg} at {offset}")
}
