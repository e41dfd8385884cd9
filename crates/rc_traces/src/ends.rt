//! The lines around a report: the last line of a run that stopped, and the one line of a wrong input.

ghost use Rattle.std.specs.Prelude.{◌≡◌, ◌++◌, IfOk, OnOk, OnErr, string_bytes};
ghost use Rattle.rc_traces.specs.Ends.{stopped_line, error_line};

use rc_types::Code;
use std::alloc::{AllocError, Global};

/// Adds the line of a run that stopped at this event of the scenario, counted from 0. It fails only where memory
/// was refused (F1); the text is then as before.
pub fn add_stopped(
    alloc: Global,
    text: &mut String,
    code: Code,
    event: usize,
) -> Result<(), AllocError>
    ensures ok { OnOk result (string_bytes text.new ≡ string_bytes text.old ++ stopped_line code event) }
    ensures unchanged { OnErr result (string_bytes text.new ≡ string_bytes text.old) }
{
    let number = code.number();
    let line = format!(in alloc; "stopped F{number} at event {event}\n")?;
    text.push_str(line.as_str())?;
    Ok(())
}

/// The one line of an input that is wrong at this place. It fails only where memory was refused (F1).
pub fn error_text(alloc: Global, place: usize) -> Result<String, AllocError>
    ensures { IfOk result (λ text. string_bytes text ≡ error_line place) }
{
    Ok(format!(in alloc; "error F17 at {place}\n")?)
}
