//! What an export answers.

ghost use Rattle.std.specs.Prelude.{◌≡◌};
ghost use Rattle.rc_session.specs.declared.faults.SessionFault.TheVariants as why;
ghost use Rattle.sevunthi.specs.Numbers as spec;

use rc_session::SessionFault;

/// It was done.
pub(crate) const DONE: u32 = 0;

/// Memory was refused.
pub(crate) const NO_MEMORY: u32 = 1;

/// The place is empty, or, for what fills one, full.
pub(crate) const MISUSED: u32 = 2;

/// The bytes are malformed.
pub(crate) const MALFORMED: u32 = 3;

/// It can't be done now.
pub(crate) const REFUSED: u32 = 4;

/// The node's numbers are used up.
pub(crate) const USED_UP: u32 = 5;

/// The caller's bytes are too few.
pub(crate) const NO_ROOM: u32 = 6;

/// A number is out of its range.
pub(crate) const OUT_OF_RANGE: u32 = 7;

/// There is nothing.
pub(crate) const NOTHING: u32 = 8;

/// The file begins with no save.
pub(crate) const NO_SAVE: u32 = 9;

/// Bytes of the file are missing that were safe.
pub(crate) const TOO_SHORT: u32 = 10;

/// The number of a fault.
pub(crate) fn number_of(fault: SessionFault) -> u32
    ensures number { result ≡ spec.number_of fault }
    ensures done { result ≡ 0 → ⊥ }
    ensures misused { result ≡ 2 → ⊥ }
    ensures malformed { result ≡ 3 → fault ≡ why.Malformed }
    ensures refused { result ≡ 4 → fault ≡ why.Refused }
    ensures used_up { result ≡ 5 → fault ≡ why.UsedUp }
    ensures room { result ≡ 6 → ⊥ }
    ensures range { result ≡ 7 → fault ≡ why.OutOfRange }
    ensures save { result ≡ 9 → fault ≡ why.NoSave }
    ensures short { result ≡ 10 → fault ≡ why.TooShort }
{
    match fault {
        SessionFault::NoMemory => NO_MEMORY,
        SessionFault::Malformed => MALFORMED,
        SessionFault::Refused => REFUSED,
        SessionFault::UsedUp => USED_UP,
        SessionFault::OutOfRange => OUT_OF_RANGE,
        SessionFault::NoSave => NO_SAVE,
        SessionFault::TooShort => TOO_SHORT,
    }
}
