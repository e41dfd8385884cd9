//! Values that are no list and no object, as they are wanted.

ghost use Rattle.std.specs.Prelude.{◌≡◌, ◌<◌, ◌≤◌, IfSome, option_map};
ghost use Rattle.rc_types.specs.declared.limits.TheConstants.{MAX_HOSTS};
ghost use Rattle.rc_reading.specs.Said.{shown, whole_in, below_in, text_in, flag_in, letter_in};

use rc_types::Addr;
use rc_types::limits::MAX_HOSTS;

/// What a value says by itself.
#[derive(Clone, Copy, Drop)]
pub enum Simple<'a> {
    /// null
    Null,
    /// true or false
    Bool(bool),
    /// A number, where it was written without a sign, a point and an exponent and is below 2^64.
    Number(Option<u64>),
    /// A text.
    Text(&'a str),
    /// A list or an object, which says nothing by itself.
    Other,
}

impl<'a> Simple<'a> {
    /// The whole number from `low` to `high` that it is.
    pub fn number(self, low: u64, high: u64) -> Option<u64>
        ensures says { result ≡ whole_in low high (shown self.entry) }
        ensures in_range { IfSome result (λ n. (low ≤ n) × (n ≤ high)) }
    {
        let Simple::Number(Some(number)) = self else {
            return None;
        };
        if low <= number && number <= high {
            Some(number)
        } else {
            None
        }
    }

    /// The index of a host that it is.
    pub(crate) fn host(self) -> Option<u8>
        ensures says { result ≡ below_in MAX_HOSTS (shown self.entry) }
        ensures in_range { IfSome result (λ host. host < MAX_HOSTS) }
    {
        let Simple::Number(Some(index)) = self else {
            return None;
        };
        if index < u64::from(MAX_HOSTS) {
            Some(index as u8)
        } else {
            None
        }
    }

    /// The text that it is.
    pub fn text(self) -> Option<&'a str>
        ensures { option_map (λ text. text.now) result ≡ text_in (shown self.entry) }
    {
        match self {
            Simple::Text(text) => Some(text),
            _ => None,
        }
    }

    /// What is true or false.
    pub(crate) fn flag(self) -> Option<bool>
        ensures { result ≡ flag_in (shown self.entry) }
    {
        match self {
            Simple::Bool(flag) => Some(flag),
            _ => None,
        }
    }

    /// The coordinator, by its letter.
    pub(crate) fn letter(self) -> Option<Addr>
        ensures { result ≡ letter_in (shown self.entry) }
    {
        match self {
            Simple::Text("c") => Some(Addr::Coordinator),
            _ => None,
        }
    }
}
