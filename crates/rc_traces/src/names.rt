//! The names of a trace's messages, as its text spells them.

ghost use Rattle.std.specs.Prelude.{◌≡◌};

/// Which message stands at `m`.
#[derive(Clone, Copy)]
pub(crate) enum MessageName {
    Place,
    Append,
    Ok,
    Plan,
    Own,
}

impl MessageName {
    ghost use Rattle.rc_traces.specs.Names.{message_named};

    /// The message of this name.
    pub(crate) fn named(name: &str) -> Option<MessageName>
        ensures { result ≡ message_named name.now }
    {
        match name {
            "place" => Some(MessageName::Place),
            "append" => Some(MessageName::Append),
            "ok" => Some(MessageName::Ok),
            "plan" => Some(MessageName::Plan),
            "own" => Some(MessageName::Own),
            _ => None,
        }
    }
}
