//! The names of a scenario's events, as its text spells them.

ghost use Rattle.std.specs.Prelude.{◌≡◌};

/// Which event stands at `e`.
#[derive(Clone, Copy)]
pub(crate) enum EventName {
    Start,
    Stop,
    Suspect,
    Decide,
    Tick,
    Write,
    Read,
    Deliver,
    Settle,
    Create,
    Split,
}

impl EventName {
    ghost use Rattle.rc_reading.specs.Names.{event_named};

    /// The event of this name. What a long scenario has most of stands first.
    pub(crate) fn named(name: &str) -> Option<EventName>
        ensures { result ≡ event_named name.now }
    {
        match name {
            "deliver" => Some(EventName::Deliver),
            "settle" => Some(EventName::Settle),
            "write" => Some(EventName::Write),
            "tick" => Some(EventName::Tick),
            "read" => Some(EventName::Read),
            "start" => Some(EventName::Start),
            "stop" => Some(EventName::Stop),
            "suspect" => Some(EventName::Suspect),
            "decide" => Some(EventName::Decide),
            "create" => Some(EventName::Create),
            "split" => Some(EventName::Split),
            _ => None,
        }
    }
}
