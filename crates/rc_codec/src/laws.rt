//! What the bytes of messages and events have in common, as contracts of functions that do nothing.

ghost use Rattle.rc_codec.specs.Claims.{IsPrefixFree};
ghost use Rattle.rc_codec.specs.Bodies.{coded_message};
ghost use Rattle.rc_codec.specs.Events.{coded_event};

/// Bytes that begin with a message begin with one only, and no message's bytes begin another's. So it
/// is of events.
pub fn codings_are_prefix_free()
    ensures messages { IsPrefixFree coded_message }
    ensures events { IsPrefixFree coded_event }
{}
