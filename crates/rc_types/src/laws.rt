//! What the definitions over messages say, as contracts of functions that do nothing.

ghost use Rattle.rc_types.specs.Carried.{EqualMessagesCarryTheSame, EntriesCount};
ghost use Rattle.rc_types.specs.Kinds.{KindsHavePlaces};

/// Messages are plain data: `≡` compares them by their fields, the entries in them too.
pub fn messages_are_plain_data()
    ensures same { EqualMessagesCarryTheSame }
    ensures entries { EntriesCount }
{}

/// Kinds are known by their numbers, which are their places among all kinds.
pub fn kinds_have_places()
    ensures { KindsHavePlaces }
{}
