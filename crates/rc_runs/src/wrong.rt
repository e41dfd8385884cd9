//! Bytes that say no scenario, and the place that is told.
#![tactic(auto, unfolding(crate::proofs::Spelling::computed))]

ghost use Rattle.rc_runs.specs.Wrong.{BadJsonPrints, FreeingInFormat1Prints, Format3Prints, BracketsPrints};
ghost use Rattle.rc_runs.specs.Wrong.{MessageTooGreatPrints, EventsAreAnObjectPrints, FactorWithAPointPrints};
ghost use Rattle.rc_runs.specs.Wrong.{FactorTooGreatPrints, GenerationZeroPrints, KeptSegmentZeroPrints};
ghost use Rattle.rc_runs.specs.Wrong.{MemberTooManyPrints, UnknownMemberPrints, SegmentsOfNonePrints};
ghost use Rattle.rc_runs.specs.Wrong.{UnknownEventPrints};

/// The text ends too soon.
pub fn bad_json()
    ensures { BadJsonPrints }
{}

/// Format 1 has no freeing.
pub fn freeing_in_format_1()
    ensures { FreeingInFormat1Prints }
{}

/// There is no format 3.
pub fn format_3()
    ensures { Format3Prints }
{}

/// Brackets nest too deep.
pub fn brackets()
    ensures { BracketsPrints }
{}

/// A message number is too great.
pub fn message_too_great()
    ensures { MessageTooGreatPrints }
{}

/// The events are no list.
pub fn events_are_an_object()
    ensures { EventsAreAnObjectPrints }
{}

/// A factor is no whole number.
pub fn factor_with_a_point()
    ensures { FactorWithAPointPrints }
{}

/// A factor is too great.
pub fn factor_too_great()
    ensures { FactorTooGreatPrints }
{}

/// Generations count from 1.
pub fn generation_zero()
    ensures { GenerationZeroPrints }
{}

/// Segments count from 1.
pub fn kept_segment_zero()
    ensures { KeptSegmentZeroPrints }
{}

/// An event has a member too many.
pub fn member_too_many()
    ensures { MemberTooManyPrints }
{}

/// A scenario has an unknown member.
pub fn unknown_member()
    ensures { UnknownMemberPrints }
{}

/// A segment takes no entry.
pub fn segments_of_none()
    ensures { SegmentsOfNonePrints }
{}

/// An event has an unknown name.
pub fn unknown_event()
    ensures { UnknownEventPrints }
{}
