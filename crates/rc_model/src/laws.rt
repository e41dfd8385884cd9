//! Laws that a reader of the definitions would expect.

ghost use Rattle.rc_model.specs.Headline.{NoBreachIsTheHeadline, NothingDroppedIsNothingMissing};
ghost use Rattle.rc_model.specs.Headline.{TheTestSaysWhatIsBefore};

/// The headline, as the judge of messages finds it: no breach in a list of messages says exactly
/// that for each accepted recovery nothing acknowledged is missing and nothing recovered is
/// invented, and that versions rise over the owners of a key. Where every acknowledged write is
/// itself recovered, nothing is missing. Which of two terms is the earlier one is found for every
/// list of grants, also where previous terms go in a circle.
pub fn breach_says_the_headline()
    ensures headline { NoBreachIsTheHeadline }
    ensures dropped { NothingDroppedIsNothingMissing }
    ensures before { TheTestSaysWhatIsBefore }
{}
