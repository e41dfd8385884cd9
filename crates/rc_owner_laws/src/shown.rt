//! A run that the words of this crate speak of.

ghost use Rattle.rc_owner_laws.specs.ShownClaims.{TwoSegmentsAreWritten, TheFirstIsShut};

/// There is a run in which three writes are acknowledged, at three places that are counted and stored on
/// all, over two segments; the first one is shut, and a new epoch of the second one is granted.
pub fn words_are_about_something()
    ensures numbers { TwoSegmentsAreWritten }
    ensures shut { TheFirstIsShut }
{}
