//! What a reader of the definitions of a scenario's run would expect, as contracts of functions that do
//! nothing.

ghost use Rattle.rc_runs.specs.Claims.{RunsAreReplays, RunsAreShort};

/// A scenario's run is a run of the world: its world is what its own events lead to, and there are no
/// more of them than it has room for.
pub fn runs_are_runs_of_the_world()
    ensures replays { RunsAreReplays }
    ensures short { RunsAreShort }
{}
