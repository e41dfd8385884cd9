//! The laws of files, as contracts of functions that do nothing.

ghost use Rattle.rc_keeping.specs.Files.{CutsAreLeft, WhatIsLeftComesBack};
ghost use Rattle.rc_keeping.specs.Standing.{FilesMakeAnew, OneMoreIsWritten, FewerStandForFewer, SavesStandForAll};
ghost use Rattle.rc_keeping.specs.Standing.{StopsMakeEqual};

/// Of what a crash leaves of a file all comes back that was safe, and perhaps some of what was written behind it, in
/// order; and nothing that was not written. It may have been cut off anywhere behind what was safe, and whatever is no
/// record may stand there.
pub fn what_is_safe_comes_back()
    ensures cuts { CutsAreLeft }
    ensures back { WhatIsLeftComesBack }
{}

/// A file stands for the whole journal of a life: a save of the node, at whatever moment it was made, for the works
/// that were written down before, and the records behind it for those since. Of what is left of it the node is made
/// anew that what is left of the journal makes, a host but for its master; and after a stop hosts that are the same but
/// for their masters are equal.
pub fn files_make_anew()
    ensures anew { FilesMakeAnew }
    ensures more { OneMoreIsWritten }
    ensures fewer { FewerStandForFewer }
    ensures saves { SavesStandForAll }
    ensures stops { StopsMakeEqual }
{}
