//! What is kept of a node, and what is read back of it, as contracts of functions that do nothing.

ghost use Rattle.rc_codec.specs.Claims.{IsPrefixFree};
ghost use Rattle.rc_keeping.specs.Claims.{WrittenIsReadBack, CutGivesABeginning, WhatStandsBeforeIsRead};
ghost use Rattle.rc_keeping.specs.Keeping.{HostsComeBack, SavedHostsComeBack, CoordinatorsComeBack, RefusalsComeBack};
ghost use Rattle.rc_keeping.specs.Spelling.{coded_work, sealed, record_of};

/// A node that is made anew, and given again what `keeps` keeps of the works that it was given, in the same order, is
/// where it was: the coordinator exactly, a host but for its master, and it runs exactly where it ran; so a stop makes
/// the two equal. Works that were refused may have been kept or not: they are refused again, and change nothing.
pub fn nodes_come_back()
    ensures hosts { HostsComeBack }
    ensures coordinator { CoordinatorsComeBack }
    ensures refusals { RefusalsComeBack }
{}

/// Whoever has a host that is the same as another one but for its master, and gives it what `keeps` keeps of the works
/// that the other one is given from then on, has the same again but for its master, and it runs exactly where that one
/// runs. So a journal can be cut where what a host is without its master was kept in another way, if it is made again
/// as one that runs exactly where the host ran.
pub fn saved_nodes_come_back()
    ensures { SavedHostsComeBack }
{}

/// What `read_back` says of a journal: all that was written is read back; of a journal that was cut anywhere, a
/// beginning of it; and whatever stands behind it, all that was written before.
pub fn journals_are_read_back()
    ensures written { WrittenIsReadBack }
    ensures cut { CutGivesABeginning }
    ensures before { WhatStandsBeforeIsRead }
{}

/// Bytes that begin with a work begin with one only, and no work's bytes begin another's. So it is of records, and of
/// whatever bytes with their length and their sum before them.
pub fn codings_are_prefix_free()
    ensures works { IsPrefixFree coded_work }
    ensures records { IsPrefixFree record_of }
    ensures sealed { IsPrefixFree sealed }
{}
