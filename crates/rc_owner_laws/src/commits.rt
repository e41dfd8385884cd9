//! Commits.

ghost use Rattle.rc_owner_laws.specs.CommitClaims.{CommitsAreAskedInOrder, CommitsAreInOrder, LeastPairsAreInOrder};
ghost use Rattle.rc_owner_laws.specs.CommitClaims.{CommitsAreOfPlaced, CommitsAreOfTheTold};

/// A commit of a segment is asked, and granted, only where each earlier segment is shut. So each segment
/// below a master's least pair is shut.
pub fn commits_are_in_order()
    ensures asked { CommitsAreAskedInOrder }
    ensures order { CommitsAreInOrder }
    ensures least { LeastPairsAreInOrder }
{}

/// A master asks for a commit of a segment only where that segment is placed on all members of its current epoch, none
/// of which is known lost, and no earlier segment is open: each id to which it has sent the segment under that epoch
/// has told something under it.
pub fn commits_are_of_placed_segments()
    ensures placed { CommitsAreOfPlaced }
    ensures told { CommitsAreOfTheTold }
{}
