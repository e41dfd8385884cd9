//! How a world goes on, and that an event is for one node.

ghost use Rattle.rc_model.specs.WorldClaims.{OneMoreEventIsAStep, ImpossibleChangesNothing, PossibleIsNoted};
ghost use Rattle.rc_model.specs.WorldClaims.{SentOnlyGrows, GenerationsNeverFall, SameNodesAreEqual};
ghost use Rattle.rc_model.specs.WorldClaims.{EachNodeIsTheSame, HostsFollowTheirWorks, CoordinatorFollowsItsWorks};

/// A world goes on by steps: one more event is one more step, an event is noted exactly where it is
/// possible, one that isn't changes nothing, what was sent stays sent, and generations never fall.
pub fn worlds_go_on()
    ensures one_more { OneMoreEventIsAStep }
    ensures impossible { ImpossibleChangesNothing }
    ensures noted { PossibleIsNoted }
    ensures sent { SentOnlyGrows }
    ensures generations { GenerationsNeverFall }
{}

/// An event is for one node: a node's state after a history is what its own works make of it, each
/// delivery with its message.
pub fn events_are_for_one_node()
    ensures hosts { HostsFollowTheirWorks }
    ensures coordinator { CoordinatorFollowsItsWorks }
    ensures same { SameNodesAreEqual }
    ensures itself { EachNodeIsTheSame }
{}
