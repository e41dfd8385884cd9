//! What holds of single nodes that run apart, as contracts of functions that do nothing.

ghost use Rattle.rc_world.specs.NodeCalls.{CallsAreSteps};
ghost use Rattle.rc_world.specs.NodeNumbers.{NewNodesAreWithin, StepsStayWithin, MoreWorksAllowMore, NodesHaveRoom};
ghost use Rattle.rc_world.specs.NodeNumbers.{HistoriesLeaveRoom};

/// A node that runs apart has room for one more step (`NodeState::step` asks for it) where all nodes
/// together took at most 200,000 works, and were brought only messages that these nodes sent: a new
/// node has used nothing up; whatever number of works bounds the numbers of a node and of what it is
/// given, one work more bounds those of the node after it, and of all that it sends; and up to 200,000
/// there is room. So each node of a history of at most 200,000 events has room.
pub fn nodes_have_room()
    ensures new { NewNodesAreWithin }
    ensures steps { StepsStayWithin }
    ensures more { MoreWorksAllowMore }
    ensures room { NodesHaveRoom }
    ensures histories { HistoriesLeaveRoom }
{}

/// A call of `NodeState::step` that is not refused is a step that can be taken after the steps before it, as
/// `rc_history` speaks of steps, with the work's own event: where the node is as its own calls have left it, and a
/// message that is delivered is one of those that these steps sent, to this node. So nodes that run apart are a
/// history (`rc_history::laws::steps_apart_are_a_history`).
pub fn calls_are_steps()
    ensures { CallsAreSteps }
{}
