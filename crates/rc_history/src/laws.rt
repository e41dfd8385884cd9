//! The laws of histories, as contracts of functions that do nothing.

ghost use Rattle.rc_history.specs.Claims.{EventsAreStepsOfNodes, NodesKeepTheirNames};
ghost use Rattle.rc_history.specs.Claims.{LegalInParts, LegalEventsAreNoted, TakenInParts};
ghost use Rattle.rc_history.specs.Claims.{SentStaysSent, NumbersStay, IdleNodesStay};
ghost use Rattle.rc_history.specs.Claims.{TheirEventsAreLegal, NodesAreWhereTheyWereLeft};
ghost use Rattle.rc_history.specs.Claims.{SentIsWhatTheySent, TakenIsWhatTheyTook, HistoriesComeOfSteps};
ghost use Rattle.rc_history.specs.Remade.{HostsCanBeRemade, CoordinatorCanBeRemade};

/// Steps that nodes take apart are a history. Put them into any order in which each message is sent before it is
/// delivered. Where each node begins as a new one and does in each of its steps what its rule says, their events are
/// possible one after another; and in the world of these events each node is where its own steps have left it, takes
/// the events of its own steps, and what was sent is what the steps sent, in order. So whatever is proved of every
/// world holds of such nodes. Each history is of this kind.
pub fn steps_apart_are_a_history()
    ensures possible { TheirEventsAreLegal }
    ensures nodes { NodesAreWhereTheyWereLeft }
    ensures sent { SentIsWhatTheySent }
    ensures taken { TakenIsWhatTheyTook }
    ensures every { HistoriesComeOfSteps }
{}

/// An event is a step of the node that it is for: it is possible exactly where the server that it names, if it names
/// one, runs on this node, and the node can be given its work; the node does what its rule says, what it sends is added
/// to what was sent, and no other node changes. Each node keeps its name.
pub fn events_are_steps_of_nodes()
    ensures steps { EventsAreStepsOfNodes }
    ensures names { NodesKeepTheirNames }
{}

/// A longer history goes on from a shorter one: it is legal in parts, and events that are legal are all noted; what a
/// node takes in it, it takes in parts; what was sent stays sent, and keeps its number; and a node that takes nothing
/// more in it is the same in both.
pub fn histories_go_on()
    ensures legal { LegalInParts }
    ensures noted { LegalEventsAreNoted }
    ensures taken { TakenInParts }
    ensures sent { SentStaysSent }
    ensures numbers { NumbersStay }
    ensures same { IdleNodesStay }
{}

/// A node is what its works have made of it, and not all of them need be kept. A host that is given again only its
/// starts and stops, and of the messages those that its backup took save Fetches, is the same but for its master, and
/// runs exactly where it ran: so a stop makes the two equal. The coordinator is the same without its timers.
pub fn nodes_can_be_remade()
    ensures hosts { HostsCanBeRemade }
    ensures coordinator { CoordinatorCanBeRemade }
{}
