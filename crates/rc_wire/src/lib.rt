//! Nodes on threads, and the wire that joins them. The wire is a journal behind one lock, and each node's thread comes
//! to it with a seat.
//!
//! The journal is the list of all events, with the messages that each sent, and for each node the numbers of the
//! messages to it. It holds no node's state. Below it is the ledger, one history, in proofs alone: it says what those
//! who hold its tokens know of that list.
//!
//! A lock's value is unknown each time that it is taken, so by a lock alone nobody could say that the history which a
//! thread finds begins with what that thread saw before. The tokens of a ledger can: one token, the keeper's, knows
//! the whole history and lies under the lock, beside the list; each node has a seat, whose token knows a beginning of
//! the history and the events that the node has in the whole of it. The keeper deals the seats. To see or to add, the
//! keeper takes the seat as its guest, since a step knows the view of one token only, and lets it go again. The ledger
//! stands on `rc_history`, which says what a node's events are, and on the kit's `atomic_table`, which knows that a
//! rule over all views is kept where each step keeps it.
//!
//! The journal's type says what is true whenever the lock is free: the events are possible one after another, at most
//! 200,000, and nodes without a seat have none; the messages are those that the events send in the world of the
//! definitions; and the index has of each node the numbers of its messages, ascending. Beside the events lie the ledger
//! and the token of its keeper, which knows just these events. A seat comes with a token of its own, and learns from a
//! look, or from adding a step, that the history begins with what it saw before and has of its node's events its own.
//!
//! A seat is what one node has at hand: the state of its node, and by its token of the journal a beginning of the
//! history, and which events of that are its node's own. It computes a step by itself, in `Seat::prepare`, without a
//! lock, and waits for nobody. The step is then pending: what the node sends can be looked at, and the journal has
//! nothing of it. `Seat::commit_into` adds it to the journal, as one event at the end of the history. Whatever else the
//! history has come to by then, the step is one that is possible there, since no other event is the node's own.
//!
//! The wire's lock is held to look for a message and to copy it, and to add a step with its messages; so one commit is
//! one event of the core, at the moment at which it is added, and the history is one that a single thread could have
//! made. A delivery takes it twice: between look and commit the node takes its step, while others are at the wire.
//!
//! `Wire::close` ends it: the history is replayed, as one world of `rc_world`, in which each seat's events stand in
//! order. So the headline holds of what the threads did, and of what they had done at each moment.
//!
//! What one seat does at the wire, turn by turn, knows of no thread and no channel: the next of its works, the next of
//! the messages to its node, and what is left of both. What a run of turns has come to is said of the seat alone: what
//! it has committed since it began are the events of its works, in order, and else deliveries of messages to its node,
//! each of one that it had not delivered. Where nothing more is to be delivered, it has delivered every message to its
//! node in the history that it has seen.
//!
//! `run_nodes` hands each thread its seat, wakes it by hints when there is something to do or to look for, waits where
//! the steps say so until all is quiet, and gives all seats back. A hint carries no fact: a seat that is told to look
//! and finds nothing has lost nothing, and before it ends without a fault each seat does what is left of its works and
//! looks until nothing is left to be delivered. No clause says who comes first, that a message is found before its seat
//! looked, or that a call gets its turn.
//!
//! To be read in this order. The ledger: `view`, what a token knows; `specs/Views.antt`, what a step makes of it;
//! `specs/Law.antt`, the rule; `law`, the kinds of step; `ledger` with `specs/Passes.antt`, the calls. The journal:
//! `names`; `specs/Sound.antt`, what is true of a journal; `specs/JournalCalls.antt`, what the calls tell; `opening`,
//! how a wire begins; `token`; `journal`. `pages` and `index` are what it is stored in. The seat, over `rc_world`,
//! whose `NodeState` is the state of one node: `work`, what a seat can be given; `specs/SeatView.antt`, a seat as a
//! value; `specs/SeatHolds.antt`, what is true of each seat; `specs/Works.antt`, what a work is as an event; `seat`
//! and `at_journal`, the calls, over `stepping` and `offer`. The wire: `wire`, the calls, with `begin` and `end`. The
//! threads: `steps`, what nodes are given to do; `specs/Runs.antt`, what is said of a run of turns; `around`, what
//! else happens at a commit; `turns`, the turns of one seat; `specs/Ends.antt`, what is promised of each seat; `gate`;
//! `board`, what the threads and their caller share; `seats`, what one thread does; `nodes`, the call.
//!
//! Over them stands what the command `threads` has nodes do: all hosts are started, a table is made for one of them and
//! written to, and that one is then suspected and decided about. `specs/Workload.antt` says what is done; `workload`
//! has it as a list of steps; `world` is the call.
#![tactic(auto)]

mod around;
mod at_journal;
mod begin;
mod board;
mod end;
mod gate;
mod index;
mod journal;
mod law;
mod ledger;
mod names;
mod nodes;
mod offer;
mod opening;
mod pages;
mod seat;
mod seats;
mod stepping;
mod steps;
mod token;
mod turns;
mod view;
mod wire;
mod work;
mod workload;
mod world;

pub use around::Around;
pub use gate::Gate;
pub use journal::Journal;
pub use law::{Law, Pass};
pub use ledger::Ledger;
pub use names::Naming;
pub use nodes::run_nodes;
pub use opening::Opening;
pub use seat::Seat;
pub use steps::Step;
pub use token::Token;
pub use view::{Desk, Place, View};
pub use wire::Wire;
pub use work::Work;
pub use world::world_of_threads;

/// The name of a seat: that of the node which it is of.
pub use rc_types::NodeName as SeatName;
