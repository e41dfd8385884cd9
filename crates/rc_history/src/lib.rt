//! Histories: what a list of events says of one node, and which lists of steps of single nodes are a history. And
//! lives: nodes whose processes end at any moment, and come back from their journals. Nothing here runs: the functions
//! have empty bodies, and their contracts are theorems on the definitions.
//!
//! The world of `rc_model` holds all nodes at once. Whoever runs nodes apart, on threads or on a transport, has each
//! node by itself, as it takes its own steps. This crate says that the two are one. It stands on `rc_types` and
//! `rc_model` alone and knows no code of a node, no bytes, no limit on the number of events, and no invariant.
//!
//! Histories are to be read in this order: `specs/Nodes.antt`, a node by itself, and where it is in a world;
//! `specs/Events.antt`, lists of events, and those of one node; `specs/Apart.antt`, steps that nodes take apart;
//! `specs/Claims.antt`, the laws; `specs/Remade.antt`, what to keep of a node's works so that it can be made anew, with
//! the laws of that. The functions of `laws` carry them. Crates above cite the lemmas of `proofs/` that these rest on.
//!
//! A process keeps a node, writes down which works it gave it, and holds back what the node sends until enough of that
//! is safe. It may end between any two steps, and is left with any beginning of its journal that has at least what is
//! safe; of this the node is made anew. The theorem is that all messages that have ever left were sent in one history
//! of nodes that never ended. So all that is proved of histories holds of them. Lives are to be read in this order:
//! `specs/Lives.antt`, one node, its journal, and what each of its steps rests on; `specs/Processes.antt`, all
//! processes, what may happen to them and when; `specs/LifeClaims.antt`, the laws. The function of `lives` carries
//! them.
#![tactic(auto)]

pub mod laws;
pub mod lives;
