//! Leaders: coordinators that take over from one another, and whose journal stands in a store with transactions.
//! Nothing here runs: the functions have empty bodies, and their contracts are theorems on the definitions.
//!
//! Whoever takes the lead puts the next term into the store, and reads there, in the same transaction, what the journal
//! is. Each other transaction compares the term, so that an earlier leader adds nothing from then on: it is *fenced*.
//! It may go on for ever and not know that. What it sends leaves only behind a transaction of its own term that came
//! after the step. The theorem is that such leaders, one after another, are one life of one process by the rules of
//! `rc_history`. So all that is proved of processes that end at any moment holds of them.
//!
//! To be read in this order: `specs/Store.antt`, the store, and what transactions leave there; `specs/Leaders.antt`,
//! the processes, what may happen, and when; `specs/Claims.antt`, what that is in one life, and the law; `laws`;
//! `specs/OfLeaders.antt` and `promises`, what follows of the headline and of clients; and `specs/Worked.antt`, a run
//! (`worked`). It stands on `rc_history` and what is said of that, and knows no code of a node and no bytes.
#![tactic(auto)]

pub mod laws;
pub mod promises;
pub mod worked;
