//! What is promised, on top of all theorems. Nothing here runs: the functions have empty bodies, and their contracts
//! are theorems on the definitions.
//!
//! What a client may rely on (`service`), that a run which breaks a sentence refutes it, and that none does (`runs`),
//! and the headline (`headline`). To be read in this order: `specs/Service.antt`, which speaks of messages, keys, terms
//! and moments only; `service`; `specs/HeadlineClaims.antt` and `headline`; `specs/ServiceApart.antt`, the same of
//! nodes that run apart, and `specs/OfProcesses.antt`, of processes that end at any moment.
//!
//! What the store promises, in the usual words of operations, their invocations and responses, and the order of time:
//! linearizable (`linearizable`), also of conditional writes (`conditional`); what a read does not miss that is
//! confirmed (`confirmed`), and that a run which breaks that refutes it (`ordered_runs`). To be read in this order:
//! `specs/Confirmed.antt`, what a confirmed read is; `specs/Linearizable.antt`, one page; `linearizable`;
//! `specs/Conditional.antt`.
//!
//! And the same of what has left processes that end at any moment: `specs/Linearized.antt`, the same words of
//! operations of any kind; `specs/LinearProcesses.antt`, which operations processes have, and the sentence;
//! `linear_lives`; and `specs/WorkedLives.antt`, two runs (`worked_lives`), written down as `specs/Script.antt` says.
#![tactic(auto)]

pub mod conditional;
pub mod confirmed;
pub mod headline;
pub mod linear_lives;
pub mod linearizable;
pub mod ordered_runs;
pub mod runs;
pub mod service;
pub mod worked_lives;
