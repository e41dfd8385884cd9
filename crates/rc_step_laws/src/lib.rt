//! What each step of a node keeps, and what holds of every list of events by that. Nothing here runs: the functions
//! have empty bodies, and their contracts are theorems on the definitions.
//!
//! `specs/Facts.antt` has the facts that hold in every world, `Later.antt` what only grows, `Moves.antt` what a step
//! may change and say, and `Words.antt` the words of these. Each rule of each node keeps the facts, and says only what
//! it may: `master_laws`, `backup_laws` and `coordinator_laws`. To be read in this order: `Words`, `Facts`, `Later`,
//! `Moves`, and the three `*Claims`; the proofs of a master's rules (`Writing`, `FollowUps`, `ListRules`, `Ticks`,
//! joined in `MasterSteps`), of a backup's (`Backups`), of the coordinator's (`CoordinatorSteps`).
//!
//! The log, over every list of events: nothing acknowledged is missing from a recovered log and nothing in it is
//! invented (`safety`, from the facts of `facts`), also where segments are freed (`freed`). And what that means in
//! words: which places are recovered, and that they stay (`durable`, `kept`), that logs only grow (`logs`), that
//! commits rise (`commits`), that fences hold (`fences`), what is sent in which view of its sender (`sends`).
//! `proofs/Worlds.antt` puts the steps together, so that the facts hold in every world. How great the numbers of a
//! world get is in `bounds`. It all stands on `rc_model` alone.
#![tactic(auto)]

pub mod backup_laws;
pub mod bounds;
pub mod commits;
pub mod coordinator_laws;
pub mod durable;
pub mod facts;
pub mod fences;
pub mod freed;
pub mod kept;
pub mod logs;
pub mod master_laws;
pub mod member_laws;
pub mod safety;
pub mod sends;
