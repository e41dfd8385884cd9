//! Owners, terms, versions and writes, over every list of events. Nothing here runs: the functions have empty bodies,
//! or call others that have, and their contracts are theorems on the definitions.
//!
//! Each point has one chain of owners (`owners`, `grants`, `recoveries`), each term is issued once (`terms`), each part
//! holds what it took over (`parts`), each Data is the log cut to its part (`data`, `recovered`), a grant starts from
//! its base (`granted`), a handover keeps what was acknowledged (`handovers`), and versions rise over owners
//! (`versions`): the headline's third clause; all facts together (`facts`).
//!
//! What masters do, in the words of a client and of an operator: a write is acknowledged once, as it was asked, in the
//! step in which it is stored on all members (`acks`); commits come in the order of segments (`commits`); logs stay
//! within their limits (`limits`); what is durable was sent, and what was acknowledged was durable (`durable`), and
//! stays with its key from owner to owner (`durable_handovers`); a run that these words speak of (`shown`).
//!
//! What a refused choice of the log means: a segment of the master is gone (`loss`). And a Fetch of what was chosen is
//! answered (`fetching`), and a part whose entries are durable is granted (`granting`).
//!
//! It stands on `rc_step_laws`, and what `rc_model` proves of the choice of the log.
#![tactic(auto)]

pub mod acks;
pub mod commits;
pub mod data;
pub mod durable;
pub mod durable_handovers;
pub mod facts;
pub mod fetching;
pub mod granted;
pub mod granting;
pub mod grants;
pub mod handovers;
pub mod limits;
pub mod loss;
pub mod owners;
pub mod parts;
pub mod recovered;
pub mod recoveries;
pub mod shown;
pub mod terms;
pub mod versions;
