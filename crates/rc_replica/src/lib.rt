//! What one backup keeps of one master: its replicas, the segments that it has freed, and whether it is fenced. A
//! replica is what a backup keeps of one segment of the master's log. Its entries only grow, and it closes only where
//! it has exactly the stated number of them. The words of the contracts are those of `rc_model`'s `Replica` and
//! `Backup`.
//!
//! To be read in this order: `kept`, one replica; `taking`, what becomes of it by a message; `held`, all of a master.
#![tactic(auto)]

mod copies;
mod held;
mod held_sizes;
mod kept;
pub mod laws;
mod sizes;
mod taking;

pub use held::Held;
pub use kept::Replica;
pub use taking::Request;
