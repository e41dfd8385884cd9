//! The protocol as pure definitions, in `specs/`. Nothing here runs: the functions of this crate
//! have empty bodies, and their contracts are laws of the definitions.
#![tactic(auto)]

pub mod backups;
pub mod choices;
pub mod coordinators;
pub mod laws;
pub mod masters;
pub mod sends;
pub mod worlds;
