//! Nodes of the protocol for C and for whatever calls C: a static library.
//!
//! A node lives behind a `SevunthiNode`, a place in the caller's memory that is all zeros where it is empty. One thread
//! at a time may use it. Each call answers a number: `numbers` has them. Whatever a call is given, it answers; a wrong
//! call changes nothing. `cluster/sevunthi.h` says the same in C's words.
#![tactic(auto)]

mod cell;
mod giving;
mod handle;
mod looking;
mod making;
mod numbers;
mod taking;

pub use handle::SevunthiNode;
pub use looking::SevunthiInfo;
