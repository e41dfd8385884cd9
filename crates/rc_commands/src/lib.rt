//! What a command line of the program `ramseg` asks for.
#![tactic(auto)]

mod asking;
mod commands;
mod numbers;

pub use asking::{Asked, Drawing, asked_for};
