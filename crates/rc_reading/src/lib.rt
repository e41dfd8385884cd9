//! Scenarios of both formats, as they are read from their bytes.
#![tactic(auto)]

mod faults;
mod fields;
mod hosts;
mod kinds;
pub mod laws;
pub mod limits;
pub mod lists;
mod names;
mod numbers;
pub mod objects;
mod pairs;
mod reading;
mod scenarios;
pub mod simple;
mod taken;
pub mod tokens;
pub mod wanted;
mod whole;

pub use faults::ReadFault;
pub use hosts::Hosts;
pub use kinds::Kinds;
pub use reading::read_scenario;
pub use scenarios::{Scenario, ScenarioEvent};
