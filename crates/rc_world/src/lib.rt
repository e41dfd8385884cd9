//! A world: all nodes of the protocol in one value. Each node follows the rules of `rc_model` to the letter, so a
//! world is what the definitions say that its events lead to, and what is proved of these holds of it.
#![tactic(auto)]

mod head;
mod host;
pub mod laws;
mod lending;
mod node;
mod nodes;
mod outside;
mod running;
mod stopping;
mod work;
mod world;

pub use head::HostHead;
pub use host::is_for_backup;
pub use node::NodeState;
pub use rc_audit::audit;
pub use rc_types::Breach;
pub use running::run;
pub use work::StepFault;
pub use world::World;
