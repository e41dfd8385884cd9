//! The list of servers that the coordinator keeps and sends round: every id that was ever enlisted,
//! in the order of enlisting, with a mark whether it is up, and a version that rises with each
//! change. An id that has crashed is never up again.
#![tactic(auto)]

mod list;
mod marks;

pub use list::ServerList;
