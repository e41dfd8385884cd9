//! A master: it keeps a log, owns ranges of tables, takes clients' writes and reads, and recovers parts of crashed
//! masters' logs. "The master" in `docs/PROTOCOL.md` has its rules.
//!
//! What it sends comes of lists, each made by one call, which adds them to the others and changes nothing else: Places
//! and Appends (`placing`, `appending`), Closes and Frees (`closing`), what is sent again (`again`, `lacking`,
//! `copies`), what a Tick reminds of (`timer`, `reminding`), the single messages (`single`). By log and notes together
//! it acknowledges what has become durable (`acknowledging`), gives a client's write its version (`versions`), tells
//! that a recovered part is durable (`told_parts`), and rolls to a new head whose digest leaves out the segments that
//! are dead (`rolling`, `dead`).
//!
//! The words of the contracts are those of `rc_model`'s `Master`, `Heads`, `Versions`, `Writing`, `ListRules`,
//! `FollowUps`, `MasterStep` and `MasterTick`.
#![tactic(auto)]

mod acknowledging;
mod again;
mod appending;
mod closing;
mod copies;
mod dead;
mod following;
mod lacking;
mod listing;
mod looks;
mod master;
mod placing;
mod recovering;
mod reminding;
mod replaying;
mod rolling;
mod single;
mod state;
mod stepping;
mod tasks;
mod telling;
mod timer;
mod told_parts;
mod versions;
mod writing;

pub use master::Master;
