//! What a node keeps, so that it outlives its process: journals of its works, and saves, which keep a journal short.
//!
//! A master can not be written down, but a node is what its works have made of it. `keeps` says which of them have to
//! be kept, by the definition of which `rc_history` proves that a node can be made anew; `write_down` adds a work to a
//! journal, which is a list of bytes, as one record; and `read_back` gives the works of a journal up to the first
//! record that is damaged or cut short.
//!
//! A record is the length of a coded work in eight bytes, a sum over its bytes in four, and these bytes: the version of
//! the format, which is 1, the kind of the work in one byte, and its fields, as `rc_codec` codes them. The sum guards
//! against accidents: a write that was cut off, a block of zeros, a bit that fell over. It does not guard against
//! whoever means to deceive, who can compute it too. `seal` and `unseal` put other bytes into such a frame, and take
//! them out.
//!
//! A save is all of the coordinator, or a host without its master: what it was made with, how often it was started,
//! whether a server ran on it, and all that it keeps as a backup, closed and open replicas and marks of what was freed
//! and of who is fenced. It stands in the frame of a record, so a journal can begin with a save.
//!
//! To be read in this order. Journals: `specs/Keeping.antt` and `keeping`, which works are kept; `specs/Spelling.antt`,
//! the bytes; `specs/Claims.antt`, what is promised of a journal; `works`, `records` and `journals`, the calls; `laws`.
//! Saves: `specs/Saved.antt`, the bytes; `specs/Order.antt`, what all saves have in common; `specs/SaveClaims.antt`,
//! what is promised; `saves`, the two calls; `save_laws`. Files by which a process comes back, a save and behind it a
//! record for each work that was written down since: `specs/Files.antt`, the bytes, and what a crash leaves of them;
//! `specs/Standing.antt`, for which works of a life a file stands, and which node is made of it; `files`, the laws.
#![tactic(auto)]

mod book_putting;
mod book_reading;
mod building;
mod faults;
pub mod files;
mod journals;
mod keeping;
pub mod laws;
mod putting;
mod reading;
mod records;
pub mod save_laws;
mod saves;
mod seals;
mod works;

pub use faults::SaveFault;
pub use journals::{read_back, write_down};
pub use keeping::keeps;
pub use saves::{load, save_into};
pub use seals::{seal, seal_after, unseal};
pub use works::{decode_work, encode_work};
