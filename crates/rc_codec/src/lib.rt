//! Messages and events as bytes, so that nodes can live in processes of their own.
//!
//! What is written as a whole begins with one byte, the version of the format, which is 1. A message or
//! an event follows: its kind in one byte where it has kinds, and its fields in the order in which
//! `rc_types` declares them; but a Plan has attempt, master, head, rows and parts. A number has as many
//! bytes as its type, the least first, and a `usize` has eight; a flag is 0 or 1; a list is its length
//! in eight bytes and its elements; what may be absent is 0, or 1 and what there is. So every value has
//! bytes, and one list of bytes only; and no two values have the same, nor does one begin with another
//! (`laws`).
//!
//! Decoding answers any bytes. It reads from left to right and stops where the bytes end, and no memory
//! is taken by a length that was only read: a value's bytes are copied once they are seen to be there,
//! and a list grows as its elements are read.
//!
//! To be read in this order: `specs/Parts.antt`, `Fields.antt`, `Bodies.antt` and `Events.antt`, the bytes
//! of numbers and lists, of the parts, and of each kind, with how each of them is read; `specs/Claims.antt`,
//! what is promised; `whole`, the calls; `coded`, the two traits that the parts have in common.
//! `specs/Reading.antt` has what readers are made of, which only proofs need.
#![tactic(auto)]

mod bodies;
mod coded;
mod events;
mod faults;
pub mod laws;
mod lists;
mod messages;
mod numbers;
mod rows;
mod tuples;
mod whole;

pub use coded::{Put, Take, put_kind};
pub use events::take_order;
pub use faults::DecodeFault;
pub use whole::{decode_event, decode_message, encode_event, encode_message};
