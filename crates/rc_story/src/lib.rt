//! A run as data: its setup, its events and its messages as JSON. Setup and events are spelled as scenarios spell them.
//! A message is an object with its kind, from whom to whom it goes, and what it says, each field under its own name.
//! Lists are always whole. `docs/schemas/log.json` has the form.
//!
//! To be read in this order: `writer`, which writes JSON; `messages`; `events`. Nothing is claimed of the text. Writing
//! it ends, and fails only without memory. `tools/story` makes lines and pictures of it.
#![tactic(auto)]

mod events;
mod messages;
mod writer;

pub use events::{put_deliver, put_event, put_setup};
pub use messages::{message_json, put_message};
pub use writer::JsonWriter;
