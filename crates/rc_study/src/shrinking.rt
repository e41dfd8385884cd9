//! A smallest scenario whose report still has a line that begins with a given text; and scenarios as text.
//!
//! Events are left out, many at once and then one by one, and what is left is played each time, until no single one can
//! be left out. Where an event is gone, so are the messages that it sent; a later delivery keeps its message, which
//! then has another number. It is not claimed that no smaller scenario does it, only tried.
//!
//! A setup with the events of a world, or with those of a scenario that are left, is written as a scenario of format 2:
//! one event in each line. Nothing is claimed of the text.
//!
//! To be read in this order: `courses`, what is left; `goals`, the line; `trying`, how what is left is played;
//! `searching`; `saving`, a scenario as text.

mod courses;
mod goals;
mod saving;
mod searching;
mod trying;

pub use saving::{Left, saved_events, saved_scenario};
pub use searching::shrink;
