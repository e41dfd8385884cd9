//! Rows of one line each. A row is a command, numbers, and words for the reader alone. The program writes each line
//! with its answer, so that what it writes can be read by itself.

mod numbers;
mod page;
mod running;

pub use numbers::{FIRST, Numbers, first_of};
pub use page::{Page, closed_or_open, up_or_crashed};
pub use running::{Commands, Desk, run};
