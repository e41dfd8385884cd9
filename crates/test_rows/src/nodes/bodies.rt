//! How messages are written: who sends whom what.

use crate::lines::Page;
use rc_types::Message;

/// Writes a line for each message that a node sends, or that it sends nothing.
pub fn write_all(sent: &[Message], page: &mut Page) {
    if sent.is_empty() {
        page.put("\n    nothing");
    }
    for message in sent {
        page.put("\n    ");
        page.message(message);
    }
}

/// Writes a line for each message of a world from this number on, or that there is none.
pub fn write_numbered(sent: &[Message], first: usize, page: &mut Page) {
    if sent.len() <= first {
        page.put("\n    nothing");
    }
    for (number, message) in sent.iter().enumerate().skip(first) {
        write!(page, "\n    {number}. ");
        page.message(message);
    }
}
