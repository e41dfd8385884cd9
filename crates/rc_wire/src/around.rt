//! What else happens at a commit.

ghost use Rattle.std.specs.Prelude.{◌≡◌};

use rc_types::{Message, NodeName};
use std::alloc::AllocError;
use std::sync::Wait;

/// What is done before and after each commit of a seat. No clause of a turn depends on it.
pub trait Around {
    /// The seat's step, which sends these messages, is about to be committed.
    fn before_commit<R: Wait>(&mut self, rt: &R, seat: NodeName, sent: &[Message]);

    /// It has been committed.
    ///
    /// # Errors
    ///
    /// `OutOfMemory` (F1): memory was refused.
    fn after_commit<R: Wait>(&mut self, rt: &R, seat: NodeName) -> Result<(), AllocError>;
}
