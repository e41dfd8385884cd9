//! Who looks on while a run is played. Nothing of the run depends on that.

use rc_types::Message;

/// Who looks on.
pub trait Onlooker {
    /// These are all messages that were ever sent. The answer is how many there are to be before it looks again.
    fn look(&mut self, sent: &[Message]) -> usize;
}

/// Nobody.
impl Onlooker for () {
    fn look(&mut self, _sent: &[Message]) -> usize {
        usize::MAX
    }
}

/// The onlooker looks at these, if so many are there. The answer is how many there are to be before it looks again.
#[inline]
pub(crate) fn looked<W: Onlooker>(onlooker: &mut W, due: usize, sent: &[Message]) -> usize {
    if due <= sent.len() {
        return onlooker.look(sent);
    }
    due
}
