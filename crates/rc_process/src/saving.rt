//! A save that is taking the journal's place.

/// How many bytes the journal had when the save was begun, and how many bytes the save has.
#[derive(Clone, Copy, Debug)]
pub struct Saving {
    /// So many bytes of the journal the save stands for.
    pub cut: usize,
    /// So many bytes it takes.
    pub size: usize,
}
