//! The sections of the input. Each begins with a line `=== TITLE`; what stands before the first one is for the reader.

/// What the rows of a section are about.
#[derive(Clone, Copy)]
pub enum Topic {
    /// Single parts, line by line.
    Parts,
    /// Nodes and whole worlds, line by line.
    Nodes,
    /// Command lines of `ramseg`.
    CommandLines,
    /// The calls that `docs/CALLS.md` lists.
    Calls,
}

impl Topic {
    /// The topic of the section with this title.
    pub fn named(title: &str) -> Option<Topic> {
        match title {
            "parts" => Some(Topic::Parts),
            "nodes" => Some(Topic::Nodes),
            "command lines" => Some(Topic::CommandLines),
            "calls" => Some(Topic::Calls),
            _ => None,
        }
    }
}

/// The title of a section, and its rows, which stand below it.
pub fn titled(section: &str) -> (&str, &str) {
    section.split_once('\n').unwrap_or((section, ""))
}
