//! What a row says.

use std::alloc::{AllocError, Global};

/// What the command line is run on.
#[derive(Clone, Copy)]
pub enum Inputs {
    /// The input.
    Whole,
    /// Each front of the input, from no bytes to all.
    Fronts,
    /// Each line of the input.
    Lines,
    /// The input, and then once more for each number of bytes below those of the output: the writer has room for just
    /// these.
    Rooms,
}

/// A command line, and what it reads and writes.
#[derive(Clone, Copy)]
pub struct Row<'a> {
    /// Its first line.
    pub title: &'a str,
    /// After `args: `, the words of the command line.
    words: &'a str,
    /// After `text: `, one word more, in which spaces may stand.
    text: &'a str,
    /// What stands below the first empty line.
    body: &'a str,
    /// With a line `bytes: Latin-1`, each character of the body is the byte of its number.
    has_latin_bytes: bool,
    /// After `spaces: `, so many spaces follow the body.
    spaces: usize,
    /// With a line `inputs: ..`, its input stands for several.
    pub inputs: Inputs,
    /// With a line `shows: its last line`, only that is shown of its output, and nothing of standard error.
    pub shows_end: bool,
    /// After `gives: `, the reader gives at most so many bytes a call.
    pub gives: usize,
    /// With a line `fails: at its end`, the reader fails in place of ending.
    pub fails: bool,
    /// After `takes: `, the writer takes at most so many bytes a call.
    pub takes: usize,
    /// After `room: `, the writer fails once it has so many bytes.
    pub room: usize,
}

impl<'a> Row<'a> {
    /// The row whose text this is, without the `== ` at its front.
    pub fn of(text: &'a str) -> Row<'a> {
        let (head, body) = text.split_once("\n\n").unwrap_or((text, ""));
        let mut row = Row {
            title: head.lines().next().unwrap_or(""),
            words: "",
            text: "",
            body,
            has_latin_bytes: false,
            spaces: 0,
            inputs: Inputs::Whole,
            shows_end: false,
            gives: usize::MAX,
            fails: false,
            takes: usize::MAX,
            room: usize::MAX,
        };
        for line in head.lines() {
            if let Some((key, value)) = line.split_once(": ") {
                row.set(key, value);
            }
        }
        row
    }

    /// Notes what a line says; a line of another kind says nothing.
    fn set(&mut self, key: &str, value: &'a str) {
        match key {
            "args" => self.words = value,
            "text" => self.text = value,
            "bytes" => self.has_latin_bytes = true,
            "spaces" => self.spaces = number(value),
            "inputs" if value == "fronts" => self.inputs = Inputs::Fronts,
            "inputs" if value == "rooms" => self.inputs = Inputs::Rooms,
            "inputs" => self.inputs = Inputs::Lines,
            "shows" => self.shows_end = true,
            "gives" => self.gives = number(value),
            "fails" => self.fails = true,
            "takes" => self.takes = number(value),
            "room" => self.room = number(value),
            _ => {}
        }
    }

    /// The same, with a writer that fails once it has so many bytes.
    pub fn with_room(self, room: usize) -> Row<'a> {
        Row { room, ..self }
    }

    /// The words of its command line.
    pub fn words(&self, alloc: Global) -> Result<Vec<String>, AllocError> {
        let mut words = Vec::new(alloc);
        for word in self.words.split_whitespace() {
            words.push(String::from_str(alloc, word)?)?;
        }
        if !self.text.is_empty() {
            words.push(String::from_str(alloc, self.text)?)?;
        }
        Ok(words)
    }

    /// All that its reader has.
    pub fn input(&self, alloc: Global) -> Result<Vec<u8>, AllocError> {
        let mut bytes = if self.has_latin_bytes {
            latin_bytes(alloc, self.body)?
        } else {
            self.body.as_bytes().to_vec(alloc)?
        };
        bytes.resize(bytes.len().saturating_add(self.spaces), b' ')?;
        Ok(bytes)
    }
}

/// The numbers of the characters, below 256.
fn latin_bytes(alloc: Global, text: &str) -> Result<Vec<u8>, AllocError> {
    text.chars()
        .filter_map(|character| u8::try_from(u32::from(character)).ok())
        .collect(alloc)
}

/// The number that a value writes; 0 where it writes none.
fn number(value: &str) -> usize {
    value.parse::<usize>().unwrap_or(0)
}
