//! A writer of JSON, which needs no answer at each word.

use std::alloc::{AllocError, Global};
use std::fmt::Display;

/// Writes one JSON value. It sets the commas; who calls it opens and closes objects and lists. Once it was refused
/// memory it writes nothing more, and says so at the end.
#[derive(Drop)]
pub struct JsonWriter {
    text: String,
    /// Whether what comes next is the first of its list or object, or stands behind a name.
    is_first: bool,
    refused: bool,
}

impl JsonWriter {
    /// A writer that has written nothing yet.
    pub fn new(alloc: Global) -> JsonWriter {
        JsonWriter {
            text: String::new(alloc),
            is_first: true,
            refused: false,
        }
    }

    /// Writes this as it is.
    fn put<T: Display + Drop>(&mut self, letters: T) {
        if !self.refused {
            self.refused = write!(self.text, "{letters}").is_err();
        }
    }

    /// Sets the comma between the one before and the next one, if there was one before.
    fn separate(&mut self) {
        if !self.is_first {
            self.put(",");
        }
        self.is_first = false;
    }

    /// Begins a new line, in which the next item or member stands.
    pub fn line(&mut self) {
        self.separate();
        self.put("\n");
        self.is_first = true;
    }

    /// Opens an object or a list by this bracket.
    pub fn open(&mut self, bracket: &str) {
        self.separate();
        self.put(bracket);
        self.is_first = true;
    }

    /// Closes an object or a list by this bracket.
    pub fn close(&mut self, bracket: &str) {
        self.put(bracket);
        self.is_first = false;
    }

    /// The name of a member, whose value comes next.
    pub fn name(&mut self, name: &str) {
        self.separate();
        self.put("\"");
        self.put(name);
        self.put("\":");
        self.is_first = true;
    }

    /// A number, `true`, `false` or `null`.
    pub fn value<T: Display + Drop>(&mut self, value: T) {
        self.separate();
        self.put(value);
    }

    /// A text of letters that JSON takes as they are: a name, an id, digits.
    pub fn word<T: Display + Drop>(&mut self, word: T) {
        self.separate();
        self.put("\"");
        self.put(word);
        self.put("\"");
    }

    /// A member that is a number, `true`, `false` or `null`.
    pub fn member<T: Display + Drop>(&mut self, name: &str, value: T) {
        self.name(name);
        self.value(value);
    }

    /// A member that is a text of letters that JSON takes as they are. So are numbers up to 2^64, which many readers
    /// round where they stand as numbers.
    pub fn word_member<T: Display + Drop>(&mut self, name: &str, word: T) {
        self.name(name);
        self.word(word);
    }

    /// Bytes, as a text of hexadecimal digits, two a byte.
    pub fn bytes(&mut self, bytes: &[u8]) {
        self.separate();
        self.put("\"");
        for byte in bytes {
            self.hexadecimal(*byte);
        }
        self.put("\"");
    }

    /// Two hexadecimal digits.
    fn hexadecimal(&mut self, byte: u8) {
        if !self.refused {
            self.refused = write!(self.text, "{byte:02x}").is_err();
        }
    }

    /// A text of any letters.
    pub fn text(&mut self, text: &str) {
        self.separate();
        self.put("\"");
        for letter in text.chars() {
            self.letter(letter);
        }
        self.put("\"");
    }

    /// A letter of a text. With `<` as its number a text can stand in a page.
    fn letter(&mut self, letter: char) {
        match letter {
            '"' => self.put("\\\""),
            '\\' => self.put("\\\\"),
            '<' => self.put("\\u003c"),
            _ => match u8::try_from(u32::from(letter)) {
                Ok(byte) if byte < b' ' => {
                    self.put("\\u00");
                    self.hexadecimal(byte);
                }
                _ => self.put(letter),
            },
        }
    }

    /// What was written, with a new line behind it.
    ///
    /// # Errors
    ///
    /// Memory was refused.
    pub fn end_line(mut self) -> Result<String, AllocError> {
        self.put("\n");
        self.end()
    }

    /// What was written.
    ///
    /// # Errors
    ///
    /// Memory was refused.
    pub fn end(self) -> Result<String, AllocError> {
        let JsonWriter { text, refused, .. } = self;
        if refused {
            return Err(AllocError);
        }
        Ok(text)
    }
}
