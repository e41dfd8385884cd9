//! Readers and writers over memory, which take their time, or fail.

use std::io;
use std::io::{Error, Read, Write};

/// A reader of bytes.
#[derive(Clone, Copy)]
pub struct Source<'a> {
    /// What is left.
    pub bytes: &'a [u8],
    /// It gives at most so many bytes a call.
    pub gives: usize,
    /// It fails in place of ending.
    pub fails: bool,
}

impl<'a> Read for Source<'a> {
    fn read(&mut self, buffer: &mut [u8]) -> io::Result<usize> {
        if self.fails && self.bytes.is_empty() {
            return Err(Error::other("the reader fails"));
        }
        let count = self.bytes.len().min(buffer.len()).min(self.gives);
        let (given, left) = self.bytes.split_at(count);
        buffer[..count].copy_from_slice(given);
        self.bytes = left;
        Ok(count)
    }
}

/// A writer that keeps what it takes. One that takes no bytes a call says that it took 0.
#[derive(Drop)]
pub struct Sink {
    /// What it has taken.
    pub taken: Vec<u8>,
    /// It takes at most so many bytes a call.
    pub takes: usize,
    /// It takes so many bytes more; then it fails.
    pub room: usize,
}

impl Write for Sink {
    fn write(&mut self, bytes: &[u8]) -> io::Result<usize> {
        if self.room == 0 {
            return Err(Error::other("the writer is full"));
        }
        let count = bytes.len().min(self.takes).min(self.room);
        self.taken.extend_from_slice(&bytes[..count])?;
        self.room -= count;
        Ok(count)
    }

    fn flush(&mut self) -> io::Result<()> {
        Ok(())
    }
}
