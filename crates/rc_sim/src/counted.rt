//! Readers and writers that tell of their failures.

ghost use Rattle.std.specs.Prelude.{◌≡◌, ◌≤◌, length, IfOk};
ghost use Rattle.std.specs.Io.KnownBytes.{ReadConsumes, WriteAppends};
ghost use Rattle.rc_sim.specs.Failures.{after_read, after_write};

use std::io;
use std::io::{Read, Write};

/// A reader or a writer, and how often it has failed. A call fails where it ends with an error, of
/// any kind, or where it takes none of some bytes.
#[derive(Drop)]
pub struct Counted<T> {
    /// The reader or the writer.
    pub inner: T,
    /// How often it has failed; after 2^64 failures the count begins again at 0.
    pub failures: u64,
}

impl<T> Counted<T> {
    /// None of its calls has failed yet.
    pub fn new(inner: T) -> Counted<T>
        ensures { result ≡ record { inner = inner; failures = 0 } }
    {
        Counted { inner, failures: 0 }
    }
}

impl<R: Read> Counted<R> {
    /// One read into the buffer: how many bytes came.
    pub fn read(&mut self, buffer: &mut [u8]) -> io::Result<usize>
        ensures bound { IfOk result (λ count. count ≤ length buffer.new) }
        ensures bytes { ReadConsumes (R.remaining self.old.inner) (R.remaining self.new.inner) result buffer.new }
        ensures failures { self.new.failures ≡ after_read result self.old.failures }
    {
        let count = self.inner.read(buffer);
        if count.is_err() {
            self.failures = self.failures.wrapping_add(1);
        }
        count
    }
}

impl<W: Write> Counted<W> {
    /// One write of some bytes: how many of them were taken.
    pub fn write(&mut self, bytes: &[u8]) -> io::Result<usize>
        ensures bound { IfOk result (λ count. count ≤ length bytes.now) }
        ensures bytes { WriteAppends (W.contents self.old.inner) (W.contents self.new.inner) result bytes.now }
        ensures failures { self.new.failures ≡ after_write result self.old.failures }
    {
        let count = self.inner.write(bytes);
        if !matches!(count, Ok(taken) if taken > 0) {
            self.failures = self.failures.wrapping_add(1);
        }
        count
    }
}
