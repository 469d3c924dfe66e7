ghost use Rattle.std.specs.Prelude.{◌≡◌, ℕ, ◌<◌, List, Option, length};
ghost use Rattle.std.specs.Io.{ReadsAtMost, WritesAtMost};
ghost use Rattle.std.specs.Io.KnownBytes.{ReadConsumes, WriteAppends};
ghost use Rattle.counted.specs.Counting.{CountsFailure, CountsIdleWrite};

use std::io;
use std::io::{Read, Write};

/// A reader that counts its failed calls.
///
/// It is no subtrait of std's `Read`, whose `read` could then be called past the count.
pub trait CountedRead {
    // The bytes that reads will give from here on, where they are known.
    ghost remaining: { Self → Option (List ℕ) };

    // How many reads have failed.
    ghost failures: { Self → ℕ };

    /// Reads into the front of `buf` and tells how many bytes it read: 0 at the end, or where `buf` has no
    /// room. A call that ends with an error is counted. The count is a machine number, so a caller has to
    /// know that there is room for one more.
    fn read(&mut self, buf: &mut [u8]) -> io::Result<usize>
        requires { failures self.old < u64.MAX }
        ensures bound { ReadsAtMost result buf.new }
        ensures bytes { ReadConsumes (remaining self.old) (remaining self.new) result buf.new }
        ensures count { CountsFailure (failures self.old) (failures self.new) result };
}

/// A writer that counts its failed calls.
///
/// It is no subtrait of std's `Write`, whose `write` could then be called past the count.
pub trait CountedWrite {
    // The bytes that the writer holds, where they are known.
    ghost contents: { Self → Option (List ℕ) };

    // How many writes have failed or have taken no byte.
    ghost failures: { Self → ℕ };

    /// Writes from the front of `buf`, which isn't empty, and tells how many bytes it took. A call that ends with an error or takes no
    /// byte is counted. The count is a machine number, so a caller has to know that there is room for one more.
    fn write(&mut self, buf: &[u8]) -> io::Result<usize>
        requires room { failures self.old < u64.MAX }
        // A write of nothing takes no byte of any device, so with it a caller could have a failure counted that is none of the device,
        // and then say that the device failed.
        requires some { 0 < length buf.now }
        ensures bound { WritesAtMost result buf.now }
        ensures bytes { WriteAppends (contents self.old) (contents self.new) result buf.now }
        ensures count { CountsIdleWrite (failures self.old) (failures self.new) result };
}

/// A reader or a writer with a count of its failed calls.
#[derive(Debug, Drop)]
pub struct Counted<T> {
    inner: T,
    failures: u64,
}

impl<T> Counted<T> {
    ghost use Rattle.counted.specs.Counted.{inner_of, failures_of};

    /// Counts from 0 on. It takes no memory.
    pub fn new(inner: T) -> Counted<T>
        ensures inner { inner_of result ≡ inner }
        ensures none { failures_of result ≡ 0 }
    {
        Counted { inner, failures: 0 }
    }

    /// The reader or writer itself, without its count.
    pub fn into_inner(self) -> T
        ensures { result ≡ inner_of self }
    {
        let Counted { inner, failures: _ } = self;
        inner
    }

    /// How many calls failed so far.
    pub fn failures(&self) -> u64
        ensures { result ≡ failures_of self.now }
    {
        self.failures
    }
}

impl<T: Read> CountedRead for Counted<T> {
    ghost remaining = { λ counted. T.remaining counted.inner };

    ghost failures = { λ counted. counted.failures };

    fn read(&mut self, buf: &mut [u8]) -> io::Result<usize> {
        let outcome = self.inner.read(buf);
        if outcome.is_err() {
            self.failures += 1;
        }
        outcome
    }
}

impl<T: Write> CountedWrite for Counted<T> {
    ghost contents = { λ counted. T.contents counted.inner };

    ghost failures = { λ counted. counted.failures };

    fn write(&mut self, buf: &[u8]) -> io::Result<usize> {
        let outcome = self.inner.write(buf);
        if !matches!(&outcome, Ok(taken) if *taken > 0) {
            self.failures += 1;
        }
        outcome
    }
}
