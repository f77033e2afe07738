//! A reader or a writer that counts its failures.
ghost use Rattle.std.specs.Prelude.{◌≡◌};
ghost use Rattle.std.specs.Io.{ReadsAtMost, WritesAtMost};
ghost use Rattle.std.specs.Io.KnownBytes.{Keeps, ReadConsumes, WriteAppends};

use std::io;
use std::io::{Error, ErrorKind, Read, Write};
use std::marker::Model;

/// A reader or a writer that counts its failures, and its reads, of which at most 2^64 - 1 are
/// passed on: so a loop over a reader without end returns. That each other read, and each write and
/// flush, is passed on is tested and not proved: no clause can name what the next call would
/// answer.
#[derive(Drop)]
pub struct Counted<T> {
    inner: T,
    failures: u64,
    reads: u64,
}

impl<T> Model for Counted<T> {
    ghost use Rattle.counted_io.specs.Counted.{Tally};

    ghost Value = { Tally T };

    ghost view = { λ c. record { inner = c.inner; failures = c.failures; reads = c.reads } };
}

impl<T> Counted<T> {
    /// Wraps a reader or a writer; its counts are 0.
    pub fn new(inner: T) -> Counted<T>
        ensures { result ≡ record { inner = inner; failures = 0; reads = 0 } }
    {
        Counted {
            inner,
            failures: 0,
            reads: 0,
        }
    }

    /// How many reads, writes and flushes answered an error, and how many writes of a piece that
    /// isn't empty took no byte. It stays once at 2^64 - 1.
    pub fn failures(&self) -> u64
        ensures { result ≡ self.now.failures }
    {
        self.failures
    }

    /// The reader or writer itself.
    pub fn into_inner(self) -> T
        ensures { result ≡ self.inner }
    {
        let Counted {
            inner,
            failures: _,
            reads: _,
        } = self;
        inner
    }
}

impl<T: Read> Read for Counted<T> {
    ghost use Rattle.counted_io.specs.Counted.{CountsRead};

    ghost remaining = { λ c. T.remaining c.inner };

    fn read(&mut self, buf: &mut [u8]) -> io::Result<usize>
        ensures bound { ReadsAtMost result buf.new }
        ensures bytes { ReadConsumes (T.remaining self.old.inner) (T.remaining self.new.inner)
            result buf.new }
        ensures entry { CountsRead self.old self.new result }
    {
        if self.reads == u64::MAX {
            self.failures = self.failures.saturating_add(1);
            return Err(Error::from(ErrorKind::Other));
        }
        self.reads += 1;
        let answer = self.inner.read(buf);
        if answer.is_err() {
            self.failures = self.failures.saturating_add(1);
        }
        answer
    }
}

impl<T: Write> Write for Counted<T> {
    ghost use Rattle.counted_io.specs.Counted.{failures_after, failures_after_write};

    ghost contents = { λ c. T.contents c.inner };

    fn write(&mut self, buf: &[u8]) -> io::Result<usize>
        ensures bound { WritesAtMost result buf.now }
        ensures bytes { WriteAppends (T.contents self.old.inner) (T.contents self.new.inner)
            result buf.now }
        ensures fault { self.new.failures
            ≡ failures_after_write result buf.now self.old.failures }
        ensures same { self.new.reads ≡ self.old.reads }
    {
        let answer = self.inner.write(buf);
        let failed = match &answer {
            Ok(count) => *count == 0 && !buf.is_empty(),
            Err(_) => true,
        };
        if failed {
            self.failures = self.failures.saturating_add(1);
        }
        answer
    }

    fn flush(&mut self) -> io::Result<()>
        ensures bytes { Keeps (T.contents self.old.inner) (T.contents self.new.inner) }
        ensures fault { self.new.failures ≡ failures_after result self.old.failures }
        ensures same { self.new.reads ≡ self.old.reads }
    {
        let answer = self.inner.flush();
        if answer.is_err() {
            self.failures = self.failures.saturating_add(1);
        }
        answer
    }
}
