//! Streams of std for tests, which count their calls.

pub(crate) mod slow;

ghost use Rattle.std.specs.Prelude.{◌≡◌, IfOk};

use std::io;
use std::io::{ErrorKind, Read, Write};

/// A reader of std over bytes in memory. It counts its calls, and fails at one of them alone.
#[derive(Drop)]
pub(crate) struct CountingReader<'a> {
    pub(crate) bytes: &'a [u8],
    pub(crate) reads: u64,
    /// Which call fails, from 1 on, and 0 for none.
    pub(crate) fails_at: u64,
    /// How many bytes a call returns at most.
    pub(crate) most: usize,
}

impl<'a> CountingReader<'a> {
    pub(crate) fn new(bytes: &'a [u8], fails_at: u64) -> CountingReader<'a> {
        CountingReader {
            bytes,
            reads: 0,
            fails_at,
            most: usize::MAX,
        }
    }
}

impl Read for CountingReader<'_> {
    fn read(&mut self, piece: &mut [u8]) -> io::Result<usize> {
        self.reads = self.reads.saturating_add(1);
        if self.reads == self.fails_at {
            return Err(io::Error::from(ErrorKind::Interrupted));
        }
        let count = piece.len().min(self.most);
        self.bytes.read(&mut piece[..count])
    }
}

/// What one call of a `CountingWriter` does in place of its work.
#[derive(Clone, Copy)]
pub(crate) enum Fault {
    /// It fails.
    Error,
    /// It takes no bytes.
    NoBytes,
}

impl Fault {
    fn answer(self) -> io::Result<usize>
        ensures { IfOk result (λ count. count ≡ 0) }
    {
        match self {
            Fault::Error => Err(io::Error::from(ErrorKind::Interrupted)),
            Fault::NoBytes => Ok(0),
        }
    }
}

/// A writer of std into memory. It counts its calls, and one of them alone goes wrong.
#[derive(Drop)]
pub(crate) struct CountingWriter {
    pub(crate) bytes: Vec<u8>,
    pub(crate) writes: u64,
    pub(crate) flushes: u64,
    /// Which call, a write or a flush, goes wrong, from 1 on, and 0 for none.
    pub(crate) fails_at: u64,
    pub(crate) fault: Fault,
    /// How many bytes a write takes at most.
    pub(crate) most: usize,
}

impl CountingWriter {
    pub(crate) fn new(bytes: Vec<u8>, fails_at: u64, fault: Fault) -> CountingWriter {
        CountingWriter {
            bytes,
            writes: 0,
            flushes: 0,
            fails_at,
            fault,
            most: usize::MAX,
        }
    }

    fn goes_wrong(&self) -> bool {
        self.writes.saturating_add(self.flushes) == self.fails_at
    }
}

impl Write for CountingWriter {
    fn write(&mut self, piece: &[u8]) -> io::Result<usize> {
        self.writes = self.writes.saturating_add(1);
        if self.goes_wrong() {
            return self.fault.answer();
        }
        let count = piece.len().min(self.most);
        self.bytes.write(&piece[..count])
    }

    fn flush(&mut self) -> io::Result<()> {
        self.flushes = self.flushes.saturating_add(1);
        if self.goes_wrong() {
            return Err(io::Error::from(ErrorKind::Interrupted));
        }
        Ok(())
    }
}
