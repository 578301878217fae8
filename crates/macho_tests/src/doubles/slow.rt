//! An input for tests, which returns one byte per read.

ghost use Rattle.std.specs.Prelude.{Some};

use macho_report::{Failed, Input};

/// An input over bytes in memory. It counts its reads, and may fail at one.
#[derive(Drop)]
pub(crate) struct SlowReader<'a> {
    pub(crate) bytes: &'a [u8],
    pub(crate) reads: u64,
    /// Which read fails, from 1 on, and 0 for none.
    pub(crate) fails_at: u64,
    pub(crate) has_failed: bool,
}

impl<'a> SlowReader<'a> {
    pub(crate) fn new(bytes: &'a [u8], fails_at: u64) -> SlowReader<'a> {
        SlowReader {
            bytes,
            reads: 0,
            fails_at,
            has_failed: false,
        }
    }
}

impl Input for SlowReader<'_> {
    ghost has_failed = { λ s. s.has_failed };

    ghost remaining = { λ s. Some s.bytes.now };

    ghost reads = { λ s. s.reads };

    fn read(&mut self, piece: &mut [u8]) -> Result<usize, Failed> {
        self.reads = self.reads.saturating_add(1);
        if self.has_failed || self.reads == self.fails_at {
            self.has_failed = true;
            return Err(Failed);
        }
        let bytes = self.bytes;
        if bytes.is_empty() || piece.is_empty() {
            return Ok(0);
        }
        piece[0] = bytes[0];
        self.bytes = &bytes[1..];
        Ok(1)
    }

    fn failed(&self) -> bool {
        self.has_failed
    }
}
