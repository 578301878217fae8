//! Readers of std as inputs.

ghost use Rattle.std.specs.Prelude.{◌≡◌, ◌≤◌, ◌↔◌, length, IfOk, IsErr, IsTrue, OnErr};
ghost use Rattle.std.specs.Io.KnownBytes.{Keeps};
ghost use Rattle.macho_text.specs.Stream.{TakesFrom};

use crate::stream::{Failed, Input, answer_of};
use std::io::Read;

/// A reader of std as an input. It has failed at the reader's first error, an interrupted read included.
#[derive(Drop)]
pub struct FromRead<'a, R: Read> {
    reader: &'a mut R,
    has_failed: bool,
}

impl<'a, R: Read> FromRead<'a, R> {
    /// The reader as an input before any failure.
    pub fn new(reader: &'a mut R) -> FromRead<'a, R>
        ensures same_reader { result.reader.ghost_name ≡ reader.entry.ghost_name }
        ensures unread { result.reader.now ≡ reader.old }
        ensures working { ¬ IsTrue result.has_failed }
    {
        FromRead {
            reader,
            has_failed: false,
        }
    }
}

impl<R: Read> Input for FromRead<'_, R> {
    ghost has_failed = { λ s. s.has_failed };

    ghost remaining = { λ s. R.remaining s.reader.now };

    fn read(&mut self, piece: &mut [u8]) -> Result<usize, Failed>
        ensures count { IfOk result (λ n. n ≤ length piece.new) }
        ensures failed { IsErr result ↔ IsTrue self.new.has_failed }
        ensures stays_failed { IsTrue self.old.has_failed → IsErr result }
        ensures bytes { IfOk result (λ n. TakesFrom (R.remaining self.old.reader.now)
            (R.remaining self.new.reader.now) n piece.new) }

        ensures fault { OnErr result (Keeps (R.remaining self.old.reader.now)
            (R.remaining self.new.reader.now)) }

        // The reader stays the same one, and is not called again once it has failed.
        ensures same_reader { self.new.reader.ghost_name ≡ self.old.reader.ghost_name }
        ensures left_alone { IsTrue self.old.has_failed → self.new.reader.now ≡ self.old.reader.now }
    {
        if self.has_failed {
            return Err(Failed);
        }
        let answer = answer_of(self.reader.read(piece));
        self.has_failed = answer.is_err();
        answer
    }

    fn failed(&self) -> bool {
        self.has_failed
    }
}
