//! Writers of std as outputs.

ghost use Rattle.std.specs.Prelude.{◌≡◌, ◌≢◌, ◌≤◌, ◌↔◌, ◌⊎◌, [], Ok, length, take, IfOk, IsErr, IsTrue, OnOk, OnErr};
ghost use Rattle.std.specs.Io.KnownBytes.{Keeps};
ghost use Rattle.macho_text.specs.Stream.{Wrote};

use crate::stream::{Failed, Flush, Output, answer_of};
use std::io;
use std::io::Write;

/// A writer of std as an output. It has failed at the writer's first error, an interrupted write included,
/// and once the writer takes none of a piece that has bytes.
#[derive(Drop)]
pub struct FromWrite<'a, W: Write> {
    writer: &'a mut W,
    has_failed: bool,
    is_flushed: bool,
}

impl<'a, W: Write> FromWrite<'a, W> {
    /// The writer as an output before any failure.
    pub fn new(writer: &'a mut W) -> FromWrite<'a, W>
        ensures same_writer { result.writer.ghost_name ≡ writer.entry.ghost_name }
        ensures unwritten { result.writer.now ≡ writer.old }
        ensures working { ¬ IsTrue result.has_failed }
    {
        FromWrite {
            writer,
            has_failed: false,
            is_flushed: false,
        }
    }
}

impl<W: Write> Output for FromWrite<'_, W> {
    ghost has_failed = { λ s. s.has_failed };

    ghost contents = { λ s. W.contents s.writer.now };

    fn write(&mut self, piece: &[u8]) -> Result<usize, Failed>
        ensures count { IfOk result (λ n. n ≤ length piece.now) }
        ensures progress { IfOk result (λ n. n ≡ 0 → piece.now ≡ []) }
        ensures failed { IsErr result ↔ IsTrue self.new.has_failed }
        ensures stays_failed { IsTrue self.old.has_failed → IsErr result }
        ensures wrote { IfOk result (λ n. Wrote (W.contents self.old.writer.now)
            (W.contents self.new.writer.now) (take n piece.now)) }
        ensures fault { OnErr result (Keeps (W.contents self.old.writer.now)
            (W.contents self.new.writer.now)) }
        ensures unflushed { OnOk result (¬ IsTrue self.new.is_flushed) }

        // The writer stays the same one, and is not called again once it has failed.
        ensures same_writer { self.new.writer.ghost_name ≡ self.old.writer.ghost_name }
        ensures left_alone { IsTrue self.old.has_failed → self.new.writer.now ≡ self.old.writer.now }
    {
        if self.has_failed {
            return Err(Failed);
        }
        let answer = write_answer(self.writer.write(piece), piece);
        self.has_failed = answer.is_err();
        self.is_flushed = false;
        answer
    }

    fn failed(&self) -> bool {
        self.has_failed
    }
}

impl<W: Write> Flush for FromWrite<'_, W> {
    ghost is_flushed = { λ s. s.is_flushed };

    fn flush(&mut self) -> Result<(), Failed>
        ensures failed { IsErr result ↔ IsTrue self.new.has_failed }
        ensures stays_failed { IsTrue self.old.has_failed → IsErr result }
        ensures flushed { OnOk result (IsTrue self.new.is_flushed) }
        ensures kept { Keeps (W.contents self.old.writer.now) (W.contents self.new.writer.now) }

        // The writer stays the same one, and is not called again once it has failed.
        ensures same_writer { self.new.writer.ghost_name ≡ self.old.writer.ghost_name }
        ensures left_alone { IsTrue self.old.has_failed → self.new.writer.now ≡ self.old.writer.now }
    {
        if self.has_failed {
            return Err(Failed);
        }
        let answer = answer_of(self.writer.flush());
        self.has_failed = answer.is_err();
        self.is_flushed = answer.is_ok();
        answer
    }
}

// The answer for a write of std: any error is a failure, and so is a write that took none of a piece
// that has bytes.
fn write_answer(given: io::Result<usize>, piece: &[u8]) -> Result<usize, Failed>
    ensures count { IfOk result (λ count. given ≡ Ok count) }
    ensures failed { IsErr result ↔ (IsErr given ⊎ ((given ≡ Ok 0) × (piece.now ≢ []))) }
{
    match given {
        Ok(count) if count > 0 || piece.is_empty() => Ok(count),
        _ => Err(Failed),
    }
}
