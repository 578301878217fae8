//! Streams of bytes. Once one has failed, it fails at every call.

ghost use Rattle.std.specs.Prelude.{◌≡◌, ◌≤◌, ◌↔◌, ◌+◌, ℕ, List, [], Bool, Option, Ok, length, take, IfOk, IsErr, IsTrue, OnOk, OnErr};
ghost use Rattle.std.specs.Io.KnownBytes.{Keeps};
ghost use Rattle.macho_text.specs.Stream.{TakesFrom, Wrote, WrotePrefix};

use std::io;

/// The answer of a stream that has failed.
#[derive(Clone, Copy, Debug, PartialEq, Eq)]
pub struct Failed;

// The answer for a result of std: any error is a failure, an interrupted call included.
pub(crate) fn answer_of<T: Drop>(given: io::Result<T>) -> Result<T, Failed>
    ensures value { IfOk result (λ value. given ≡ Ok value) }
    ensures failed { IsErr result ↔ IsErr given }
{
    match given {
        Ok(value) => Ok(value),
        Err(_) => Err(Failed),
    }
}

/// A stream of bytes to read.
///
/// Of what a failed read took, nothing is claimed.
pub trait Input {
    /// Whether a read has failed.
    ghost has_failed: { Self → Bool };
    /// The bytes that reads will give from here on, or `None` if the stream does not report them.
    ghost remaining: { Self → Option (List ℕ) };
    /// How many reads there were, where the stream counts them.
    ghost reads: { Self → ℕ } = { λ _. 0 };

    /// Reads the next bytes into the front of the piece, and returns how many.
    fn read(&mut self, piece: &mut [u8]) -> Result<usize, Failed>
        ensures count { IfOk result (λ n. n ≤ length piece.new) }
        ensures failed { IsErr result ↔ IsTrue (has_failed self.new) }
        ensures stays_failed { IsTrue (has_failed self.old) → IsErr result }
        ensures bytes { IfOk result (λ n. TakesFrom (remaining self.old) (remaining self.new) n piece.new) }
        ensures counted { reads self.new ≤ reads self.old + 1 };

    /// Whether a read has failed. From then on each read fails.
    fn failed(&self) -> bool
        ensures { result ≡ has_failed self.now };
}

/// A stream of bytes to write.
pub trait Output {
    /// Whether a write has failed.
    ghost has_failed: { Self → Bool };
    /// The bytes that were written, or `None` if the stream does not report them.
    ghost contents: { Self → Option (List ℕ) };

    /// Writes the first bytes of the piece, and returns how many: none only of an empty piece.
    fn write(&mut self, piece: &[u8]) -> Result<usize, Failed>
        ensures count { IfOk result (λ n. n ≤ length piece.now) }
        ensures progress { IfOk result (λ n. n ≡ 0 → piece.now ≡ []) }
        ensures failed { IsErr result ↔ IsTrue (has_failed self.new) }
        ensures stays_failed { IsTrue (has_failed self.old) → IsErr result }
        ensures wrote { IfOk result (λ n. Wrote (contents self.old) (contents self.new) (take n piece.now)) }
        ensures fault { OnErr result (WrotePrefix (contents self.old) (contents self.new) piece.now) };

    /// Whether a write has failed. From then on each write fails.
    fn failed(&self) -> bool
        ensures { result ≡ has_failed self.now };
}

/// An output that may hold bytes back until it is flushed. A failed flush is a failed write.
pub trait Flush: Output {
    /// Whether a flush succeeded after the last write.
    ghost is_flushed: { Self → Bool };

    /// Passes on the bytes that are held back.
    fn flush(&mut self) -> Result<(), Failed>
        ensures failed { IsErr result ↔ IsTrue (Self.has_failed self.new) }
        ensures stays_failed { IsTrue (Self.has_failed self.old) → IsErr result }
        ensures flushed { OnOk result (IsTrue (is_flushed self.new)) }
        ensures kept { Keeps (Self.contents self.old) (Self.contents self.new) };
}
