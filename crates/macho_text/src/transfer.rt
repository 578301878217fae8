//! Whole transfers: all of an input into memory, and a whole text to an output.

ghost use Rattle.std.specs.Prelude.{◌≡◌, ◌≢◌, ◌+◌, ◌<◌, ◌≤◌, ◌↔◌, [], length, vec_len, IfOk, IfSome, OnOk, IsErr, IsErrOf, IsTrue};
ghost use Rattle.std.specs.Io.KnownBytes.{IsAtEnd};
ghost use Rattle.macho_text.specs.Stream.{TookAtMost};
ghost use Rattle.macho_text.specs.Writer.{PutsText};
ghost use Rattle.macho_text.specs.declared.transfer.ReadFault.TheVariants.{Read, Memory};

use crate::stream::{Failed, Input, Output};
use std::alloc::{AllocError, Global};
use thiserror::Error;

/// What a fault says where there was no memory.
pub const OUT_OF_MEMORY: &str = "out of memory";

/// Why an input was not read to its end.
#[derive(Clone, Copy, Debug, PartialEq, Eq, Error)]
pub enum ReadFault {
    /// A read failed.
    #[error("reading failed")]
    Read,
    /// The input has more bytes than the limit.
    #[error("the input is too long")]
    TooLong,
    /// There was no memory for the input.
    #[error("{reason}", reason = OUT_OF_MEMORY)]
    Memory,
}

impl From<Failed> for ReadFault {
    ghost from_gives = { λ _ fault. fault ≡ Read };

    fn from(_: Failed) -> ReadFault {
        ReadFault::Read
    }
}

impl From<AllocError> for ReadFault {
    ghost from_gives = { λ _ fault. fault ≡ Memory };

    fn from(_: AllocError) -> ReadFault {
        ReadFault::Memory
    }
}

/// A text was not written to its end.
#[derive(Clone, Copy, Debug, PartialEq, Eq, Error)]
#[error("writing failed")]
pub struct WriteFault;

impl From<Failed> for WriteFault {
    fn from(_: Failed) -> WriteFault {
        WriteFault
    }
}

// How many bytes one read asks for at most.
const PIECE_SIZE: usize = 65_536;

/// Reads all of the input into memory, in at most `limit + 1` reads.
pub fn read_all<R: Input>(alloc: Global, limit: u64, reader: &mut R) -> Result<Vec<u8>, ReadFault>
    ensures within_limit { IfOk result (λ bytes. vec_len bytes ≤ limit) }
    ensures all { IfOk result (λ bytes. IfSome (R.remaining reader.old) (λ all. bytes.items ≡ all)) }
    ensures at_end { OnOk result (IsAtEnd (R.remaining reader.new)) }
    ensures too_long { IsErrOf result ReadFault.TooLong
        → IfSome (R.remaining reader.old) (λ all. limit < length all) }
    ensures one_too_many { IsErrOf result ReadFault.TooLong
        → TookAtMost (limit + 1) (R.remaining reader.old) (R.remaining reader.new) }
    ensures memory { IsErrOf result ReadFault.Memory
        → TookAtMost limit (R.remaining reader.old) (R.remaining reader.new) }
    ensures failed { IsErrOf result ReadFault.Read ↔ IsTrue (R.has_failed reader.new) }
    ensures stays_failed { IsTrue (R.has_failed reader.old) → IsErrOf result ReadFault.Read }
    ensures few_reads { R.reads reader.new ≤ R.reads reader.old + limit + 1 }
{
    let mut piece = [0u8; PIECE_SIZE];
    let mut bytes = Vec::new(alloc);
    while (bytes.len() as u64) < limit {
        let room = limit - bytes.len() as u64;
        let wanted = room.min(PIECE_SIZE as u64) as usize;
        let count = reader.read(&mut piece[..wanted])?;
        if count == 0 {
            return Ok(bytes);
        }
        bytes.extend_from_slice(&piece[..count])?;
    }
    expect_end(reader)?;
    Ok(bytes)
}

// Asks for one byte more, which is one too many.
fn expect_end<R: Input>(reader: &mut R) -> Result<(), ReadFault>
    ensures at_end { OnOk result (IsAtEnd (R.remaining reader.old)) }
    ensures still_at_end { OnOk result (IsAtEnd (R.remaining reader.new)) }
    ensures too_long { IsErrOf result ReadFault.TooLong
        → IfSome (R.remaining reader.old) (λ all. 0 < length all) }
    ensures one_byte { IsErrOf result ReadFault.TooLong
        → TookAtMost 1 (R.remaining reader.old) (R.remaining reader.new) }
    ensures failed { IsErrOf result ReadFault.Read ↔ IsTrue (R.has_failed reader.new) }
    ensures stays_failed { IsTrue (R.has_failed reader.old) → IsErrOf result ReadFault.Read }
    ensures one_read { R.reads reader.new ≤ R.reads reader.old + 1 }
    ensures needs_no_memory { ¬ IsErrOf result ReadFault.Memory }
{
    let mut next = [0u8; 1];
    if reader.read(&mut next)? == 0 {
        Ok(())
    } else {
        Err(ReadFault::TooLong)
    }
}

/// Writes the whole text. An empty text makes no write.
#[inline(always)]
pub fn write_all<W: Output>(text: &[u8], writer: &mut W) -> Result<(), WriteFault>
    ensures text { PutsText W.Output writer.old writer.new result text.now }
    ensures stays_failed { IsTrue (W.has_failed writer.old) → text.now ≢ [] → IsErr result }
    ensures untouched { text.now ≡ [] → writer.new ≡ writer.old }
{
    let mut written = 0;
    while written < text.len() {
        written += writer.write(&text[written..])?;
    }
    Ok(())
}
