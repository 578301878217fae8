//! What a call answers, by the numbers of `kesvuot.h`.

ghost use Rattle.macho_c.specs.Status.{Answers, AnswersSource};

use macho_rows::address::Source;
use macho_rows::span::{KesvuotSpan, NO_SPAN};

/// A file that is accepted, or a result that exists.
pub const OK: u32 = 0;
/// A file that breaks a rule, or bytes that no accepted file has.
pub const REFUSED: u32 = 1;
/// Memory ran out before the verdict.
pub const NO_MEMORY: u32 = 2;
/// No such rule, slice, command or address exists.
pub const NONE: u32 = 3;
/// A slice with an image that is not read: of 32 bits, or a big-endian one.
pub const UNREAD: u32 = 4;
/// An address at which there is a zero that is not a byte of the file.
pub const ZERO: u32 = 5;
/// No profile has the number that was passed.
pub const UNKNOWN_PROFILE: u32 = 6;

/// Writes what is found, or else that there is nothing. The status is `OK` or `NONE`.
pub fn answer<T: Copy>(found: Option<T>, nothing: T, written: &mut T) -> u32
    ensures { Answers nothing result written.new found }
{
    match found {
        Some(it) => {
            *written = it;
            OK
        }
        None => {
            *written = nothing;
            NONE
        }
    }
}

/// Writes which bytes are at an address. The status is `OK`, `ZERO` or `NONE`.
pub fn answer_source(found: Option<Source>, bytes: &mut KesvuotSpan) -> u32
    ensures { AnswersSource result bytes.new found }
{
    match found {
        Some(Source::Bytes(span)) => {
            *bytes = span;
            OK
        }
        Some(Source::Zero) => {
            *bytes = NO_SPAN;
            ZERO
        }
        None => {
            *bytes = NO_SPAN;
            NONE
        }
    }
}
