//! What a held command describes of its own bytes past its structure. (`mach-o/loader.h`: `lc_str`,
//! `prebound_dylib_command`)

ghost use Rattle.std.specs.Prelude.{◌≡◌, ◌+◌, ◌≤◌, ◌⊎◌, ◌↔◌, ⊤, length, IsTrue, IfSome, IfNone};
ghost use Rattle.macho_fields.specs.Bytes.{bytes_of};
ghost use Rattle.macho_fields.specs.NonZero.{HasNonZero};
ghost use Rattle.macho_commands.specs.Content.{HasFields};
ghost use Rattle.macho_commands.specs.Described.{IsBadName, IsInName, HasBadModules, IsInModules, HasBadStrings, HasFewStrings, IsInStrings, IsDescribedPart};
ghost use Rattle.macho_commands.specs.Described.{HasBadPart, HasStrayByte, AreParts, LieInside, IsInParts, HasOther};

use crate::content::{Content, Holding};
use crate::strings::strings_end;
use macho_fields::header::loader::prebound_dylib_command::{LINKED_MODULES, NMODULES};
use macho_fields::header::loader::{LC_STR_OFFSET, MODULES_OF_A_BYTE};
use macho_fields::{Bytes, Order, Span};

// Two parts of a command. They may be empty, or share bytes.
#[derive(Clone, Copy)]
struct Parts {
    first: Span,
    second: Span,
}

// Whether a part of the command is bad, or a byte past its structure that is not zero lies in no part.
pub(crate) fn has_bad_bytes(command: Bytes, content: Content) -> bool
    requires fields { HasFields content }
    requires whole { content.size ≤ length (bytes_of command) }
    ensures { IsTrue result ↔ (HasBadPart (bytes_of command.entry) content
        ⊎ HasStrayByte (bytes_of command.entry) content) }
{
    match parts_of(command, content) {
        Some(parts) => has_other(command, content.size, parts),
        None => true,
    }
}

// The parts of the command, or `None` where one is bad.
fn parts_of(command: Bytes, content: Content) -> Option<Parts>
    requires fields { HasFields content }
    requires whole { content.size ≤ length (bytes_of command) }
    ensures bad { IfNone result (HasBadPart (bytes_of command.entry) content) }
    ensures parts { IfSome result (AreParts (bytes_of command.entry) content) }
{
    let size = content.size;
    let none = Span {
        start: size,
        len: 0,
    };
    match content.holding {
        Holding::Name => Some(Parts {
            first: name_of(command, size)?,
            second: none,
        }),
        Holding::NameAndModules => Some(Parts {
            first: name_of(command, size)?,
            second: modules_of(command, size)?,
        }),
        Holding::Strings => Some(Parts {
            first: strings_of(command, size)?,
            second: none,
        }),
        Holding::CountedStrings => Some(Parts {
            first: counted_strings_of(command, size)?,
            second: none,
        }),
        Holding::Nothing | Holding::Range(_) | Holding::Routine(_) => Some(Parts {
            first: none,
            second: none,
        }),
    }
}

// The name of the command, with the zero byte that ends it, or `None` where it is bad.
fn name_of(command: Bytes, size: u64) -> Option<Span>
    requires head { LC_STR_OFFSET + 4 ≤ size }
    requires whole { size ≤ length (bytes_of command) }
    ensures bad { IfNone result (IsBadName size (bytes_of command.entry)) }
    ensures good { IfSome result (λ _. ¬ IsBadName size (bytes_of command.entry)) }
    ensures part { IfSome result
        (IsDescribedPart size (bytes_of command.entry) (IsInName (bytes_of command.entry))) }
{
    let start = u64::from(command.read_u32(Order::Little, LC_STR_OFFSET));
    if start < size {
        return None;
    }
    let rest = Span {
        start,
        len: command.len().saturating_sub(start),
    };
    let zero = command.first_zero(rest)?;
    Some(Span {
        start,
        len: zero + 1 - start,
    })
}

// The bits of the modules of the command, or `None` where they are bad.
fn modules_of(command: Bytes, size: u64) -> Option<Span>
    requires head { LINKED_MODULES + 4 ≤ size }
    requires whole { size ≤ length (bytes_of command) }
    ensures bad { IfNone result (HasBadModules size (bytes_of command.entry)) }
    ensures good { IfSome result (λ _. ¬ HasBadModules size (bytes_of command.entry)) }
    ensures part { IfSome result
        (IsDescribedPart size (bytes_of command.entry) (IsInModules (bytes_of command.entry))) }
{
    let start = u64::from(command.read_u32(Order::Little, LINKED_MODULES));
    let count = u64::from(command.read_u32(Order::Little, NMODULES));
    let len = count.div_ceil(MODULES_OF_A_BYTE);
    if len == 0 {
        return Some(Span { start: size, len });
    }
    if start < size || start + len > command.len() {
        return None;
    }
    Some(Span { start, len })
}

// All bytes past the structure, which are strings, or `None` where the last is not ended.
fn strings_of(command: Bytes, size: u64) -> Option<Span>
    requires whole { size ≤ length (bytes_of command) }
    ensures bad { IfNone result (HasBadStrings size (bytes_of command.entry)) }
    ensures good { IfSome result (λ _. ¬ HasBadStrings size (bytes_of command.entry)) }
    ensures part { IfSome result (IsDescribedPart size (bytes_of command.entry) (λ _. ⊤)) }
{
    let len = command.len() - size;
    if len > 0 && command.read_u8(command.len() - 1) != 0 {
        return None;
    }
    Some(Span { start: size, len })
}

// The strings of the command that a field counts, or `None` where one is not ended.
fn counted_strings_of(command: Bytes, size: u64) -> Option<Span>
    requires head { LC_STR_OFFSET + 4 ≤ size }
    requires whole { size ≤ length (bytes_of command) }
    ensures bad { IfNone result (HasFewStrings size (bytes_of command.entry)) }
    ensures good { IfSome result (λ _. ¬ HasFewStrings size (bytes_of command.entry)) }
    ensures part { IfSome result
        (IsDescribedPart size (bytes_of command.entry) (IsInStrings size (bytes_of command.entry))) }
{
    let end = strings_end(command, size)?;
    Some(Span {
        start: size,
        len: end - size,
    })
}

// Whether a byte past a structure of this size is not zero, and in neither part.
fn has_other(command: Bytes, size: u64, parts: Parts) -> bool
    requires { LieInside size (bytes_of command) parts }
    ensures { IsTrue result ↔ HasOther size (bytes_of command.entry) parts }
{
    if parts.first.start <= parts.second.start {
        has_byte_around(command, size, parts.first, parts.second)
    } else {
        has_byte_around(command, size, parts.second, parts.first)
    }
}

// Whether a byte past a structure of this size is not zero, and in neither part. The one part begins no later than
// the other.
fn has_byte_around(command: Bytes, size: u64, early: Span, late: Span) -> bool
    requires inside { LieInside size (bytes_of command) (record { first = early; second = late }) }
    requires order { early.start ≤ late.start }
    ensures { IsTrue result
        ↔ HasOther size (bytes_of command.entry) (record { first = early; second = late }) }
{
    let early_end = early.start + early.len;
    let late_end = late.start + late.len;
    has_nonzero(command, size, early.start)
        || has_nonzero(command, early_end, late.start)
        || has_nonzero(command, early_end.max(late_end), command.len())
}

// Whether a byte from `start` on and before `end` is not zero.
fn has_nonzero(command: Bytes, start: u64, end: u64) -> bool
    ensures { IsTrue result ↔ HasNonZero (bytes_of command.entry) start end }
{
    let between = Span {
        start,
        len: end.saturating_sub(start),
    };
    command.first_nonzero(between).is_some()
}
