//! The opcodes of a stream, one by one: what each of them says, whatever the segments and the libraries
//! are. (`mach-o/loader.h`: `REBASE_OPCODE_..` and `BIND_OPCODE_..`)

ghost use Rattle.std.specs.Prelude.{◌≡◌, ◌<◌, ◌*◌};
ghost use Rattle.macho_fields.specs.Bytes.{bytes_of};
ghost use Rattle.macho_opcodes.specs.Steps.{step_at as step_at_of, rebase_step as rebase_step_of, bind_step as bind_step_of, done_step as done_step_of, last_step as last_step_of, pointer_type as pointer_type_of, special_step as special_step_of, with_number, with_count_and_skip, with_addend, with_name};
ghost use Rattle.macho_opcodes.specs.declared.step.Step.TheVariants as Step;

use macho_fields::header::loader::*;
use macho_fields::{Bytes, Span};
use macho_tables::limits::POINTER_SIZE;
use macho_tables::numbers::{read_sleb, read_uleb};

/// A stream of opcodes, by what they are.
#[derive(Clone, Copy)]
pub enum Opcodes {
    /// Rebases.
    Rebase,
    /// Binds, or weak binds.
    Bind,
    /// Lazy binds, in entries that each end with a DONE.
    LazyBind,
}

/// What one opcode says.
#[derive(Clone, Copy)]
pub enum Step {
    /// The stream ends, with the zeros that follow; in the lazy stream an entry ends.
    Done,
    /// What is written is a pointer.
    SetPointer,
    /// Names are looked up in the library with the ordinal, from 1 on. 0 is the image itself.
    SetLibrary(u64),
    /// Names are looked up as the special ordinal says that is so far below 0.
    SetSpecial(u8),
    /// A name is looked up, with the flags.
    SetSymbol {
        /// Its bytes in the stream, up to and including the zero byte that ends it.
        name: Span,
        /// The flags of the look-up.
        flags: u8,
    },
    /// So much is added to what is found.
    SetAddend(i64),
    /// What is written next is in the segment with this index, from the offset on.
    SetSegment {
        /// The index of the segment, from 0 on.
        segment: u8,
        /// The offset in the segment.
        offset: u64,
    },
    /// The offset grows by so much, modulo 2^64.
    AddOffset(u64),
    /// Pointers are written: the first at the offset, and each other one `skip` bytes past the one before
    /// it. The offset then is `skip` bytes past the last.
    Write {
        /// How many pointers.
        count: u64,
        /// How many bytes are between two of them.
        skip: u64,
    },
}

impl Step {
    ghost use Rattle.std.specs.Prelude.{◌≡◌};
    ghost use Rattle.macho_opcodes.specs.Cursor.{writes};

    /// How many pointers the step writes.
    pub fn writes(self) -> u64
        ensures { result ≡ writes self }
    {
        match self {
            Step::Write { count, .. } => count,
            _ => 0,
        }
    }
}

/// What the opcode at `place` says, and the first place past it and its operands. It is `None` past the
/// end, or if the opcode is not known, its type is not a pointer, an operand does not end or is out of its
/// range, or the opcode ends the stream and a byte that is not zero follows.
#[tactic(auto, unfolding(crate::specs::Steps::step_at))]
#[inline(always)]
pub fn step_at(opcodes: Opcodes, stream: Bytes, place: u64) -> Option<(Step, u64)>
    ensures { result ≡ step_at_of opcodes (bytes_of stream.entry) place }
{
    let byte = stream.u8_at(place)?;
    let next = place + 1;
    match opcodes {
        Opcodes::Rebase => rebase_step(stream, byte, next),
        Opcodes::Bind | Opcodes::LazyBind if byte & BIND_OPCODE_MASK == BIND_OPCODE_DONE => {
            done_step(opcodes, stream, next)
        }
        Opcodes::Bind | Opcodes::LazyBind => bind_step(stream, byte, next),
    }
}

// What an opcode of the rebase stream says: its byte, and the first place past it.
#[tactic(auto, unfolding(crate::specs::Steps::rebase_step))]
#[inline(always)]
fn rebase_step(stream: Bytes, byte: u8, next: u64) -> Option<(Step, u64)>
    ensures { result ≡ rebase_step_of (bytes_of stream.entry) byte next }
{
    let imm = byte & REBASE_IMMEDIATE_MASK;
    match byte & REBASE_OPCODE_MASK {
        REBASE_OPCODE_DONE => last_step(stream, next),
        REBASE_OPCODE_SET_TYPE_IMM => pointer_type(REBASE_TYPE_POINTER, imm, next),
        REBASE_OPCODE_SET_SEGMENT_AND_OFFSET_ULEB => set_segment(stream, imm, next),
        REBASE_OPCODE_ADD_ADDR_ULEB => add_offset(stream, next),
        REBASE_OPCODE_ADD_ADDR_IMM_SCALED => Some((Step::AddOffset(scaled(imm)), next)),
        REBASE_OPCODE_DO_REBASE_IMM_TIMES => write(u64::from(imm), 0, next),
        REBASE_OPCODE_DO_REBASE_ULEB_TIMES => write_times(stream, next),
        REBASE_OPCODE_DO_REBASE_ADD_ADDR_ULEB => write_skipping(stream, 1, next),
        REBASE_OPCODE_DO_REBASE_ULEB_TIMES_SKIPPING_ULEB => write_times_skipping(stream, next),
        _ => None,
    }
}

// What an opcode of a bind stream says, except DONE: its byte, and the first place past it.
#[tactic(auto, unfolding(crate::specs::Steps::bind_step))]
#[inline(always)]
fn bind_step(stream: Bytes, byte: u8, next: u64) -> Option<(Step, u64)>
    ensures { result ≡ bind_step_of (bytes_of stream.entry) byte next }
{
    let imm = byte & BIND_IMMEDIATE_MASK;
    match byte & BIND_OPCODE_MASK {
        BIND_OPCODE_SET_DYLIB_ORDINAL_IMM => Some((Step::SetLibrary(u64::from(imm)), next)),
        BIND_OPCODE_SET_DYLIB_ORDINAL_ULEB => set_library(stream, next),
        BIND_OPCODE_SET_DYLIB_SPECIAL_IMM => Some((special_step(imm), next)),
        BIND_OPCODE_SET_SYMBOL_TRAILING_FLAGS_IMM => set_symbol(stream, imm, next),
        BIND_OPCODE_SET_TYPE_IMM => pointer_type(BIND_TYPE_POINTER, imm, next),
        BIND_OPCODE_SET_ADDEND_SLEB => set_addend(stream, next),
        BIND_OPCODE_SET_SEGMENT_AND_OFFSET_ULEB => set_segment(stream, imm, next),
        BIND_OPCODE_ADD_ADDR_ULEB => add_offset(stream, next),
        BIND_OPCODE_DO_BIND => write(1, 0, next),
        BIND_OPCODE_DO_BIND_ADD_ADDR_ULEB => write_skipping(stream, 1, next),
        BIND_OPCODE_DO_BIND_ADD_ADDR_IMM_SCALED => write(1, scaled(imm), next),
        BIND_OPCODE_DO_BIND_ULEB_TIMES_SKIPPING_ULEB => write_times_skipping(stream, next),
        _ => None,
    }
}

// DONE of a bind stream: its last opcode, or in the lazy stream the last one of an entry.
fn done_step(opcodes: Opcodes, stream: Bytes, next: u64) -> Option<(Step, u64)>
    ensures { result ≡ done_step_of opcodes (bytes_of stream.entry) next }
{
    match opcodes {
        Opcodes::LazyBind => Some((Step::Done, next)),
        Opcodes::Rebase | Opcodes::Bind => last_step(stream, next),
    }
}

// The last opcode: the zeros that follow it, up to the end of the stream, belong to it.
fn last_step(stream: Bytes, next: u64) -> Option<(Step, u64)>
    ensures { result ≡ last_step_of (bytes_of stream.entry) next }
{
    let end = stream.len();
    let rest = Span {
        start: next,
        len: end,
    };
    match stream.first_nonzero(rest) {
        None => Some((Step::Done, end)),
        Some(_) => None,
    }
}

// A type, which has to be the one of pointers.
fn pointer_type(wanted: u8, imm: u8, next: u64) -> Option<(Step, u64)>
    ensures { result ≡ pointer_type_of wanted imm next }
{
    if imm == wanted {
        Some((Step::SetPointer, next))
    } else {
        None
    }
}

// A special ordinal: 0, or the low four bits of a number below 0.
fn special_step(imm: u8) -> Step
    requires { imm < 16 }
    ensures { result ≡ special_step_of imm }
{
    if imm == 0 {
        Step::SetLibrary(0)
    } else {
        Step::SetSpecial(16 - imm)
    }
}

fn set_library(stream: Bytes, next: u64) -> Option<(Step, u64)>
    ensures { result ≡ with_number Step.SetLibrary (bytes_of stream.entry) next }
{
    let (ordinal, next) = read_uleb(stream, next)?;
    Some((Step::SetLibrary(ordinal), next))
}

// A symbol, whose name begins at `name` and ends with a zero byte.
fn set_symbol(stream: Bytes, flags: u8, name: u64) -> Option<(Step, u64)>
    ensures { result ≡ with_name flags (bytes_of stream.entry) name }
{
    let rest = Span {
        start: name,
        len: stream.len(),
    };
    let zero = stream.first_zero(rest)?;
    let next = zero + 1;
    let name = Span {
        start: name,
        len: next - name,
    };
    Some((Step::SetSymbol { name, flags }, next))
}

fn set_addend(stream: Bytes, next: u64) -> Option<(Step, u64)>
    ensures { result ≡ with_addend (bytes_of stream.entry) next }
{
    let (addend, next) = read_sleb(stream, next)?;
    Some((Step::SetAddend(addend), next))
}

fn set_segment(stream: Bytes, segment: u8, next: u64) -> Option<(Step, u64)>
    ensures { result ≡ with_number (Step.SetSegment segment) (bytes_of stream.entry) next }
{
    let (offset, next) = read_uleb(stream, next)?;
    Some((Step::SetSegment { segment, offset }, next))
}

fn add_offset(stream: Bytes, next: u64) -> Option<(Step, u64)>
    ensures { result ≡ with_number Step.AddOffset (bytes_of stream.entry) next }
{
    let (distance, next) = read_uleb(stream, next)?;
    Some((Step::AddOffset(distance), next))
}

fn write(count: u64, skip: u64, next: u64) -> Option<(Step, u64)>
    ensures { result ≡ Some (Step.Write count skip, next) }
{
    Some((Step::Write { count, skip }, next))
}

fn write_times(stream: Bytes, next: u64) -> Option<(Step, u64)>
    ensures { result ≡ with_number (λ count. Step.Write count 0) (bytes_of stream.entry) next }
{
    let (count, next) = read_uleb(stream, next)?;
    write(count, 0, next)
}

fn write_skipping(stream: Bytes, count: u64, next: u64) -> Option<(Step, u64)>
    ensures { result ≡ with_number (Step.Write count) (bytes_of stream.entry) next }
{
    let (skip, next) = read_uleb(stream, next)?;
    write(count, skip, next)
}

fn write_times_skipping(stream: Bytes, next: u64) -> Option<(Step, u64)>
    ensures { result ≡ with_count_and_skip (bytes_of stream.entry) next }
{
    let (count, next) = read_uleb(stream, next)?;
    write_skipping(stream, count, next)
}

// The immediate times the size of a pointer.
fn scaled(imm: u8) -> u64
    ensures { result ≡ imm * POINTER_SIZE }
{
    u64::from(imm) * POINTER_SIZE
}
