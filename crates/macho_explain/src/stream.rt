//! The rules of the streams of opcodes that a dynamic loader follows. (`mach-o/loader.h`:
//! `dyld_info_command`)

ghost use Rattle.std.specs.Prelude.{◌≡◌, ◌⊎◌, List, slice_get, MatchOption, None, Some};
ghost use Rattle.std.specs.Option.{unwrap_or};
ghost use Rattle.macho_fields.specs.Bytes.{bytes_of};
ghost use Rattle.macho_fields.specs.declared.rule.Rule.{Rule};
ghost use Rattle.macho_opcodes.specs.declared.step.Step.{Step};
ghost use Rattle.macho_explain.specs.Explained.{ExplainsIn, IsSpot};
ghost use Rattle.macho_explain.specs.Streams.{Asks, HasOpcode, HasStep, IsFileSize, IsOpcodeAt, IsOpcodeHere, IsReached, IsPast, OfBinds, Shows, ShowsStep, ordinal_of, stream_table as stream_table_of};
ghost use Rattle.macho_explain.specs.Wholes.{Opens};

use crate::conflict::Conflict;
use crate::explanation::Explanation;
use crate::part::{Part, PartKind, below_zero, clamped};
use crate::segment::{SegmentWith, find_segment, segment_at};
use crate::sliced::Sliced;
use crate::spot::Spot;
use crate::table::Bounded;
use crate::whole::{Whole, bounded, read_whole};
use macho_fields::Bytes;
use macho_image::Image;
use macho_opcodes::cursor::Cursor;
use macho_opcodes::step::{Opcodes, Step, step_at};
use macho_opcodes::stream::Limits;
use macho_opcodes::streams::Stream;
use macho_tables::homes::span_of;
use macho_tables::limits::POINTER_SIZE;
use macho_tables::place::dyld_info;
use macho_tables::segment::is_writable;

// The greatest byte of an opcode of the rebases, and of the binds.
const LAST_REBASE: u64 = 0x8f;

const LAST_BIND: u64 = 0xcf;

// What a rule asks of an opcode that is known.
#[derive(Clone, Copy)]
pub(crate) enum Asked {
    // The library that it sets.
    Library,
    // How much it writes without a name.
    Symbol,
    // Where it writes.
    Slot,
    // How much is written up to and including it.
    Total,
    // How many bytes of names are looked up up to and including it.
    Names,
    // The first pointer that it writes.
    First,
}

// An opcode of a stream, and what those before it have set, written and looked up.
#[derive(Clone, Copy)]
struct Reached {
    cursor: Cursor,
    written: u128,
    named: u128,
    // What it says, if that is known, and where the next one begins.
    found: Option<(Step, u64)>,
}

// The stream that has the place, and the opcode there.
#[derive(Clone, Copy)]
struct OpcodeHere<'a> {
    table: Bounded,
    bytes: Bytes<'a>,
    offset: u64,
    reached: Reached,
}

// The table of a stream.
fn stream_table(sliced: &Sliced, stream: Stream) -> Option<Bounded>
    ensures { MatchOption result
        (Opens (bytes_of sliced.now.held.bytes) → stream_table_of stream (bytes_of sliced.now.held.bytes) ≡ None)
        (λ found. stream_table_of stream (bytes_of sliced.now.held.bytes) ≡ Some found.span) }
{
    let image = sliced.held.open()?;
    let command = dyld_info(&image)?;
    let span = span_of(&image, command, stream.fields());
    Some(bounded(sliced, command, span, number_of(stream)))
}

// Which of the tables of `dyld_info_command` a stream is.
fn number_of(stream: Stream) -> u64 {
    match stream {
        Stream::Rebase => 0,
        Stream::Bind => 1,
        Stream::WeakBind => 2,
        Stream::LazyBind => 3,
    }
}

// The opcode of a stream at the place.
fn opcode_here<'a>(sliced: &Sliced<'a>, stream: Stream) -> Option<OpcodeHere<'a>>
    ensures { MatchOption result
        (¬ (Opens (bytes_of sliced.now.held.bytes) × HasOpcode stream (bytes_of sliced.now.held.bytes) sliced.now.place))
        (IsOpcodeHere stream (bytes_of sliced.now.held.bytes) sliced.now.place) }
{
    let Whole { table, bytes } = read_whole(sliced, stream_table(sliced, stream)?)?;
    let offset = sliced.place.checked_sub(table.span.start)?;
    let reached = reach_opcode(stream.opcodes(), bytes, offset)?;
    Some(OpcodeHere {
        table,
        bytes,
        offset,
        reached,
    })
}

// The opcode at an offset of a stream.
fn reach_opcode(opcodes: Opcodes, stream: Bytes, offset: u64) -> Option<Reached>
    ensures { MatchOption result (¬ IsOpcodeAt opcodes (bytes_of stream.entry) offset)
        (IsReached opcodes (bytes_of stream.entry) offset) }
{
    let mut cursor = Cursor::new();
    let mut written: u128 = 0;
    let mut named: u128 = 0;
    let mut place = 0;
    while place < stream.len() {
        let found = step_at(opcodes, stream, place);
        if place == offset {
            return Some(Reached {
                cursor,
                written,
                named,
                found,
            });
        }
        let (step, next) = found?;
        written = written.saturating_add(u128::from(step.writes()));
        named = named.saturating_add(u128::from(cursor.looks_up(step)));
        cursor.follow(step);
        place = next;
    }
    None
}

impl OpcodeHere<'_> {
    // The opcode as a part, up to an offset of its stream.
    fn spot(&self, sliced: &Sliced, next: u64) -> Spot
        ensures { IsSpot sliced.now result }
    {
        let size = next.saturating_sub(self.offset);
        sliced.at(sliced.structure(PartKind::Opcode, sliced.place, size, None))
    }
}

// The byte of an opcode of a stream, and the greatest one. An opcode that is not known is one byte.
fn opcode_byte(sliced: &Sliced, stream: Stream, greatest: u64) -> Option<Explanation>
    ensures { MatchOption result
        (¬ (Opens (bytes_of sliced.now.held.bytes) × HasOpcode stream (bytes_of sliced.now.held.bytes) sliced.now.place))
        (λ e. IsSpot sliced.now e.at
        × (slice_get (bytes_of sliced.now.held.bytes) sliced.now.place ≡ Some e.conflict.value)
        × (e.conflict.limit ≡ greatest)) }
{
    let here = opcode_here(sliced, stream)?;
    let (_, byte) = sliced.byte()?;
    let next = match here.reached.found {
        Some((_, next)) => next,
        None => here.offset.saturating_add(1),
    };
    let conflict = Conflict::alone(here.table.part, byte, greatest);
    Some(here.spot(sliced, next).shows(conflict))
}

// The opcode of a stream at the place, and what is asked of it.
fn step_of(sliced: &Sliced, stream: Stream, asked: Asked) -> Option<Explanation>
    ensures { MatchOption result
        (¬ (Opens (bytes_of sliced.now.held.bytes)
        × HasStep asked stream (bytes_of sliced.now.held.bytes) sliced.now.place))
        (λ e. IsSpot sliced.now e.at
        × ShowsStep asked stream (bytes_of sliced.now.held.bytes) sliced.now.place e.conflict) }
{
    let here = opcode_here(sliced, stream)?;
    let (step, next) = here.reached.found?;
    let conflict = numbers(sliced, &here, step, asked)?;
    Some(here.spot(sliced, next).shows(conflict))
}

// The same of the first of the bind, the weak and the lazy stream that has it.
fn step_of_binds(sliced: &Sliced, asked: Asked) -> Option<Explanation>
    ensures { MatchOption result
        (¬ (Opens (bytes_of sliced.now.held.bytes)
        × OfBinds (λ stream. HasStep asked stream (bytes_of sliced.now.held.bytes) sliced.now.place)))
        (λ e. IsSpot sliced.now e.at
        × OfBinds (λ stream. ShowsStep asked stream (bytes_of sliced.now.held.bytes) sliced.now.place e.conflict)) }
{
    if let Some(found) = step_of(sliced, Stream::Bind, asked) {
        return Some(found);
    }
    if let Some(found) = step_of(sliced, Stream::WeakBind, asked) {
        return Some(found);
    }
    step_of(sliced, Stream::LazyBind, asked)
}

// The byte of an opcode of the rebases, and the greatest one.
#[inline(never)]
pub(crate) fn rebase_opcode(sliced: &Sliced) -> Option<Explanation>
    ensures { ExplainsIn Rule.RebaseOpcode sliced.now result }
{
    opcode_byte(sliced, Stream::Rebase, LAST_REBASE)
}

// The byte of an opcode of the binds, and the greatest one.
#[inline(never)]
pub(crate) fn bind_opcode(sliced: &Sliced) -> Option<Explanation>
    ensures { ExplainsIn Rule.BindOpcode sliced.now result }
{
    if let Some(found) = opcode_byte(sliced, Stream::Bind, LAST_BIND) {
        return Some(found);
    }
    if let Some(found) = opcode_byte(sliced, Stream::WeakBind, LAST_BIND) {
        return Some(found);
    }
    opcode_byte(sliced, Stream::LazyBind, LAST_BIND)
}

// Where the last slot of the rebases ends, and how many bytes can be written.
#[inline(never)]
pub(crate) fn rebase_slot(sliced: &Sliced) -> Option<Explanation>
    ensures { ExplainsIn Rule.RebaseSlot sliced.now result }
{
    step_of(sliced, Stream::Rebase, Asked::Slot)
}

// The same of the binds.
#[inline(never)]
pub(crate) fn bind_slot(sliced: &Sliced) -> Option<Explanation>
    ensures { ExplainsIn Rule.BindSlot sliced.now result }
{
    step_of_binds(sliced, Asked::Slot)
}

// How many rebases there are up to and including the opcode, and pointers that can be written.
#[inline(never)]
pub(crate) fn rebase_total(sliced: &Sliced) -> Option<Explanation>
    ensures { ExplainsIn Rule.RebaseTotal sliced.now result }
{
    step_of(sliced, Stream::Rebase, Asked::Total)
}

// The same of the binds of a stream.
#[inline(never)]
pub(crate) fn bind_total(sliced: &Sliced) -> Option<Explanation>
    ensures { ExplainsIn Rule.BindTotal sliced.now result }
{
    step_of_binds(sliced, Asked::Total)
}

// The ordinal that an opcode sets, and how many libraries there are.
#[inline(never)]
pub(crate) fn bind_library(sliced: &Sliced) -> Option<Explanation>
    ensures { ExplainsIn Rule.BindLibrary sliced.now result }
{
    step_of_binds(sliced, Asked::Library)
}

// How many binds have no name.
#[inline(never)]
pub(crate) fn bind_symbol(sliced: &Sliced) -> Option<Explanation>
    ensures { ExplainsIn Rule.BindSymbol sliced.now result }
{
    step_of_binds(sliced, Asked::Symbol)
}

// How many bytes of names were looked up, and how many the stream has.
#[inline(never)]
pub(crate) fn bind_names(sliced: &Sliced) -> Option<Explanation>
    ensures { ExplainsIn Rule.BindNames sliced.now result }
{
    step_of_binds(sliced, Asked::Names)
}

// Where the opcode writes: the offset in the segment of its first pointer, and the number of the segment.
#[inline(never)]
pub(crate) fn bind_once(sliced: &Sliced) -> Option<Explanation>
    ensures { ExplainsIn Rule.BindOnce sliced.now result }
{
    step_of_binds(sliced, Asked::First)
}

// The numbers that are asked of a known opcode.
fn numbers(sliced: &Sliced, here: &OpcodeHere, step: Step, asked: Asked) -> Option<Conflict>
    ensures { MatchOption result (¬ (Opens (bytes_of sliced.now.held.bytes) × Asks asked step))
        (λ c. (before : List Step) → IsPast before here.now.reached → Shows asked (bytes_of sliced.now.held.bytes)
        (bytes_of here.now.bytes) before step c) }
{
    let (table, reached) = (here.table.part, here.reached);
    let image = sliced.held.open()?;
    let limits = Limits::of(&image);
    match asked {
        Asked::Library => Some(Conflict::alone(table, ordinal(step)?, limits.libraries)),
        Asked::Symbol => Some(Conflict::alone(table, step.writes(), 0)),
        Asked::Slot => Some(slots(sliced, &image, here, step)),
        Asked::Total => {
            let count = reached.written.saturating_add(u128::from(step.writes()));
            Some(Conflict::alone(table, clamped(count), clamped(limits.budget)))
        }
        Asked::Names => {
            let own = u128::from(reached.cursor.looks_up(step));
            let size = clamped(reached.named.saturating_add(own));
            Some(Conflict::alone(table, size, here.bytes.len()))
        }
        Asked::First => Some(first_slot(sliced, &image, here)),
    }
}

// The ordinal that an opcode sets; one below 0 as 64 bits.
fn ordinal(step: Step) -> Option<u64>
    ensures { result ≡ ordinal_of step }
{
    match step {
        Step::SetLibrary(ordinal) => Some(ordinal),
        Step::SetSpecial(below) => Some(below_zero(u64::from(below))),
        _ => None,
    }
}

// The segment that is set, its number, and the offset in it; without one the number is 0.
fn first_slot(sliced: &Sliced, image: &Image, here: &OpcodeHere) -> Conflict
    ensures offset { result.value ≡ here.now.reached.cursor.offset }
    ensures segment { result.limit ≡ unwrap_or here.now.reached.cursor.segment 0 }
{
    let (table, cursor) = (here.table.part, here.reached.cursor);
    let Some(number) = cursor.segment else {
        return Conflict::alone(table, cursor.offset, 0);
    };
    Conflict {
        second: numbered_segment(sliced, image, number),
        ..Conflict::alone(table, cursor.offset, u64::from(number))
    }
}

// The file bytes of the segment with a number.
fn numbered_segment(sliced: &Sliced, image: &Image, number: u8) -> Option<Part> {
    let segment = image.segments().nth(usize::from(number))?;
    segment_at(sliced, segment.place())
}

// The segment that is set, where the last slot ends in it, and how many of its bytes can be written.
fn slots(sliced: &Sliced, image: &Image, here: &OpcodeHere, step: Step) -> Conflict
    ensures { (result.limit ≡ 0) ⊎ IsFileSize (bytes_of sliced.now.held.bytes) result.limit }
{
    let (table, cursor) = (here.table.part, here.reached.cursor);
    let end = slots_end(cursor, step);
    let Some(number) = cursor.segment else {
        return Conflict::alone(table, end, 0);
    };
    let Some(segment) = image.segments().nth(usize::from(number)) else {
        return Conflict::alone(table, end, 0);
    };
    let Some(found) = find_segment(sliced, SegmentWith::Command(segment.place())) else {
        return Conflict::alone(table, end, 0);
    };
    let part = sliced.segment(&found);
    if !is_writable(&segment) {
        return Conflict::of(table, part, end, 0);
    }
    Conflict::of(table, part, end, found.row.filesize)
}

// Where the last slot of an opcode ends, as an offset in the segment.
fn slots_end(cursor: Cursor, step: Step) -> u64 {
    let Step::Write { count, skip } = step else {
        return cursor.offset;
    };
    let stride = skip.saturating_add(POINTER_SIZE);
    count
        .saturating_sub(1)
        .saturating_mul(stride)
        .saturating_add(POINTER_SIZE)
        .saturating_add(cursor.offset)
}
