//! Which segments the fixups of an image name, by their numbers. (`mach-o/loader.h`: `dyld_info_command`;
//! `mach-o/fixup-chains.h`: `dyld_chained_starts_in_image`)

ghost use Rattle.std.specs.Prelude.{◌≡◌, ◌↔◌, ℕ, None, Some, IsTrue, IsSomeAnd};
ghost use Rattle.macho_fields.specs.Bytes.{bytes_of};
ghost use Rattle.macho_fields.specs.Layers.{NothingBreaks};
ghost use Rattle.macho_fields.specs.Rules.{BreaksImage as Breaks};
ghost use Rattle.macho_tables.specs.Places.{dyld_info as dyld_info_of};
ghost use Rattle.macho_chains.specs.Chains.{AreChainedFixups};
ghost use Rattle.macho_opcodes.specs.declared.cursor.Cursor.{Cursor};
ghost use Rattle.macho_readers.specs.Fixups.{AreFixups, SetsSegment, StreamNames, NamesInStream, NamesInCommand, OpcodesName, HasStarts, ChainsName, FixupsName};

use macho_chains::chain_header::ChainHeader;
use macho_chains::chains::{ChainTable, ChainedFixups};
use macho_fields::header::fixup_chains::{DYLD_CHAINED_STARTS_IN_IMAGE_SIZE, SEG_INFO_OFFSET_SIZE};
use macho_fields::{Bytes, Order};
use macho_image::Image;
use macho_opcodes::step::{Opcodes, Step, step_at};
use macho_opcodes::streams::Stream;
use macho_tables::homes::span_of;
use macho_tables::limits::SEGMENTS;
use macho_tables::place::dyld_info;

/// Where an image has its fixups.
#[derive(Clone, Copy)]
pub struct Fixups<'a> {
    /// The place of the command that names the streams of opcodes, if there is one.
    pub opcodes: Option<u64>,
    /// The chained fixups.
    pub chains: ChainedFixups<'a>,
}

/// Where an image has its fixups, which it looks for once.
pub fn fixups_of<'a>(image: &Image<'a>) -> Fixups<'a>
    requires { NothingBreaks (Breaks image.now None) }
    ensures { AreFixups image.now result }
{
    Fixups {
        opcodes: dyld_info(image),
        chains: ChainedFixups::of(image),
    }
}

/// Whether fixups of the image name its segment with the number. It passes each stream of opcodes at most once.
pub fn fixups_name(image: &Image, fixups: &Fixups, number: u64) -> bool
    requires unbroken { NothingBreaks (Breaks image.now None) }
    requires fixups { AreFixups image.now fixups.now }
    ensures { IsTrue result ↔ FixupsName image.now number }
{
    opcodes_name(image, fixups.opcodes, number) || chains_name(image, &fixups.chains, number)
}

// Whether an opcode of the image names the segment with the number.
#[tactic(auto, unfolding(crate::specs::Fixups::OpcodesName))]
fn opcodes_name(image: &Image, info: Option<u64>, number: u64) -> bool
    requires unbroken { NothingBreaks (Breaks image.now None) }
    requires info { info ≡ dyld_info_of image.now }
    ensures { IsTrue result ↔ OpcodesName image.now number }
{
    if number >= SEGMENTS as u64 {
        return false;
    }
    match info {
        Some(command) => names_in_command(image, command, number),
        None => false,
    }
}

// Whether an opcode of the command at `command` names the segment with the number.
fn names_in_command(image: &Image, command: u64, number: u64) -> bool
    requires unbroken { NothingBreaks (Breaks image.now None) }
    requires info { dyld_info_of image.now ≡ Some command }
    ensures { IsTrue result ↔ NamesInCommand image.now command number }
{
    names_in_stream(image, command, Stream::Rebase, number)
        || names_in_stream(image, command, Stream::Bind, number)
        || names_in_stream(image, command, Stream::WeakBind, number)
        || names_in_stream(image, command, Stream::LazyBind, number)
}

// Whether an opcode of one stream of the command at `command` names the segment with the number.
fn names_in_stream(image: &Image, command: u64, stream: Stream, number: u64) -> bool
    requires unbroken { NothingBreaks (Breaks image.now None) }
    requires info { dyld_info_of image.now ≡ Some command }
    ensures { IsTrue result ↔ NamesInStream stream image.now command number }
{
    let table = span_of(image, command, stream.fields());
    if table.len == 0 {
        return false;
    }
    let bytes = image.bytes().slice(table);
    stream_names(stream.opcodes(), bytes, number)
}

// Whether an opcode of the stream names the segment with the number.
fn stream_names(opcodes: Opcodes, stream: Bytes, number: u64) -> bool
    ensures { IsTrue result ↔ StreamNames number opcodes (bytes_of stream.entry) }
{
    let mut place = 0;
    while place < stream.len() {
        let Some((step, next)) = step_at(opcodes, stream, place) else {
            return false;
        };
        if sets_segment(step, number) {
            return true;
        }
        place = next;
    }
    false
}

// Whether the step sets the segment with the number.
fn sets_segment(step: Step, number: u64) -> bool
    ensures { (cursor : Cursor) → (written : ℕ) → IsTrue result ↔ SetsSegment number cursor written step }
{
    match step {
        Step::SetSegment { segment, .. } => u64::from(segment) == number,
        _ => false,
    }
}

// Whether a chain of the image begins in the segment with the number.
fn chains_name(image: &Image, fixups: &ChainedFixups, number: u64) -> bool
    requires { AreChainedFixups image.now fixups.now }
    ensures { IsTrue result ↔ ChainsName image.now number }
{
    let _image = image;
    match fixups.table {
        Some(table) => table_names(table, number),
        None => false,
    }
}

// Whether the table has a header, and starts of the segment with the number.
fn table_names(table: ChainTable, number: u64) -> bool
    ensures { IsTrue result
        ↔ IsSomeAnd table.entry.header (HasStarts number (bytes_of table.entry.bytes)) }
{
    match table.header {
        Some(header) => has_starts(table.bytes, header, number),
        None => false,
    }
}

// Whether the table has starts of the segment with the number.
fn has_starts(chains: Bytes, header: ChainHeader, number: u64) -> bool
    ensures { IsTrue result ↔ HasStarts number (bytes_of chains.entry) header }
{
    let starts = u64::from(header.starts_offset);
    let Some(count) = chains.u32_at(Order::Little, starts) else {
        return false;
    };
    if number >= u64::from(count) {
        return false;
    }
    let entries = starts + DYLD_CHAINED_STARTS_IN_IMAGE_SIZE;
    match chains.u32_at(Order::Little, entries + number * SEG_INFO_OFFSET_SIZE) {
        Some(starts) => starts != 0,
        None => false,
    }
}
