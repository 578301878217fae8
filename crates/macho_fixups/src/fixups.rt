//! The fixups of an image and what they import, whichever of its commands has them. (`mach-o/loader.h`:
//! `LC_DYLD_CHAINED_FIXUPS`, `dyld_info_command`)

ghost use Rattle.std.specs.Prelude.{◌≡◌, MatchOption, None};
ghost use Rattle.macho_fields.specs.Bytes.{bytes_of};
ghost use Rattle.macho_fixups.specs.Batch.{IsBatch};
ghost use Rattle.macho_fixups.specs.Fixups.{chain_command, IsChainTable, start, fixups_left, imports_left, all_fixups, all_imports, opcode_fixups_left, opcode_imports_left, chained_fixups_left, chained_imports_left};

use crate::batch::fill;
use crate::chained_fixups::ChainFixups;
use crate::chained_imports::ChainImports;
use crate::cursor::KesvuotFixupCursor;
use crate::opcodes::{OpcodeFixups, OpcodeImports};
use crate::row::{KesvuotFixup, KesvuotImport};
use crate::streams::part_of;
use macho_fields::header::loader::LC_DYLD_CHAINED_FIXUPS;
use macho_fields::header::loader::linkedit_data_command::{DATAOFF, DATASIZE};
use macho_fields::{Order, Span};
use macho_rows::load::{Wanted, first_wanted};
use macho_rows::span::Held;

/// Writes the next fixups of an image to the rows of the caller until either runs out, and returns how many it wrote.
/// The image begins at the address `base`.
pub fn read_fixups(
    image: &Held,
    base: u64,
    cursor: &mut KesvuotFixupCursor,
    rows: &mut [KesvuotFixup],
) -> usize
    ensures rows { IsBatch (fixups_left base (bytes_of image.now.bytes)) cursor.old cursor.new result rows.old
        rows.new }
    ensures all { fixups_left base (bytes_of image.now.bytes) start ≡ all_fixups base (bytes_of image.now.bytes) }
{
    match chain_table(image) {
        Some(table) => read_chained_fixups(image, base, &table, cursor, rows),
        None => read_opcode_fixups(image, cursor, rows),
    }
}

/// The same for what they import.
pub fn read_imports(
    image: &Held,
    cursor: &mut KesvuotFixupCursor,
    rows: &mut [KesvuotImport],
) -> usize
    ensures rows { IsBatch (imports_left image.now.place (bytes_of image.now.bytes)) cursor.old cursor.new result
        rows.old rows.new }
    ensures all { imports_left image.now.place (bytes_of image.now.bytes) start
        ≡ all_imports image.now.place (bytes_of image.now.bytes) }
{
    match chain_table(image) {
        Some(table) => read_chained_imports(table, cursor, rows),
        None => read_opcode_imports(image, cursor, rows),
    }
}

// The table of the chained fixups of an image, if it has a command that names one. It has no bytes if they do not all
// lie in the image.
fn chain_table<'a>(image: &Held<'a>) -> Option<Held<'a>>
    ensures { MatchOption result (chain_command (bytes_of image.now.bytes) ≡ None)
        (IsChainTable image.now.place (bytes_of image.now.bytes)) }
{
    let Some(load) = first_wanted(image.bytes, Wanted::LinkeditData(LC_DYLD_CHAINED_FIXUPS)) else {
        return None;
    };
    let data = Span {
        start: u64::from(image.bytes.read_u32(Order::Little, load.place + DATAOFF)),
        len: u64::from(image.bytes.read_u32(Order::Little, load.place + DATASIZE)),
    };
    Some(part_of(image, data))
}

// The fixups of chains: no rows if the header of the table is not known.
fn read_chained_fixups(
    image: &Held,
    base: u64,
    table: &Held,
    cursor: &mut KesvuotFixupCursor,
    rows: &mut [KesvuotFixup],
) -> usize
    ensures { IsBatch (chained_fixups_left base (bytes_of image.now.bytes) (bytes_of table.now.bytes)) cursor.old
        cursor.new result rows.old rows.new }
{
    match ChainFixups::of(image.bytes, base, table.bytes) {
        Some(chains) => fill(&chains, cursor, rows),
        None => 0,
    }
}

fn read_chained_imports(
    table: Held,
    cursor: &mut KesvuotFixupCursor,
    rows: &mut [KesvuotImport],
) -> usize
    ensures { IsBatch (chained_imports_left table.entry.place (bytes_of table.entry.bytes)) cursor.old cursor.new result
        rows.old rows.new }
{
    match ChainImports::of(table) {
        Some(imports) => fill(&imports, cursor, rows),
        None => 0,
    }
}

// The fixups of opcodes.
fn read_opcode_fixups(
    image: &Held,
    cursor: &mut KesvuotFixupCursor,
    rows: &mut [KesvuotFixup],
) -> usize
    ensures { IsBatch (opcode_fixups_left (bytes_of image.now.bytes)) cursor.old cursor.new result rows.old rows.new }
{
    fill(&OpcodeFixups::of(image), cursor, rows)
}

fn read_opcode_imports(
    image: &Held,
    cursor: &mut KesvuotFixupCursor,
    rows: &mut [KesvuotImport],
) -> usize
    ensures { IsBatch (opcode_imports_left image.now.place (bytes_of image.now.bytes)) cursor.old cursor.new result
        rows.old rows.new }
{
    fill(&OpcodeImports::of(image), cursor, rows)
}
