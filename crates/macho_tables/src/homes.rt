//! Where the tables lie that loaders look for by commands: a loader reads them in memory while it writes, so it must
//! find them there as they are in the file. (`mach-o/loader.h`)

ghost use Rattle.std.specs.Prelude.{◌≡◌, ◌↔◌, ◌+◌, ◌≤◌, [], length, IsTrue, Any, if◌then◌else◌};
ghost use Rattle.std.specs.Option.{option_map_or};
ghost use Rattle.macho_fields.specs.FirstPlace.{IsLeastPlace};
ghost use Rattle.macho_fields.specs.Image.{commands_of};
ghost use Rattle.macho_fields.specs.LoadCommands.{structure_of, structure_size, table_fields as fields_of, width_size};
ghost use Rattle.macho_fields.specs.Segment.{all_segments};
ghost use Rattle.macho_fields.specs.Symbol.{table_at, tables_of};
ghost use Rattle.macho_fields.specs.declared.load_command.Structure.TheVariants.{SymtabCommand, DysymtabCommand};
ghost use Rattle.macho_fields.specs.declared.load_command.Width.TheVariants.{Uint32};
ghost use Rattle.macho_image.specs.Command.{command_of};
ghost use Rattle.macho_image.specs.Opened.{IsCommandOf};
ghost use Rattle.macho_tables.specs.Homes.{bytes_of_table, bytes_of_items, Encrypts, IsHome, IsAstray, HasHome, IsHomeless, HasHomeless, LacksHome, LosesSymbols, LosesIndirects, HasHomelessSymbols, HasLost, BreaksTableHome, IsTextElsewhere, HasTextAt, IsSafeBase, HasSafeBase, BreaksHeaderHome};
ghost use Rattle.macho_tables.specs.Kinds.{names_linked_data as linked_data_of};
ghost use Rattle.macho_tables.specs.Segments.{IsLinkedit, IsText};
ghost use Rattle.macho_spans.specs.Span.{Shares};

use crate::kinds::names_linked_data;
use crate::place::{place_of, table_fields};
use crate::segment::{is_constant, is_linkedit, is_protected, is_text};
use macho_fields::header::loader::dysymtab_command::{INDIRECTSYMOFF, NINDIRECTSYMS};
use macho_fields::header::loader::symtab_command::{NSYMS, STROFF, STRSIZE, SYMOFF};
use macho_fields::header::loader::{
    INDIRECT_ENTRY_SIZE, LC_DYSYMTAB, LC_ENCRYPTION_INFO_64, LC_SYMTAB, SEGMENT_COMMAND_64_SIZE,
};
use macho_fields::header::nlist::NLIST_64_SIZE;
use macho_fields::{Span, TableFields, Width};
use macho_image::{Command, Image, Segment};

/// The symbols of `LC_SYMTAB`.
const SYMBOL_TABLE: TableFields = TableFields {
    place: SYMOFF,
    count: NSYMS,
    width: Width::Uint32,
    item_size: NLIST_64_SIZE,
};

/// The strings of `LC_SYMTAB`.
const STRING_TABLE: TableFields = TableFields {
    place: STROFF,
    count: STRSIZE,
    width: Width::Uint32,
    item_size: 1,
};

/// The indirect entries of `LC_DYSYMTAB`.
const INDIRECT_TABLE: TableFields = TableFields {
    place: INDIRECTSYMOFF,
    count: NINDIRECTSYMS,
    width: Width::Uint32,
    item_size: INDIRECT_ENTRY_SIZE,
};

/// The place of the first command that names a table without a home, of linked data, symbols, strings or indirect
/// entries: a loader does not find it in a segment named `__LINKEDIT`, can write it, or finds other bytes than the
/// file's.
pub fn table_home(image: &Image) -> Option<u64>
    ensures { IsLeastPlace (BreaksTableHome image.now) result }
{
    place_of(
        image
            .commands_with_tables()
            .find(|command| has_lost(image, command)),
    )
}

/// The place 0, if the image has no base, or its segment can be written or not be read, or a loader that goes by the
/// name `__TEXT` takes no address or another one for the base.
pub fn header_home(image: &Image) -> Option<u64>
    ensures { IsLeastPlace (BreaksHeaderHome image.now) result }
{
    if has_safe_base(image) { None } else { Some(0) }
}

// Whether the image has a base, which loaders find, and cannot write.
fn has_safe_base(image: &Image) -> bool
    ensures { IsTrue result ↔ HasSafeBase image.now }
{
    let base = image.segments().find(|segment| segment.shows_start());
    match base {
        Some(segment) => is_safe_base(image, &segment),
        None => false,
    }
}

// Whether the segment can be read and not written, and loaders take its address for the base.
fn is_safe_base(image: &Image, segment: &Segment) -> bool
    requires { segment.now.image ≡ image.now }
    ensures { IsTrue result ↔ IsSafeBase segment.now.image segment.now.place }
{
    is_constant(segment) && has_text_at(image, segment.vmaddr())
}

// Whether loaders, which go by the name of a segment, take this address for the base.
fn has_text_at(image: &Image, base: u64) -> bool
    ensures { IsTrue result ↔ HasTextAt image.now base }
{
    has_text(image) && !has_text_elsewhere(image, base)
}

// Whether some segment is one that loaders take for the one with the base.
fn has_text(image: &Image) -> bool
    ensures { IsTrue result ↔ Any (IsText image.now) (all_segments image.now) }
{
    image.segments().any(|segment| is_text(&segment))
}

// Whether some such segment has another address than the base.
fn has_text_elsewhere(image: &Image, base: u64) -> bool
    ensures { IsTrue result ↔ Any (IsTextElsewhere base image.now) (all_segments image.now) }
{
    image
        .segments()
        .any(|segment| is_text(&segment) && segment.vmaddr() != base)
}

// Whether the command names a table that loaders look for, and that has no home.
fn has_lost(image: &Image, command: &Command) -> bool
    requires { IsCommandOf image.now (command_of command.now) }
    ensures { IsTrue result ↔ HasLost image.now command.now.place }
{
    has_homeless(image, command) || has_homeless_symbols(image, command)
}

// Whether the command has symbols, strings or indirect entries without a home.
fn has_homeless_symbols(image: &Image, command: &Command) -> bool
    requires { IsCommandOf image.now (command_of command.now) }
    ensures { IsTrue result ↔ HasHomelessSymbols image.now command.now.place }
{
    if command.cmd == LC_SYMTAB {
        return loses_symbols(image, command.place);
    }
    command.cmd == LC_DYSYMTAB && loses_indirects(image, command.place)
}

// Whether the symbols or the strings of the `symtab_command` have no home.
fn loses_symbols(image: &Image, symtab: u64) -> bool
    requires { symtab + structure_size SymtabCommand ≤ length image.now }
    ensures { IsTrue result ↔ LosesSymbols image.now symtab }
{
    lose_home(image, symtab, SYMBOL_TABLE) || lose_home(image, symtab, STRING_TABLE)
}

// Whether the indirect entries of the `dysymtab_command` have no home.
fn loses_indirects(image: &Image, dysymtab: u64) -> bool
    requires { dysymtab + structure_size DysymtabCommand ≤ length image.now }
    ensures { IsTrue result ↔ LosesIndirects image.now dysymtab }
{
    lose_home(image, dysymtab, INDIRECT_TABLE)
}

// Whether the items that these fields of the command bound have bytes and no home.
fn lose_home(image: &Image, command: u64, fields: TableFields) -> bool
    requires place { command + fields.place + width_size fields.width ≤ length image.now }
    requires count { command + fields.count + width_size fields.width ≤ length image.now }
    requires width { fields.width ≡ Uint32 }
    requires item { fields.item_size ≤ NLIST_64_SIZE }
    ensures { IsTrue result
        ↔ LacksHome image.now (bytes_of_items (table_at image.now command fields)) }
{
    lacks_home(image, items_of(image, command, fields))
}

// The bytes of the items that these fields of the command bound.
fn items_of(image: &Image, command: u64, fields: TableFields) -> Span
    requires place { command + fields.place + width_size fields.width ≤ length image.now }
    requires count { command + fields.count + width_size fields.width ≤ length image.now }
    requires width { fields.width ≡ Uint32 }
    requires item { fields.item_size ≤ NLIST_64_SIZE }
    ensures { result ≡ bytes_of_items (table_at image.now command fields) }
{
    let bytes = image.bytes();
    let start = fields.table_place(bytes, command);
    let count = fields.item_count(bytes, command);
    let len = count * fields.item_size;
    Span { start, len }
}

// Whether the command names a table of linked data that has bytes and no home.
fn has_homeless(image: &Image, command: &Command) -> bool
    requires { IsCommandOf image.now (command_of command.now) }
    ensures { IsTrue result ↔ HasHomeless image.now command.now.place }
{
    linked_fields(command.cmd)
        .iter()
        .any(|fields| is_homeless(image, command.place, *fields))
}

// The fields that bound the tables of linked data of a command with this `cmd`.
fn linked_fields(cmd: u32) -> &'static [TableFields]
    ensures { result.now
        ≡ (if linked_data_of cmd then option_map_or fields_of (structure_of cmd) [] else []) }
{
    if names_linked_data(cmd) {
        table_fields(cmd)
    } else {
        &[]
    }
}

// Whether the table that these fields of the command bound has bytes and no home.
fn is_homeless(image: &Image, command: u64, fields: TableFields) -> bool
    requires place { command + fields.place + width_size fields.width ≤ length image.now }
    requires count { command + fields.count + width_size fields.width ≤ length image.now }
    ensures { IsTrue result ↔ IsHomeless image.now (table_at image.now command fields) }
{
    lacks_home(image, span_of(image, command, fields))
}

// Whether the table has bytes and no home.
fn lacks_home(image: &Image, table: Span) -> bool
    ensures { IsTrue result ↔ LacksHome image.now table }
{
    table.len > 0 && !has_home(image, table)
}

/// The bytes of the table that these fields of the command bound.
pub fn span_of(image: &Image, command: u64, fields: TableFields) -> Span
    requires place { command + fields.place + width_size fields.width ≤ length image.now }
    requires count { command + fields.count + width_size fields.width ≤ length image.now }
    ensures { result ≡ bytes_of_table (table_at image.now command fields) }
{
    let bytes = image.bytes();
    let start = fields.table_place(bytes, command);
    let len = fields.item_count(bytes, command);
    Span { start, len }
}

// Whether loaders find the table as it is in the file.
fn has_home(image: &Image, table: Span) -> bool
    ensures { IsTrue result ↔ HasHome table image.now }
{
    lies_in_linkedit(image, table) && !is_encrypted(image, table)
}

/// Whether some segment is one in which loaders look for tables.
pub fn has_linkedit(image: &Image) -> bool
    ensures { IsTrue result ↔ Any (IsLinkedit image.now) (all_segments image.now) }
{
    image.segments().any(|segment| is_linkedit(&segment))
}

// Whether there is a segment in which loaders look for tables, and each such segment is a home of the table.
fn lies_in_linkedit(image: &Image, table: Span) -> bool
    ensures { IsTrue result ↔ (Any (IsLinkedit image.now) (all_segments image.now)
        × ¬ Any (IsAstray table image.now) (all_segments image.now)) }
{
    let mut found = false;
    for segment in image.segments() {
        if is_linkedit(&segment) {
            if !is_home(&segment, table) {
                return false;
            }
            found = true;
        }
    }
    found
}

/// Whether the segment is a home of the table: mapped, read and not written, not decrypted, with the table
/// in its file bytes.
pub fn is_home(segment: &Segment, table: Span) -> bool
    requires { segment.now.place + SEGMENT_COMMAND_64_SIZE ≤ length segment.now.image }
    ensures { IsTrue result ↔ IsHome table segment.now.image segment.now.place }
{
    segment.vmsize() > 0
        && is_constant(segment)
        && !is_protected(segment)
        && table.inside(&segment.file_part())
}

// Whether a byte of the table is in an encrypted range.
fn is_encrypted(image: &Image, table: Span) -> bool
    ensures { IsTrue result ↔ Any (Encrypts table image.now) (commands_of image.now) }
{
    image
        .commands_with_tables()
        .any(|command| encrypts(image, &command, table))
}

/// Whether the command has an encrypted range with a byte of the table.
pub fn encrypts(image: &Image, command: &Command, table: Span) -> bool
    requires { IsCommandOf image.now (command_of command.now) }
    ensures { IsTrue result ↔ Encrypts table image.now command.now.place }
{
    command.cmd == LC_ENCRYPTION_INFO_64 && shares_range(image, command, table)
}

// Whether one of the ranges that the command bounds has a byte of the table.
fn shares_range(image: &Image, command: &Command, table: Span) -> bool
    requires { IsCommandOf image.now (command_of command.now) }
    ensures { IsTrue result
        ↔ Any (λ range. Shares (bytes_of_table range) table)
        (tables_of image.now command.now.place) }
{
    table_fields(command.cmd).iter().any(|fields| {
        let range = span_of(image, command.place, *fields);
        range.shares(&table)
    })
}
