//! The tables that load commands bound. (`mach-o/loader.h`)

ghost use Rattle.std.specs.Prelude.{◌≡◌, ◌+◌, ◌≤◌, length, slice_get, Some};
ghost use Rattle.std.specs.Option.{option_map};
ghost use Rattle.macho_fields.specs.Bytes.{bytes_of};
ghost use Rattle.macho_fields.specs.LoadCommands.{table_fields, width_size};
ghost use Rattle.macho_rows.specs.BoundedTables.{bounds, bounds_of, found_table, table_in_file};

use crate::load::{Wanted, first_wanted};
use crate::span::{Held, KesvuotSpan, NO_SPAN};
use macho_fields::{Structure, TableFields};

/// A table that load commands bound.
#[derive(Clone, Copy)]
pub enum BoundedTable {
    Symbols,
    Strings,
    Contents,
    Modules,
    References,
    Indirects,
    ExternalRelocations,
    LocalRelocations,
    Rebase,
    Bind,
    WeakBind,
    LazyBind,
    Export,
    Encrypted,
}

/// Where a table lies in the file that the first command bounds that holds its structure.
pub fn found_table(image: &Held, table: BoundedTable) -> Option<KesvuotSpan>
    ensures { result ≡ found_table image.now.place (bytes_of image.now.bytes) table }
{
    let bounds = bounds_of(table)?;
    let load = first_wanted(image.bytes, bounds.wanted)?;
    table_at(image, load.place, bounds.fields)
}

// Where the table lies that these fields of the command at the place `command` bound, or `None` if it ends
// past the image. Without items it has no bytes, wherever it is.
fn table_at(image: &Held, command: u64, fields: TableFields) -> Option<KesvuotSpan>
    requires place { command + fields.place + width_size fields.width ≤ length (bytes_of image.now.bytes) }
    requires count { command + fields.count + width_size fields.width ≤ length (bytes_of image.now.bytes) }
    ensures { result ≡ table_in_file image.now.place (bytes_of image.now.bytes) command fields }
{
    let start = fields.table_place(image.bytes, command);
    let count = fields.item_count(image.bytes, command);
    if count == 0 {
        return Some(NO_SPAN);
    }
    if !image.bytes.contains_table(start, count, fields.item_size) {
        return None;
    }
    Some(image.part(start, count * fields.item_size))
}

// What bounds a table: two fields of the commands that are wanted for it.
#[derive(Clone, Copy)]
struct Bounds {
    wanted: Wanted,
    fields: TableFields,
}

// What bounds a table.
fn bounds_of(table: BoundedTable) -> Option<Bounds>
    ensures { result ≡ Some (bounds_of table) }
{
    match table {
        BoundedTable::Symbols => bounds_in(Wanted::Symtabs, Structure::SymtabCommand, 0),
        BoundedTable::Strings => bounds_in(Wanted::Symtabs, Structure::SymtabCommand, 1),
        BoundedTable::Contents => bounds_in(Wanted::Dysymtabs, Structure::DysymtabCommand, 0),
        BoundedTable::Modules => bounds_in(Wanted::Dysymtabs, Structure::DysymtabCommand, 1),
        BoundedTable::References => bounds_in(Wanted::Dysymtabs, Structure::DysymtabCommand, 2),
        BoundedTable::Indirects => bounds_in(Wanted::Dysymtabs, Structure::DysymtabCommand, 3),
        BoundedTable::ExternalRelocations => bounds_in(
            Wanted::Dysymtabs,
            Structure::DysymtabCommand,
            4,
        ),
        BoundedTable::LocalRelocations => bounds_in(
            Wanted::Dysymtabs,
            Structure::DysymtabCommand,
            5,
        ),
        BoundedTable::Rebase => bounds_in(Wanted::DyldInfos, Structure::DyldInfoCommand, 0),
        BoundedTable::Bind => bounds_in(Wanted::DyldInfos, Structure::DyldInfoCommand, 1),
        BoundedTable::WeakBind => bounds_in(Wanted::DyldInfos, Structure::DyldInfoCommand, 2),
        BoundedTable::LazyBind => bounds_in(Wanted::DyldInfos, Structure::DyldInfoCommand, 3),
        BoundedTable::Export => bounds_in(Wanted::DyldInfos, Structure::DyldInfoCommand, 4),
        BoundedTable::Encrypted => bounds_in(
            Wanted::EncryptionInfos,
            Structure::EncryptionInfoCommand64,
            0,
        ),
    }
}

// What bounds the table with this index among the tables of the structure of the commands.
fn bounds_in(wanted: Wanted, structure: Structure, index: usize) -> Option<Bounds>
    ensures { result ≡ option_map (bounds wanted) (slice_get (table_fields structure) index) }
{
    let fields = *structure.tables().get(index)?;
    Some(Bounds { wanted, fields })
}
