//! The imports of chained fixups. An offset is one in the table. (`mach-o/fixup-chains.h`: `dyld_chained_import`,
//! `dyld_chained_import_addend`, `dyld_chained_import_addend64`)

ghost use Rattle.std.specs.Prelude.{◌≡◌, ◌+◌, ◌*◌, ◌^◌, ◌≤◌, ◌<◌, length, MatchOption, false, true, ℤ};
ghost use Rattle.macho_fields.specs.Bytes.{bytes_of};
ghost use Rattle.macho_chains.specs.ChainImports.{import_bits, import_name_start, import_offset};
ghost use Rattle.macho_fixups.specs.ChainedImports.{addend_at, has_import, import_addend, import_name_size, import_row, is_listed, library_of, weak_at, IsNear};

use crate::batch::Fixups;
use crate::cursor::KesvuotFixupCursor;
use crate::row::KesvuotImport;
use macho_chains::chain_header::{ChainHeader, ImportFormat};
use macho_chains::chain_imports::{Ordinal, name_size};
use macho_fields::{Bytes, Order, Span};
use macho_rows::span::Held;
use macho_tables::fields::word_at;

// The offsets of the addends in their structures.
const ADDEND: u64 = 4;

const ADDEND_64: u64 = 8;

/// The imports of a table of chained fixups.
#[derive(Clone, Copy)]
pub struct ChainImports<'a> {
    /// The table.
    pub table: Held<'a>,
    /// Its header.
    pub header: ChainHeader,
}

impl<'a> ChainImports<'a> {
    ghost use Rattle.std.specs.Prelude.{◌≡◌, ◌<◌, ◌^◌, None, IfSome, MatchOption, true, false};
    ghost use Rattle.macho_fields.specs.Bytes.{bytes_of};
    ghost use Rattle.macho_chains.specs.ChainHeader.{chain_header};
    ghost use Rattle.macho_fixups.specs.ChainedImports.{import_name_size, import_row, is_listed};

    /// The imports of the table, or `None` if its header is not known.
    pub fn of(table: Held<'a>) -> Option<ChainImports<'a>>
        ensures { MatchOption result (chain_header (bytes_of table.entry.bytes) ≡ None)
            (λ imports. (imports.table ≡ table.entry)
            × (chain_header (bytes_of table.entry.bytes) ≡ Some imports.header)) }
    {
        let header = ChainHeader::read(table.bytes)?;
        Some(ChainImports { table, header })
    }

    // The import with this number, with the size of its name, where the names before it have so many bytes.
    #[tactic(auto, unfolding(crate::specs::ChainedImports::is_listed))]
    fn listed(&self, names: u64, index: u64) -> Option<(KesvuotImport, u64)>
        ensures row { MatchOption result
            (is_listed (bytes_of self.now.table.bytes) self.now.header names index ≡ false)
            (λ row. (is_listed (bytes_of self.now.table.bytes) self.now.header names index ≡ true)
            × (row.0 ≡ import_row self.now.table.place (bytes_of self.now.table.bytes) self.now.header index)
            × (row.1 ≡ import_name_size (bytes_of self.now.table.bytes) self.now.header index)) }
        ensures near { IfSome result (λ row. index < 2 ^ 32) }
    {
        let Held { bytes, .. } = self.table;
        if !has_import(bytes, self.header, index) {
            return None;
        }
        let index = index as u32;
        let start = self.header.name_start(bytes, index);
        let size = name_size(bytes, start);
        let len = u128::from(bytes.len());
        if u128::from(start) + size > len || u128::from(names) + size > len {
            return None;
        }
        let size = size as u64;
        Some((self.row_of(index, start, size), size))
    }

    // The row of the import with this number, whose name begins at `start` and has so many bytes, with its zero byte.
    #[tactic(auto, unfolding(crate::specs::ChainedImports::import_row, crate::specs::ChainedImports::import_addend))]
    fn row_of(&self, index: u32, start: u64, size: u64) -> KesvuotImport
        requires there { has_import (bytes_of self.now.table.bytes) self.now.header index ≡ true }
        requires start { start ≡ import_name_start (bytes_of self.now.table.bytes) self.now.header index }
        requires size { size ≡ import_name_size (bytes_of self.now.table.bytes) self.now.header index }
        requires ends { start + size ≤ length (bytes_of self.now.table.bytes) }
        ensures { result ≡ import_row self.now.table.place (bytes_of self.now.table.bytes) self.now.header index }
    {
        let Held { bytes, .. } = self.table;
        let name = Span {
            start,
            len: size - 1,
        };
        let format = self.header.imports_format;
        let offset = self.header.import_offset(index);
        KesvuotImport {
            name: self.table.span_of(start, bytes.read_part(name)),
            library: library_of(self.header.import(bytes, index).ordinal),
            addend: addend_at(bytes, format, offset),
            weak: weak_at(bytes, format, offset),
            reserved: 0,
        }
    }
}

impl<'a> Fixups for ChainImports<'a> {
    ghost use Rattle.macho_fields.specs.Bytes.{bytes_of};
    ghost use Rattle.macho_fixups.specs.ChainedImports.{imports_left};

    type Row = KesvuotImport;

    ghost left = { λ t. imports_left t.table.place (bytes_of t.table.bytes) t.header };

    fn next(&self, cursor: &mut KesvuotFixupCursor) -> Option<KesvuotImport> {
        let (row, size) = self.listed(cursor.name_size, cursor.import)?;
        prove!(self.table.bytes.len() <= u64::MAX);
        cursor.name_size += size;
        cursor.import += 1;
        Some(row)
    }
}

/// Whether the table has the import with this number: all imports lie in the table, and there are more than so many.
pub fn has_import(table: Bytes, header: ChainHeader, index: u64) -> bool
    ensures there { result ≡ has_import (bytes_of table.entry) header index }
    ensures near { result ≡ true → index < 2 ^ 32 }
{
    index < u64::from(header.imports_count) && !header.imports_end_past(table)
}

/// The addend of the import with this number, which the table has.
#[tactic(auto, unfolding(crate::specs::ChainedImports::import_addend))]
pub fn import_addend(table: Bytes, header: ChainHeader, index: u64) -> i64
    requires { has_import (bytes_of table) header index ≡ true }
    ensures { result ≡ import_addend (bytes_of table.entry) header index }
{
    let offset = header.import_offset(index as u32);
    addend_at(table, header.imports_format, offset)
}

// The addend of the import at an offset, which lies in the table.
fn addend_at(table: Bytes, format: ImportFormat, offset: u64) -> i64
    requires { offset + (import_bits format).size ≤ length (bytes_of table) }
    ensures { result ≡ addend_at (bytes_of table.entry) format offset }
{
    match format {
        ImportFormat::Import => 0,
        ImportFormat::ImportAddend => { i64::from(word_at(table, offset + ADDEND).cast_signed()) }
        ImportFormat::ImportAddend64 => table
            .read_u64(Order::Little, offset + ADDEND_64)
            .cast_signed(),
    }
}

// 1 if the import at an offset, which lies in the table, need not be found, otherwise 0.
fn weak_at(table: Bytes, format: ImportFormat, offset: u64) -> u32
    requires { offset + (import_bits format).size ≤ length (bytes_of table) }
    ensures { result ≡ weak_at (bytes_of table.entry) format offset }
{
    match format {
        ImportFormat::Import | ImportFormat::ImportAddend => (word_at(table, offset) >> 8) % 2,
        ImportFormat::ImportAddend64 => {
            ((table.read_u64(Order::Little, offset) >> 16) % 2) as u32
        }
    }
}

// The library that an ordinal says, as a number that is below 0 if it is special.
fn library_of(ordinal: Ordinal) -> i64
    requires { IsNear ordinal }
    ensures { result ≡ library_of ordinal }
{
    match ordinal {
        Ordinal::Library(number) => number as i64,
        Ordinal::Special(below) => -(below as i64),
    }
}
