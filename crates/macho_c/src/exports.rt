//! The names that an image exports. (`mach-o/loader.h`: `LC_DYLD_EXPORTS_TRIE`, `dyld_info_command`,
//! `EXPORT_SYMBOL_FLAGS_..`)

ghost use Rattle.std.specs.Prelude.{◌≡◌, ◌+◌, ◌≤◌, None, IfSome, length};
ghost use Rattle.std.specs.Option.{option_map_or};
ghost use Rattle.macho_fields.specs.Bytes.{bytes_of};
ghost use Rattle.macho_fields.specs.Field.{part};
ghost use Rattle.macho_fields.specs.Layers.{NothingBreaks};
ghost use Rattle.macho_fields.specs.Rules.{BreaksImage};
ghost use Rattle.macho_spans.specs.Span.{end_of};
ghost use Rattle.macho_exports.specs.Exports.{export_table as export_table_of};
ghost use Rattle.macho_alike.specs.ExportModels.{HasOneExportOfName};
ghost use Rattle.macho_c.specs.Exports.{from_base, address_of as address_of_of, export_row, exported, IsExported, IsExport, FindsExport, FindsAlike};
ghost use Rattle.macho_rows.specs.Image.{image_in, ShowsUnbroken};

use crate::export_trie::export_trie;
use crate::status::answer;
use macho_exports::export_trie::{Export, Target, find_export};
use macho_fields::Span;
use macho_fields::header::loader::{
    EXPORT_SYMBOL_FLAGS_KIND_ABSOLUTE, EXPORT_SYMBOL_FLAGS_KIND_MASK,
};
use macho_rows::image::KesvuotImage;
use macho_rows::span::{Held, KesvuotSpan, NO_SPAN};

/// What a name is exported as. (`struct kesvuot_export`)
#[repr(C)]
#[derive(Clone, Copy)]
pub struct KesvuotExport {
    /// The flags, as the trie has them.
    pub flags: u64,
    /// The address of the symbol, which is a stub's if it has a resolver. It is 0 of a re-export.
    pub address: u64,
    /// The address of the function that finds the address of the symbol, otherwise 0.
    pub resolver: u64,
    /// Of a re-export, the ordinal of the library that has the symbol, from 1 on, otherwise 0.
    pub ordinal: u64,
    /// Of a re-export, the name that the symbol has there. It is empty if it is the exported name.
    pub name: KesvuotSpan,
    /// Reserved: 0.
    pub reserved: u64,
}

/// Looks up the export with this name, and writes it. The status is `OK`, or `NONE` without one. It takes
/// at most as many steps as the trie and the name have bytes.
#[unsafe(no_mangle)]
pub extern "C" fn kesvuot_find_export(
    file: &[u8],
    image: &KesvuotImage,
    name: &[u8],
    export: &mut KesvuotExport,
) -> u32
    ensures answer { IsExport (image_in file.now image.now) image.now name.now result export.new }
    ensures all { ShowsUnbroken file.now image.now
        → FindsExport (image_in file.now image.now) image.now.slice.offset name.now result export.new }
    ensures alike { ShowsUnbroken file.now image.now → HasOneExportOfName (image_in file.now image.now)
        → FindsAlike (image_in file.now image.now) image.now.slice.offset name.now result export.new }
{
    let found = export_named(&image.held(file), image.base, name);
    answer(found, NO_EXPORT, export)
}

// The export with the name, of an image with this base.
fn export_named(image: &Held, base: u64, name: &[u8]) -> Option<KesvuotExport>
    ensures named { IsExported base image.now.place (bytes_of image.now.bytes) name.now result }
    ensures inside { NothingBreaks (BreaksImage (bytes_of image.now.bytes) None)
        → IfSome (export_table_of (bytes_of image.now.bytes)) (λ table. end_of table ≤ length (bytes_of image.now.bytes)) }
    ensures all { NothingBreaks (BreaksImage (bytes_of image.now.bytes) None)
        → result ≡ exported base image.now.place (bytes_of image.now.bytes)
        (export_table_of (bytes_of image.now.bytes)) name.now }
{
    let table = export_trie(image)?;
    let trie = held_trie(image, table);
    let found = find_export(trie.bytes, name)?;
    Some(row_of(base, &trie, found))
}

// The bytes of the trie of an image, and where they begin in the file.
fn held_trie<'a>(image: &Held<'a>, table: Span) -> Held<'a>
    requires { end_of table ≤ length (bytes_of image.now.bytes) }
    ensures bytes { bytes_of result.bytes ≡ part table.start table.len (bytes_of image.now.bytes) }
    ensures place { result.place ≡ image.now.place + table.start }
{
    Held {
        bytes: image.bytes.slice(table),
        place: image.place + table.start,
    }
}

// No export.
pub(crate) const NO_EXPORT: KesvuotExport = KesvuotExport {
    flags: 0,
    address: 0,
    resolver: 0,
    ordinal: 0,
    name: NO_SPAN,
    reserved: 0,
};

// The row of an export.
pub(crate) fn row_of(base: u64, trie: &Held, export: Export) -> KesvuotExport
    ensures { result ≡ export_row base trie.now.place (bytes_of trie.now.bytes) export }
{
    let flags = export.flags;
    match export.target {
        Target::Address { address, resolver } => KesvuotExport {
            flags,
            address: address_of(base, flags, address),
            resolver: resolver_of(base, resolver),
            ..NO_EXPORT
        },
        Target::Reexport { ordinal, name } => KesvuotExport {
            flags,
            ordinal,
            name: trie.part(name.start, name.len),
            ..NO_EXPORT
        },
    }
}

// The address of a symbol. It counts from the base, unless the symbol is absolute.
fn address_of(base: u64, flags: u64, number: u64) -> u64
    ensures { result ≡ address_of_of base flags number }
{
    if flags & EXPORT_SYMBOL_FLAGS_KIND_MASK == EXPORT_SYMBOL_FLAGS_KIND_ABSOLUTE {
        number
    } else {
        base.wrapping_add(number)
    }
}

// The address of a resolver, or 0 without one.
fn resolver_of(base: u64, resolver: Option<u64>) -> u64
    ensures { result ≡ option_map_or (from_base base) resolver 0 }
{
    match resolver {
        Some(number) => base.wrapping_add(number),
        None => 0,
    }
}
