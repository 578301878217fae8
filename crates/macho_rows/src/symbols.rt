//! The symbols of an image, and their names.

ghost use Rattle.std.specs.Prelude.{◌≡◌};
ghost use Rattle.macho_fields.specs.Bytes.{bytes_of};
ghost use Rattle.macho_rows.specs.Image.{image_in};
ghost use Rattle.macho_rows.specs.Symbols.{symbol_row, symbols_left};
ghost use Rattle.macho_rows.specs.Symbols.{name_span, section_of, AreNames};
ghost use Rattle.macho_rows.specs.Spans.{part_or_none};

use crate::cursor::KesvuotCursor;
use crate::image::KesvuotImage;
use crate::parts::{first_string, part_or_none, rest};
use crate::span::{Held, KesvuotSpan, NO_SPAN};
use crate::table::Table;
use macho_fields::{Bytes, Span};
use macho_image::{Symbol, Symbols};

/// The index of no section.
const NO_SECTION: u32 = u32::MAX;

/// A symbol. (`nlist_64`)
#[repr(C)]
#[derive(Clone, Copy)]
pub struct KesvuotSymbol {
    pub value: u64,
    /// Where its name begins in the strings, or 0 if it has none.
    pub strx: u32,
    /// The index of the section with the number `sect`, or `NO_SECTION`.
    pub section: u32,
    pub desc: u16,
    /// `n_type`
    pub kind: u8,
    pub sect: u8,
    /// Reserved: 0.
    pub reserved: u32,
}

/// No symbol.
pub const NO_SYMBOL: KesvuotSymbol = KesvuotSymbol {
    value: 0,
    strx: 0,
    section: NO_SECTION,
    desc: 0,
    kind: 0,
    sect: 0,
    reserved: 0,
};

/// Writes where the names of symbols lie in the file, until either table runs out, and returns how many it
/// wrote.
pub fn write_names(
    held: &Held,
    image: &KesvuotImage,
    strings: &[u8],
    symbols: &[KesvuotSymbol],
    names: &mut [KesvuotSpan],
) -> usize
    requires place { held.now.place ≡ image.now.slice.offset }
    requires strings { strings.now ≡ part_or_none image.now.strings image.now.strings_size
        (bytes_of held.now.bytes) }
    ensures { AreNames (bytes_of held.now.bytes) image.now symbols.now result names.old names.new }
{
    let count = symbols.len().min(names.len());
    let mut written = 0;
    while written < count {
        let name = name_span(held, image, strings, symbols[written].strx);
        names[written] = name.unwrap_or(NO_SPAN);
        written += 1;
    }
    count
}

/// Where the name at `strx` in the strings of an image lies in the file, if a zero byte of them ends it.
pub fn name_span(
    held: &Held,
    image: &KesvuotImage,
    strings: &[u8],
    strx: u32,
) -> Option<KesvuotSpan>
    requires place { held.now.place ≡ image.now.slice.offset }
    requires strings { strings.now ≡ part_or_none image.now.strings image.now.strings_size
        (bytes_of held.now.bytes) }
    ensures { result ≡ name_span (bytes_of held.now.bytes) image.now strx }
{
    if strx == 0 {
        return None;
    }
    let name = first_string(rest(strings, u64::from(strx)))?;
    Some(held.span_of(image.strings + u64::from(strx), name))
}

/// The strings of an image, by the numbers of its struct: none where they do not lie inside it.
pub fn strings<'a>(bytes: Bytes<'a>, image: &KesvuotImage) -> &'a [u8]
    ensures { result.now ≡ part_or_none image.now.strings image.now.strings_size
        (bytes_of bytes.entry) }
{
    let strings = Span {
        start: image.strings,
        len: image.strings_size,
    };
    part_or_none(bytes, strings)
}

/// The symbols of an image, by the numbers of its struct.
#[derive(Clone, Copy)]
pub struct SymbolTable<'a> {
    pub bytes: Bytes<'a>,
    pub image: &'a KesvuotImage,
}

impl<'a> SymbolTable<'a> {
    /// The symbols of an image of a file.
    pub fn of(file: &'a [u8], image: &'a KesvuotImage) -> SymbolTable<'a>
        ensures bytes { bytes_of result.bytes ≡ image_in file.now image.now }
        ensures image { result.image.now ≡ image.now }
    {
        SymbolTable {
            bytes: image.held(file).bytes,
            image,
        }
    }
}

impl<'a> Table for SymbolTable<'a> {
    ghost use Rattle.macho_fields.specs.Bytes.{bytes_of};
    ghost use Rattle.macho_rows.specs.Symbols.{symbols_left};

    type Row = KesvuotSymbol;

    ghost left = { λ t. symbols_left (bytes_of t.bytes) t.image.now };

    fn next(&self, cursor: &mut KesvuotCursor) -> Option<KesvuotSymbol> {
        let symbols = Symbols::in_table(self.bytes, self.image.symbols, self.image.symbol_count);
        let symbol = symbols.range(cursor.items, 1).next()?;
        prove!(self.bytes.len() <= u64::MAX);
        cursor.items += 1;
        Some(row_of(symbol, self.image.section_count))
    }
}

/// The row of a symbol of an image with so many sections.
pub fn row_of(symbol: Symbol, sections: u64) -> KesvuotSymbol
    ensures { result ≡ symbol_row sections symbol }
{
    KesvuotSymbol {
        value: symbol.value,
        strx: symbol.strx,
        section: section_of(symbol.sect, sections),
        desc: symbol.desc,
        kind: symbol.kind,
        sect: symbol.sect,
        reserved: 0,
    }
}

// The index of the section with this number, if there is one.
fn section_of(sect: u8, sections: u64) -> u32
    ensures { result ≡ section_of sect sections }
{
    if sect == 0 || u64::from(sect) > sections {
        return NO_SECTION;
    }
    u32::from(sect) - 1
}
