//! The symbols of an image, and their names.

ghost use Rattle.macho_rows.specs.Cursor.{start, IsBatch};
ghost use Rattle.macho_rows.specs.Image.{image_in, ShowsUnbroken};
ghost use Rattle.macho_rows.specs.Symbols.{symbols_left, HasAllSymbols};
ghost use Rattle.macho_rows.specs.Symbols.{name_span, NamesSymbols, AreNames, NamesEach};
ghost use Rattle.macho_rows.specs.Spans.{span_at};
ghost use Rattle.macho_c.specs.Status.{Answers, Tells};

use crate::status::answer;
use macho_rows::cursor::KesvuotCursor;
use macho_rows::image::KesvuotImage;
use macho_rows::span::{KesvuotSpan, NO_SPAN};
use macho_rows::symbols::{KesvuotSymbol, SymbolTable, name_span, strings, write_names};
use macho_rows::table::fill;

/// Writes the symbols from the cursor on to the rows of the table, until either runs out, moves the
/// cursor past them, and returns how many it wrote. Later rows are unchanged. It does not scan the
/// symbols before them.
#[unsafe(no_mangle)]
pub extern "C" fn kesvuot_read_symbols(
    file: &[u8],
    image: &KesvuotImage,
    cursor: &mut KesvuotCursor,
    rows: &mut [KesvuotSymbol],
) -> usize
    ensures rows { IsBatch (symbols_left (image_in file.now image.now) image.now) cursor.old cursor.new
        result rows.old rows.new }
    ensures all { ShowsUnbroken file.now image.now
        → HasAllSymbols (image_in file.now image.now)
        (symbols_left (image_in file.now image.now) image.now start) }
{
    fill(&SymbolTable::of(file, image), cursor, rows)
}

/// Writes where the name at `strx` in the strings lies in the file. The status is `OK`, or `NONE` where
/// `strx` is 0, and where no zero byte of the strings ends a name there.
#[unsafe(no_mangle)]
pub extern "C" fn kesvuot_symbol_name(
    file: &[u8],
    image: &KesvuotImage,
    strx: u32,
    name: &mut KesvuotSpan,
) -> u32
    ensures name { Answers (span_at 0 0) result name.new (name_span (image_in file.now image.now) image.now strx) }
    ensures all { ShowsUnbroken file.now image.now
        → Tells (NamesSymbols (image_in file.now image.now) image.now.slice.offset strx)
        (Answers (span_at 0 0) result name.new) }
{
    let held = image.held(file);
    let strings = strings(held.bytes, image);
    answer(name_span(&held, image, strings, strx), NO_SPAN, name)
}

/// Writes where the names of symbols lie in the file, as `kesvuot_symbol_name` does for each, until
/// either table runs out, and returns how many it wrote. Later names are unchanged.
#[unsafe(no_mangle)]
pub extern "C" fn kesvuot_read_names(
    file: &[u8],
    image: &KesvuotImage,
    symbols: &[KesvuotSymbol],
    names: &mut [KesvuotSpan],
) -> usize
    ensures names { AreNames (image_in file.now image.now) image.now symbols.now result names.old names.new }
    ensures all { ShowsUnbroken file.now image.now
        → NamesEach (image_in file.now image.now) image.now.slice.offset symbols.now result names.new }
{
    let held = image.held(file);
    let strings = strings(held.bytes, image);
    write_names(&held, image, strings, symbols, names)
}
