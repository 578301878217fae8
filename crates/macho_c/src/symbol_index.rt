//! Symbols by address: an index of the symbols with an address, and a search in it. (`mach-o/nlist.h`: `nlist_64`)

ghost use Rattle.macho_fields.specs.Image.{commands_of};
ghost use Rattle.macho_fields.specs.Segment.{section_count};
ghost use Rattle.macho_rows.specs.Image.{image_in, ShowsUnbroken};
ghost use Rattle.macho_rows.specs.SymbolIndex.{symbols_shown, symbols_seen, IsIndexed};
ghost use Rattle.macho_rows.specs.SymbolIndex.{FindsLast, FindsNearest};
ghost use Rattle.macho_c.specs.Status.{AnswersSymbol, Tells};

use crate::status::{NONE, OK};
use macho_rows::image::KesvuotImage;
use macho_rows::symbol_index::{count_addresses, last_at_or_before, write_index};
use macho_rows::symbols::{KesvuotSymbol, NO_SYMBOL, SymbolTable, row_of};

/// Writes the indices of the symbols whose value is an address, by ascending values, and of one value by
/// ascending indices. These are the symbols of a section that are not debugging entries. Returns how many
/// they are. Without room for all, the index is unchanged.
#[unsafe(no_mangle)]
pub extern "C" fn kesvuot_index_symbols(
    file: &[u8],
    image: &KesvuotImage,
    index: &mut [u32],
) -> usize
    ensures index { IsIndexed (symbols_shown (image_in file.now image.now) image.now) result
        index.old index.new }
    ensures all { ShowsUnbroken file.now image.now
        → IsIndexed (symbols_seen (image_in file.now image.now)) result index.old index.new }
{
    let table = SymbolTable::of(file, image);
    let count = count_addresses(table.indexed());
    if count <= index.len() {
        write_index(&table, &mut index[..count]);
    }
    count
}

/// Finds the last entry of an index whose symbol begins at or before the address, by binary search, and
/// writes the symbol and the position of the entry. The status is `OK`, or `NONE` without one. Of
/// an index that is not as `kesvuot_index_symbols` wrote it, it finds some entry whose symbol begins at or
/// before the address, and the one after it does not.
#[unsafe(no_mangle)]
pub extern "C" fn kesvuot_find_symbol(
    file: &[u8],
    image: &KesvuotImage,
    index: &[u32],
    address: u64,
    symbol: &mut KesvuotSymbol,
    position: &mut usize,
) -> u32
    ensures answer { Tells (FindsLast (symbols_shown (image_in file.now image.now) image.now) index.now address)
        (AnswersSymbol image.now.section_count result position.new symbol.new) }
    ensures all { ShowsUnbroken file.now image.now
        → Tells (FindsNearest (image_in file.now image.now) index.now address)
        (AnswersSymbol (section_count (image_in file.now image.now) (commands_of (image_in file.now image.now))) result
        position.new symbol.new) }
{
    *symbol = NO_SYMBOL;
    *position = 0;
    let table = SymbolTable::of(file, image);
    match last_at_or_before(&table.indexed(), index, address) {
        Some((last, found)) => {
            *symbol = row_of(found, image.section_count);
            *position = last;
            OK
        }
        None => NONE,
    }
}
