//! Symbols by name. (`mach-o/nlist.h`: `nlist_64`)

ghost use Rattle.macho_fields.specs.Image.{commands_of};
ghost use Rattle.macho_fields.specs.Segment.{section_count};
ghost use Rattle.macho_rows.specs.Image.{image_in, ShowsUnbroken};
ghost use Rattle.macho_rows.specs.SymbolNames.{IsNamed, FindsNamed};
ghost use Rattle.macho_alike.specs.DefinitionModels.{AllDefinitionsAgree};
ghost use Rattle.macho_c.specs.Status.{AnswersSymbol, Tells};
ghost use Rattle.macho_c.specs.SymbolNames.{FindsMeaning};

use crate::status::{NONE, OK};
use macho_image::Symbols;
use macho_rows::image::KesvuotImage;
use macho_rows::symbol_names::first_named;
use macho_rows::symbols::{KesvuotSymbol, NO_SYMBOL, row_of, strings};

/// Finds the first symbol with this name that is not a debugging entry, and writes the symbol and its index. The
/// status is `OK`, or `NONE` without one. Of each symbol it reads no more bytes of the strings than the
/// name has, and one.
#[unsafe(no_mangle)]
pub extern "C" fn kesvuot_find_name(
    file: &[u8],
    image: &KesvuotImage,
    name: &[u8],
    symbol: &mut KesvuotSymbol,
    number: &mut u64,
) -> u32
    ensures answer { Tells (IsNamed (image_in file.now image.now) image.now name.now)
        (AnswersSymbol image.now.section_count result number.new symbol.new) }
    ensures all { ShowsUnbroken file.now image.now
        → Tells (FindsNamed (image_in file.now image.now) name.now)
        (AnswersSymbol (section_count (image_in file.now image.now) (commands_of (image_in file.now image.now))) result
        number.new symbol.new) }
    ensures alike { ShowsUnbroken file.now image.now → AllDefinitionsAgree (image_in file.now image.now)
        → FindsMeaning (image_in file.now image.now) name.now result symbol.new }
{
    *symbol = NO_SYMBOL;
    *number = 0;
    let bytes = image.held(file).bytes;
    let symbols = Symbols::in_table(bytes, image.symbols, image.symbol_count);
    match first_named(symbols, strings(bytes, image), name) {
        Some((first, found)) => {
            *symbol = row_of(found, image.section_count);
            *number = first;
            OK
        }
        None => NONE,
    }
}
