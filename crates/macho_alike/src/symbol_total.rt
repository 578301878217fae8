//! The rule of how many bytes the names of external symbols have together. (`mach-o/nlist.h`: `nlist_64`)

ghost use Rattle.std.specs.Prelude.{None};
ghost use Rattle.macho_fields.specs.FirstPlace.{IsLeastPlace};
ghost use Rattle.macho_fields.specs.Layers.{NothingBreaks};
ghost use Rattle.macho_fields.specs.Rules.{BreaksImage as Breaks};
ghost use Rattle.macho_alike.specs.SymbolTotal.{BreaksSymbolTotal};

use crate::names::name_of;
use macho_image::Image;

/// The place of the first external symbol with which the names of external symbols have more bytes than the image: the
/// names up to it, each with the zero byte that ends it. A symbol without a name counts nothing. The image breaks
/// no rule of the layout.
///
/// Names may share their bytes, so that many of them are ends of one long string. Where this rule is unbroken, names can
/// be sorted by their bytes. The symbols are read once, and no more bytes of names than the image has, besides the name
/// that is found.
pub fn symbol_total(image: &Image) -> Option<u64>
    requires { NothingBreaks (Breaks image.now None) }
    ensures { IsLeastPlace (BreaksSymbolTotal image.now) result }
{
    let symtab = image.symtab()?;
    let bytes = image.bytes();
    let limit = u128::from(bytes.len());
    let mut total: u128 = 0;
    for symbol in image.symbols() {
        if let Some(name) = name_of(bytes, symtab.stroff, symbol) {
            total += u128::from(name.len) + 1;
            if total > limit {
                return Some(symbol.place);
            }
        }
    }
    None
}
