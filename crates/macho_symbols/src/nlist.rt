//! What the type and the description of a symbol say of it. (`mach-o/nlist.h`: `nlist_64`)

ghost use Rattle.std.specs.Prelude.{◌≡◌, ◌↔◌, IsTrue};
ghost use Rattle.macho_symbols.specs.Nlist.{HasType, IsImported, library_ordinal as library_ordinal_of, NamesNoLibrary};

use macho_fields::header::nlist::{
    DYNAMIC_LOOKUP_ORDINAL, EXECUTABLE_ORDINAL, N_PBUD, N_STAB, N_TYPE, N_UNDF,
};
use macho_image::Symbol;

/// Whether the symbol is not a debugging entry, and has the type.
pub fn has_type(symbol: Symbol, wanted: u8) -> bool
    ensures { IsTrue result ↔ HasType wanted symbol }
{
    symbol.kind & N_STAB == 0 && symbol.kind & N_TYPE == wanted
}

/// Whether another image defines the symbol.
pub fn is_imported(symbol: Symbol) -> bool
    ensures { IsTrue result ↔ IsImported symbol }
{
    (has_type(symbol, N_UNDF) && symbol.value == 0) || has_type(symbol, N_PBUD)
}

/// The number of the library that an undefined symbol is from, or 0 if it is from the image itself.
pub fn library_ordinal(symbol: Symbol) -> u16
    ensures { result ≡ library_ordinal_of symbol }
{
    symbol.desc >> 8
}

/// Whether another image defines the symbol, and none of so many libraries has its number, which is not a special
/// one either.
pub fn names_no_library(symbol: Symbol, libraries: u64) -> bool
    ensures { IsTrue result ↔ NamesNoLibrary libraries symbol }
{
    let ordinal = library_ordinal(symbol);
    is_imported(symbol)
        && u64::from(ordinal) > libraries
        && ordinal != DYNAMIC_LOOKUP_ORDINAL
        && ordinal != EXECUTABLE_ORDINAL
}
