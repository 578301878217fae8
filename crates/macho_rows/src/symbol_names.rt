//! Symbols by name. (`mach-o/nlist.h`: `nlist_64`)

ghost use Rattle.std.specs.Prelude.{◌≡◌, ◌↔◌, ◌^◌, ◌<◌, length, slice_get, IsTrue, Some};
ghost use Rattle.macho_rows.specs.Rows.{first_string};
ghost use Rattle.macho_rows.specs.SymbolNames.{HasNameAmong, FindsFirst};

use crate::parts::rest;
use crate::symbols::strings;
use macho_fields::Bytes;
use macho_fields::header::nlist::N_STAB;
use macho_image::{Symbol, Symbols};

/// The first of the symbols that has the name, and its index.
pub fn first_named(symbols: Symbols, strings: &[u8], name: &[u8]) -> Option<(u64, Symbol)>
    requires { length symbols < 2 ^ 64 }
    ensures { FindsFirst (HasNameAmong strings.now name.now) symbols.entry result }
{
    let mut number = 0;
    for symbol in symbols {
        if is_named(strings, name, &symbol) {
            return Some((number, symbol));
        }
        number += 1;
    }
    None
}

// Whether a symbol has the name, and is not a debugging entry.
fn is_named(strings: &[u8], name: &[u8], symbol: &Symbol) -> bool
    ensures { IsTrue result ↔ HasNameAmong strings.now name.now symbol.now }
{
    symbol.kind & N_STAB == 0
        && symbol.strx != 0
        && is_string(rest(strings, u64::from(symbol.strx)), name)
}

// Whether the first zero byte follows the name, with which the bytes begin. Of most strings the byte past the name
// alone shows that they are another one.
fn is_string(bytes: &[u8], name: &[u8]) -> bool
    ensures { IsTrue result ↔ (first_string bytes.now ≡ Some name.now) }
{
    has_zero_at(bytes, name.len()) && bytes.starts_with(name) && !name.contains(&0)
}

// Whether a zero byte is at an offset.
fn has_zero_at(bytes: &[u8], offset: usize) -> bool
    ensures { IsTrue result ↔ (slice_get bytes.now offset ≡ Some 0) }
{
    Bytes::new(bytes).u8_at(offset as u64) == Some(0)
}
