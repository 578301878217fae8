//! The rule of what symbols and exports say of one name. (`mach-o/nlist.h`: `nlist_64`; `mach-o/loader.h`:
//! `LC_DYLD_EXPORTS_TRIE`)

ghost use Rattle.std.specs.Prelude.{◌≡◌, ◌≢◌, ◌↔◌, IsTrue, MatchOption, Some, slice_get};
ghost use Rattle.macho_fields.specs.declared.rule.Rule.{Rule};
ghost use Rattle.macho_alike.specs.Definitions.{DefinesName, meaning_of};
ghost use Rattle.macho_explain.specs.Alike.{address_by, exported_address, exported_value, name_in, name_size as name_size_of, symbols_in, AreNamesUpTo, IsEarlierValue, IsOther, IsOtherBefore, IsOtherValue};
ghost use Rattle.macho_explain.specs.Explained.{ExplainsIn};

use crate::conflict::Conflict;
use crate::explanation::Explanation;
use crate::part::{Part, PartKind, index_of};
use crate::sliced::Sliced;
use crate::strings::string_at;
use crate::symbol::{symbol_here, symbol_with};
use macho_alike::definitions::{defines_name, meaning_of, same};
use macho_alike::symbols::is_external;
use macho_exports::export_trie::{Target, find_export};
use macho_exports::exports::export_table;
use macho_fields::Bytes;
use macho_fields::header::nlist::NLIST_64_SIZE;
use macho_image::{Image, Symbol};

// The value of the symbol, and of the first earlier symbol that defines the same name and says something else of it; or
// of the export with its name.
#[inline(never)]
pub(crate) fn export_symbol(sliced: &Sliced) -> Option<Explanation>
    ensures { ExplainsIn Rule.ExportSymbol sliced.now result }
{
    let (at, image, symbol) = symbol_here(sliced)?;
    let (_, index) = symbol_with(&image, sliced.place)?;
    Some(at.shows(other_value(sliced, &image, symbol, index)))
}

// The value of a symbol with an index, and of the earlier symbol or the export that says something else.
fn other_value(sliced: &Sliced, image: &Image, symbol: Symbol, index: u64) -> Conflict
    ensures value { result.value ≡ symbol.value }
    ensures other { IsOtherValue image.now symbol index result.limit }
{
    match other_definition(image, symbol, index) {
        Some((earlier, other)) => {
            let part = symbol_part(sliced, other.place, earlier);
            Conflict::against(part, symbol.value, other.value)
        }
        None => Conflict::numbers(symbol.value, export_value(image, symbol)),
    }
}

// The symbol with an index, at a place.
fn symbol_part(sliced: &Sliced, place: u64, index: u64) -> Part {
    sliced.structure(PartKind::Symbol, place, NLIST_64_SIZE, index_of(index))
}

// The first of so many symbols that defines the name of this one, and says something else of it; and its index. Names are
// read of such symbols alone that say something else. So if no earlier rule is broken, this takes time in the order of
// the symbols and of the image: external symbols have names of no more bytes.
fn other_definition(image: &Image, symbol: Symbol, index: u64) -> Option<(u64, Symbol)>
    ensures { MatchOption result (¬ IsOtherBefore image.now symbol index)
        (λ found. IsEarlierValue image.now symbol index found.1.value) }
{
    if !defines_name(symbol) {
        return None;
    }
    let name = name_of(image, symbol);
    for earlier in 0..index {
        let other = image.symbol(earlier)?;
        if is_other(image, symbol, name, other) {
            return Some((earlier, other));
        }
    }
    None
}

// Whether the other symbol defines the same name as the first, which defines this one, and says something else of it.
fn is_other(image: &Image, symbol: Symbol, name: &[u8], other: Symbol) -> bool
    requires defines { DefinesName symbol }
    requires name { name.now ≡ name_in image.now symbol }
    ensures { IsTrue result ↔ IsOther image.now symbol other }
{
    says_other(other, symbol) && name_of(image, other) == name
}

// Whether the first symbol defines a name, and says something else of its name than the second of its own.
fn says_other(one: Symbol, other: Symbol) -> bool
    ensures { IsTrue result ↔ (DefinesName one × (meaning_of one ≢ meaning_of other)) }
{
    defines_name(one) && !same(meaning_of(one), meaning_of(other))
}

// The name of a symbol: no bytes where the image has no symbol table.
fn name_of<'a>(image: &Image<'a>, symbol: Symbol) -> &'a [u8]
    ensures { result.now ≡ name_in image.now symbol }
{
    match image.symtab() {
        Some(symtab) => {
            let start = symtab.stroff.saturating_add(u64::from(symbol.strx));
            string_at(image.bytes(), start)
        }
        None => &[],
    }
}

// The address that the export trie has for the name of a symbol, or 0 if it has none.
fn export_value(image: &Image, symbol: Symbol) -> u64
    ensures { result ≡ exported_value image.now (name_in image.now symbol) }
{
    match export_address(image, name_of(image, symbol)) {
        Some(address) => address,
        None => 0,
    }
}

// The address of the export with a name.
fn export_address(image: &Image, name: &[u8]) -> Option<u64>
    ensures { result ≡ exported_address image.now name.now }
{
    let bytes = image.bytes();
    let table = export_table(image)?;
    let trie = bytes.part(table)?;
    let export = find_export(Bytes::new(trie), name)?;
    address_of(image.base(), export.target)
}

// The address to which an export leads, if it does not lead to another library.
fn address_of(base: Option<u64>, target: Target) -> Option<u64>
    ensures { result ≡ address_by base target }
{
    match target {
        Target::Address { address, .. } => Some(base?.saturating_add(address)),
        Target::Reexport { .. } => None,
    }
}

// How many bytes the names of external symbols have up to the symbol, and how many the image has.
#[inline(never)]
pub(crate) fn symbol_total(sliced: &Sliced) -> Option<Explanation>
    ensures { ExplainsIn Rule.SymbolTotal sliced.now result }
{
    let (at, image, _) = symbol_here(sliced)?;
    let (symbol, index) = symbol_with(&image, sliced.place)?;
    let size = names_up_to(&image, symbol, index);
    Some(at.shows(Conflict::numbers(size, image.bytes().len())))
}

// How many bytes the names of external symbols have up to this one, which has the index; or up to an earlier symbol at
// which they have more than the image.
fn names_up_to(image: &Image, symbol: Symbol, index: u64) -> u64
    requires { slice_get (symbols_in image.now) index ≡ Some symbol }
    ensures { AreNamesUpTo image.now index result }
{
    let mut size: u64 = 0;
    for earlier in 0..index {
        let Some(other) = image.symbol(earlier) else {
            return size;
        };
        size = size.saturating_add(name_size(image, other));
        if size > image.bytes().len() {
            return size;
        }
    }
    size.saturating_add(name_size(image, symbol))
}

// How many bytes the name of a symbol has, with the zero byte that ends it, if the symbol is external and has a name.
fn name_size(image: &Image, symbol: Symbol) -> u64
    ensures { result ≡ name_size_of image.now symbol }
{
    if is_external(symbol.kind) && symbol.strx != 0 {
        name_of(image, symbol).len() as u64 + 1
    } else {
        0
    }
}
