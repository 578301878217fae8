//! Symbols by address: an index of the symbols with an address, and a search in it. (`mach-o/nlist.h`: `nlist_64`)

ghost use Rattle.std.specs.Prelude.{◌≡◌, ◌-◌, ◌^◌, ◌≤◌, ◌<◌, true, length, slice_get, slice_index};
ghost use Rattle.macho_fields.specs.Bytes.{bytes_of};
ghost use Rattle.macho_rows.specs.SymbolIndex.{symbols_shown, addresses, IsIndex};
ghost use Rattle.macho_rows.specs.SymbolIndex.{is_address, sort_key, is_at_or_before, BeginsPast, FindsLast};

use crate::symbols::SymbolTable;
use macho_image::{Symbol, Symbols};

/// How many symbols an index can name. No image has more: `nsyms` has 32 bits.
const MOST_SYMBOLS: u64 = 1 << 32;

impl<'a> SymbolTable<'a> {
    /// The symbols that an index can name.
    pub fn indexed(&self) -> Symbols<'a>
        ensures { result ≡ symbols_shown (bytes_of self.now.bytes) self.now.image.now }
    {
        Symbols::in_table(self.bytes, self.image.symbols, self.image.symbol_count).range(
            0,
            MOST_SYMBOLS,
        )
    }
}

/// How many of the symbols have an address.
pub fn count_addresses(symbols: Symbols) -> usize
    requires { length symbols ≤ 2 ^ 32 }
    ensures { result ≡ length (addresses symbols.entry) }
{
    let mut count = 0;
    for symbol in symbols {
        if is_address(&symbol) {
            count += 1;
        }
    }
    count
}

/// Writes an index of the symbols of a table, for which there is exactly room.
pub fn write_index(table: &SymbolTable, index: &mut [u32])
    requires { length index.old
        ≡ length (addresses (symbols_shown (bytes_of table.now.bytes) table.now.image.now)) }
    ensures { IsIndex (symbols_shown (bytes_of table.now.bytes) table.now.image.now) index.new }
{
    write_addresses(table.indexed(), index);
    let symbols = table.indexed();
    index.sort_unstable_by_key(|number| sort_key(&symbols, *number));
}

// Writes the indices of the symbols that have an address, in the order of their table.
fn write_addresses(symbols: Symbols, index: &mut [u32])
    requires few { length symbols ≤ 2 ^ 32 }
    requires room { length index.old ≡ length (addresses symbols) }
    ensures { index.new ≡ addresses symbols.entry }
{
    let mut number = 0;
    let mut written = 0;
    for symbol in symbols {
        if is_address(&symbol) {
            index[written] = number as u32;
            written += 1;
        }
        number += 1u64;
    }
}

// Whether the value of a symbol is an address.
fn is_address(symbol: &Symbol) -> bool
    ensures { result ≡ is_address symbol.now.kind }
{
    symbol.names_section()
}

// The key by which an index is sorted: the value of the symbol with this index, and then the index.
fn sort_key(symbols: &Symbols, number: u32) -> u128
    ensures { result ≡ sort_key symbols.now number }
{
    let value = match symbol_with(symbols, number) {
        Some(symbol) => symbol.value,
        None => 0,
    };
    u128::from(value) * u128::from(MOST_SYMBOLS) + u128::from(number)
}

// The symbol with this index, if there is one.
fn symbol_with(symbols: &Symbols, number: u32) -> Option<Symbol>
    ensures { result ≡ slice_get symbols.now number }
{
    symbols.range(u64::from(number), 1).next()
}

/// The last position of an index whose symbol begins at or before the address, and the symbol.
pub fn last_at_or_before(symbols: &Symbols, index: &[u32], address: u64) -> Option<(usize, Symbol)>
    ensures { FindsLast symbols.now index.now address result }
{
    let last = count_at_or_before(symbols, index, address).checked_sub(1)?;
    let symbol = symbol_with(symbols, index[last])?;
    Some((last, symbol))
}

// How many entries of a sorted index begin at or before the address. Of any other index, it is a
// position before which the symbol does, and at which it does not.
fn count_at_or_before(symbols: &Symbols, index: &[u32], address: u64) -> usize
    ensures bound { result ≤ length index.now }
    ensures before { 0 < result
        → is_at_or_before symbols.now address (slice_index index.now (result - 1)) ≡ true }
    ensures past { BeginsPast symbols.now index.now address result }
{
    let mut low = 0;
    let mut high = index.len();
    while low < high {
        let middle = low + (high - low) / 2;
        if is_at_or_before(symbols, index[middle], address) {
            low = middle + 1;
        } else {
            high = middle;
        }
    }
    low
}

// Whether there is a symbol with this index, and it begins at or before the address.
fn is_at_or_before(symbols: &Symbols, number: u32, address: u64) -> bool
    ensures { result ≡ is_at_or_before symbols.now address number }
{
    match symbol_with(symbols, number) {
        Some(symbol) => symbol.value <= address,
        None => false,
    }
}
