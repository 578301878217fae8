//! The rules of symbols and of indirect entries. (`mach-o/nlist.h`: `nlist_64`)

ghost use Rattle.std.specs.Prelude.{◌≡◌, ◌<◌, ℕ, map, slice_get, MatchOption, Some};
ghost use Rattle.macho_fields.specs.Bytes.{bytes_of};
ghost use Rattle.macho_fields.specs.Image.{commands_of};
ghost use Rattle.macho_fields.specs.declared.rule.Rule.{Rule};
ghost use Rattle.macho_image.specs.Symbol.{symbols_of, symbol_at};
ghost use Rattle.macho_explain.specs.Alike.{IsIndirectAt};
ghost use Rattle.macho_explain.specs.Compared.{HasIndirect};
ghost use Rattle.macho_explain.specs.Explain.{IsSymbolAt};
ghost use Rattle.macho_explain.specs.Explained.{ExplainsIn, IsSpot};
ghost use Rattle.macho_explain.specs.Symbols.{HasSymbol};

use crate::conflict::Conflict;
use crate::explanation::Explanation;
use crate::part::{Part, PartKind, index_of};
use crate::sliced::Sliced;
use crate::spot::Spot;
use crate::table::symtab_table;
use macho_fields::header::loader::INDIRECT_ENTRY_SIZE;
use macho_fields::header::nlist::NLIST_64_SIZE;
use macho_image::{Image, Symbol};
use macho_symbols::nlist::library_ordinal;
use macho_tables::limits::library_count;

// The symbol at the place, and the image.
pub(crate) fn symbol_here<'a>(sliced: &Sliced<'a>) -> Option<(Spot, Image<'a>, Symbol)>
    ensures { MatchOption result (¬ HasSymbol (bytes_of sliced.now.held.bytes) sliced.now.place)
        (λ found. IsSpot sliced.now found.0 × (found.1 ≡ bytes_of sliced.now.held.bytes)
        × (found.2 ≡ symbol_at (bytes_of sliced.now.held.bytes) sliced.now.place)) }
{
    let image = sliced.held.open()?;
    let (symbol, index) = symbol_with(&image, sliced.place)?;
    let index = index_of(index);
    let part = sliced.structure(PartKind::Symbol, sliced.place, NLIST_64_SIZE, index);
    let at = Spot {
        symbol: index,
        ..sliced.at(part)
    };
    Some((at, image, symbol))
}

// The symbol at a place, and its index among the symbols of the image.
pub(crate) fn symbol_with(image: &Image, place: u64) -> Option<(Symbol, u64)>
    ensures { MatchOption result ((k : ℕ) → ¬ IsSymbolAt image.now k place)
        (λ found. (found.0.place ≡ place) × (slice_get (map (symbol_at image.now)
        (symbols_of image.now (commands_of image.now))) found.1 ≡ Some found.0)) }
{
    let offset = place.checked_sub(image.symtab()?.symoff)?;
    let index = offset / NLIST_64_SIZE;
    let symbol = image.symbol(index)?;
    if symbol.place != place {
        return None;
    }
    Some((symbol, index))
}

// Where the name of a symbol begins in the strings, and where these end.
#[inline(never)]
pub(crate) fn symbol_name(sliced: &Sliced) -> Option<Explanation>
    ensures { ExplainsIn Rule.SymbolName sliced.now result }
{
    let (at, _, symbol) = symbol_here(sliced)?;
    Some(at.shows(name_from(sliced, u64::from(symbol.strx))))
}

// The same of the name that an indirect symbol stands in for.
#[inline(never)]
pub(crate) fn symbol_indirect(sliced: &Sliced) -> Option<Explanation>
    ensures { ExplainsIn Rule.SymbolIndirect sliced.now result }
{
    let (at, _, symbol) = symbol_here(sliced)?;
    Some(at.shows(name_from(sliced, symbol.value)))
}

// A name of the symbol at the place, from an offset of the strings on.
fn name_from(sliced: &Sliced, offset: u64) -> Conflict
    ensures { result.value ≡ offset }
{
    let (strings, size) = symtab_table(sliced, 1);
    let start = strings.map_or(0, |strings| strings.start);
    let name = Part {
        start: start.saturating_add(offset),
        size: size.saturating_sub(offset),
        described: sliced.file_place(sliced.place),
        kind: PartKind::Name,
        index: None,
    };
    Conflict {
        second: strings,
        ..Conflict::alone(name, offset, size)
    }
}

// The number of a section, and how many there are.
#[inline(never)]
pub(crate) fn symbol_section(sliced: &Sliced) -> Option<Explanation>
    ensures { ExplainsIn Rule.SymbolSection sliced.now result }
{
    let (at, image, symbol) = symbol_here(sliced)?;
    let section = u64::from(symbol.sect);
    Some(at.shows(Conflict::numbers(section, image.section_count())))
}

// The ordinal of a library, and how many there are.
#[inline(never)]
pub(crate) fn symbol_library(sliced: &Sliced) -> Option<Explanation>
    ensures { ExplainsIn Rule.SymbolLibrary sliced.now result }
{
    let (at, image, symbol) = symbol_here(sliced)?;
    let ordinal = u64::from(library_ordinal(symbol));
    Some(at.shows(Conflict::numbers(ordinal, library_count(&image))))
}

// The address of a symbol, which no segment has.
#[inline(never)]
pub(crate) fn symbol_value(sliced: &Sliced) -> Option<Explanation>
    ensures { ExplainsIn Rule.SymbolValue sliced.now result }
{
    let (at, _, symbol) = symbol_here(sliced)?;
    Some(at.shows(Conflict::numbers(symbol.value, 0)))
}

// The ordinal of the library that the symbol says, and how many libraries there are.
#[inline(never)]
pub(crate) fn import_library(sliced: &Sliced) -> Option<Explanation>
    ensures { ExplainsIn Rule.ImportLibrary sliced.now result }
{
    let (at, image, symbol) = symbol_here(sliced)?;
    let ordinal = u64::from(library_ordinal(symbol));
    Some(at.shows(Conflict::numbers(ordinal, library_count(&image))))
}

// The indirect entry at the place, and its index.
fn indirect_here(sliced: &Sliced) -> Option<(Spot, u64)>
    ensures { MatchOption result (¬ HasIndirect (bytes_of sliced.now.held.bytes) sliced.now.place)
        (λ found. IsSpot sliced.now found.0
        × IsIndirectAt (bytes_of sliced.now.held.bytes) found.1 sliced.now.place) }
{
    let dysymtab = sliced.held.open()?.dysymtab()?;
    let offset = sliced.place.checked_sub(dysymtab.indirectsymoff)?;
    let index = offset / INDIRECT_ENTRY_SIZE;
    if offset % INDIRECT_ENTRY_SIZE != 0 || index >= dysymtab.nindirectsyms {
        return None;
    }
    let part = sliced.structure(
        PartKind::Indirect,
        sliced.place,
        INDIRECT_ENTRY_SIZE,
        index_of(index),
    );
    Some((sliced.at(part), index))
}

// The indirect entry at the place, and how many symbols there are.
#[inline(never)]
pub(crate) fn indirect_index(sliced: &Sliced) -> Option<Explanation>
    ensures { ExplainsIn Rule.IndirectIndex sliced.now result }
{
    let (at, _) = indirect_here(sliced)?;
    let (symbols, count) = symtab_table(sliced, 0);
    Some(at.shows(Conflict {
        second: symbols,
        ..Conflict::numbers(u64::from(sliced.word(sliced.place)), count)
    }))
}

// The index of the indirect entry at the place, and the index of its symbol.
#[inline(never)]
pub(crate) fn indirect_name(sliced: &Sliced) -> Option<Explanation>
    ensures { ExplainsIn Rule.IndirectName sliced.now result }
{
    let (at, index) = indirect_here(sliced)?;
    let (symbols, _) = symtab_table(sliced, 0);
    Some(at.shows(Conflict {
        second: symbols,
        ..Conflict::numbers(index, u64::from(sliced.word(sliced.place)))
    }))
}
