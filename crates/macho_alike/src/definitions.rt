//! The rule of names that the symbols of an image define. (`mach-o/nlist.h`: `nlist_64`)

ghost use Rattle.std.specs.Prelude.{◌≡◌, ◌≤◌, ◌↔◌, length, IsTrue, None, IfSome, IfOk, OnErr, Contains};
ghost use Rattle.macho_fields.specs.FirstPlace.{IsLeastPlace};
ghost use Rattle.macho_fields.specs.Layers.{NothingBreaks};
ghost use Rattle.macho_fields.specs.Rules.{BreaksImage as Breaks};
ghost use Rattle.macho_spans.specs.Span.{end_of};
ghost use Rattle.macho_alike.specs.Definitions.{DefinesName, meaning_of, BreaksDefinition, HasSymtab};
ghost use Rattle.macho_alike.specs.Names.{IsNamed, AreByName};
ghost use Rattle.macho_alike.specs.SortedDefinitions.{IsFirstOfName};
ghost use Rattle.macho_alike.specs.declared.names.Named.{Named};

use crate::binds::is_same_name;
use crate::names::{Named, names_of};
use crate::symbols::is_defined_kind;
use macho_fields::Span;
use macho_fields::header::nlist::{N_TYPE, N_WEAK_DEF};
use macho_image::table::TableEntry;
use macho_image::{Image, Symbol};
use macho_tables::place::lesser;
use std::alloc::{AllocError, Global};

/// What a symbol says of the name that it defines.
#[derive(Clone, Copy)]
pub struct Meaning {
    /// `n_value`: its address, or what else the kind says.
    pub value: u64,
    /// The bits of `N_TYPE`.
    pub kind: u8,
    /// The bit `N_WEAK_DEF`, if the definition is weak.
    pub weak: u16,
}

// The bytes of a name that a symbol defines, and what it says of the name.
#[derive(Clone, Copy)]
struct DefinedName {
    name: Span,
    meaning: Meaning,
}

/// The place of the first symbol that defines a name, and says something else of it than an earlier one: another value,
/// another kind, or another weakness. The image breaks no rule of the layout. It takes the time and the memory of sorting
/// the names of external symbols: 24 bytes for each.
pub fn definition(alloc: Global, image: &Image) -> Result<Option<u64>, AllocError>
    requires { NothingBreaks (Breaks image.now None) }
    ensures least { IfOk result (IsLeastPlace (BreaksDefinition image.now)) }
    ensures memory { OnErr result (HasSymtab image.now) }
{
    let names = names_of(alloc, image)?;
    Ok(definition_among(image, &names))
}

// The same, where the external symbols that have names are sorted by them. It compares the name of each definition with
// the name before it, and takes no memory.
pub(crate) fn definition_among(image: &Image, names: &[Named]) -> Option<u64>
    requires unbroken { NothingBreaks (Breaks image.now None) }
    requires named { (one : Named) → Contains names.now one ↔ IsNamed image.now one }
    requires sorted { AreByName image.now names.now }
    ensures { IsLeastPlace (BreaksDefinition image.now) result }
{
    let bytes = image.bytes();
    let mut known = None;
    let mut found = None;
    for one in names {
        let symbol = Symbol::read(bytes, one.place);
        if defines_name(symbol) {
            let name = one.name;
            let meaning = meaning_of(symbol);
            let first = first_of_name(image, known, DefinedName { name, meaning });
            if !same(first.meaning, meaning) {
                found = lesser(found, Some(one.place));
            }
            known = Some(first);
        }
    }
    found
}

// The first definition of the name of this one: the known one, if it is of the name, and otherwise this one.
fn first_of_name(image: &Image, known: Option<DefinedName>, this: DefinedName) -> DefinedName
    requires known { IfSome known (λ known. end_of known.name ≤ length image.now) }
    requires inside { end_of this.name ≤ length image.now }
    ensures { IsFirstOfName image.now known this result }
{
    match known {
        Some(first) if is_same_name(image, first.name, this.name) => first,
        _ => this,
    }
}

/// Whether the symbol is external and defined, and has a name.
pub fn defines_name(symbol: Symbol) -> bool
    ensures { IsTrue result ↔ DefinesName symbol }
{
    is_defined_kind(symbol.kind) && symbol.strx != 0
}

/// What the symbol says of its name.
pub fn meaning_of(symbol: Symbol) -> Meaning
    ensures { result ≡ meaning_of symbol }
{
    Meaning {
        value: symbol.value,
        kind: symbol.kind & N_TYPE,
        weak: symbol.desc & N_WEAK_DEF,
    }
}

/// Whether they say the same.
pub fn same(one: Meaning, other: Meaning) -> bool
    ensures { IsTrue result ↔ (one ≡ other) }
{
    one.value == other.value && one.kind == other.kind && one.weak == other.weak
}
