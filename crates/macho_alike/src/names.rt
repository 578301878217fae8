//! The names of external symbols, by their bytes. (`mach-o/nlist.h`: `nlist_64`)

ghost use Rattle.std.specs.Prelude.{◌≡◌, ◌+◌, ◌<◌, ◌↔◌, length, IsTrue, IsSome, IfSome, IfOk, OnErr, Contains, None};
ghost use Rattle.macho_fields.specs.Bytes.{bytes_of};
ghost use Rattle.macho_fields.specs.Field.{string_from};
ghost use Rattle.macho_fields.specs.Layers.{NothingBreaks};
ghost use Rattle.macho_fields.specs.Rules.{BreaksImage as Breaks};
ghost use Rattle.macho_spans.specs.Span.{end_of};
ghost use Rattle.macho_alike.specs.Definitions.{HasSymtab};
ghost use Rattle.macho_alike.specs.Names.{HasExternalName, IsNamed, AreByName, by_text};
ghost use Rattle.macho_alike.specs.declared.names.Named.{Named};

use crate::symbols::is_external;
use macho_chains::chain_imports::name_size;
use macho_fields::{Bytes, Span};
use macho_image::{Image, Symbol};
use std::alloc::{AllocError, Global};
use std::cmp::Ordering;

/// An external symbol with a name.
#[derive(Clone, Copy)]
pub(crate) struct Named {
    /// The bytes of its name in the image, without the zero byte that ends it.
    pub name: Span,
    /// Where the symbol begins in the image.
    pub place: u64,
}

// The external symbols that have names, defined or not, by the bytes of their names. Those with the same name are by
// their places. The image breaks no rule of the layout. It takes 24 bytes of memory for each, and time in the order of
// the bytes of all names, times log n.
pub(crate) fn names_of(alloc: Global, image: &Image) -> Result<Vec<Named>, AllocError>
    requires { NothingBreaks (Breaks image.now None) }
    ensures named { IfOk result (λ names. (one : Named) → Contains names.items one ↔ IsNamed image.now one) }
    ensures inside { IfOk result (λ names. (one : Named) → Contains names.items one
        → end_of one.name < length image.now) }
    ensures sorted { IfOk result (λ names. AreByName image.now names.items) }
    ensures memory { OnErr result (HasSymtab image.now) }
{
    let mut names = listed_names(alloc, image)?;
    let bytes = image.bytes();
    names.sort_unstable_by(|one, other| compare(bytes, one, other));
    Ok(names)
}

// The same, in the order of the table.
fn listed_names(alloc: Global, image: &Image) -> Result<Vec<Named>, AllocError>
    requires { NothingBreaks (Breaks image.now None) }
    ensures named { IfOk result (λ names. (one : Named) → Contains names.items one ↔ IsNamed image.now one) }
    ensures memory { OnErr result (HasSymtab image.now) }
{
    let mut names = Vec::new(alloc);
    let Some(symtab) = image.symtab() else {
        return Ok(names);
    };
    for symbol in image.symbols() {
        if let Some(name) = name_of(image.bytes(), symtab.stroff, symbol) {
            names.push(Named {
                name,
                place: symbol.place,
            })?;
        }
    }
    Ok(names)
}

// Which of two comes first: by the bytes of their names, and then by their places.
fn compare(image: Bytes, one: &Named, other: &Named) -> Ordering
    ensures { result ≡ by_text (bytes_of image.entry) one.now other.now }
{
    let by_name = image.part(one.name).cmp(&image.part(other.name));
    by_name.then(one.place.cmp(&other.place))
}

// The bytes of the name of a symbol, if it is external and has one. The strings begin at `stroff` in the image.
pub(crate) fn name_of(image: Bytes, stroff: u64, symbol: Symbol) -> Option<Span>
    requires { HasExternalName symbol → stroff + symbol.strx < length (bytes_of image) }
    ensures named { IsSome result ↔ HasExternalName symbol }
    ensures start { IfSome result (λ name. name.start ≡ stroff + symbol.strx) }
    ensures len { IfSome result (λ name. name.len ≡ length (string_from name.start (bytes_of image.entry))) }
{
    if !has_external_name(symbol) {
        return None;
    }
    let start = stroff + u64::from(symbol.strx);
    let size = name_size(image, start);
    Some(Span {
        start,
        len: (size - 1) as u64,
    })
}

// Whether the symbol is external, and has a name.
fn has_external_name(symbol: Symbol) -> bool
    ensures { IsTrue result ↔ HasExternalName symbol }
{
    is_external(symbol.kind) && symbol.strx != 0
}
