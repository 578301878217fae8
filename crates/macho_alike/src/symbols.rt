//! The rule of the kinds of symbols, and of what a symbol without a name shows. (`mach-o/nlist.h`: `nlist_64`;
//! `mach-o/loader.h`: `dysymtab_command`)

ghost use Rattle.std.specs.Prelude.{◌≡◌, ◌+◌, ◌≤◌, ◌<◌, ◌↔◌, [], IsTrue, None};
ghost use Rattle.macho_fields.specs.Bytes.{bytes_of};
ghost use Rattle.macho_fields.specs.Field.{string_from};
ghost use Rattle.macho_fields.specs.FirstPlace.{IsLeastPlace};
ghost use Rattle.macho_fields.specs.Layers.{NothingBreaks};
ghost use Rattle.macho_fields.specs.Rules.{BreaksImage as Breaks};
ghost use Rattle.macho_alike.specs.Symbols.{IsExternal, IsOfAnother, IsLocal, IsDefined, IsUndefined, IsIn, Differ, IsMisgrouped, ShowsString, BreaksSymbolKind};

use macho_fields::Bytes;
use macho_fields::header::nlist::{N_EXT, N_PBUD, N_STAB, N_TYPE, N_UNDF, NLIST_64_SIZE};
use macho_image::{Dysymtab, Image, Symbol, Symtab};

// The byte that linkers write as the first string.
pub(crate) const SPACE: u8 = 0x20;

/// The place of the first symbol that is not in exactly the one group of `LC_DYSYMTAB` that its type says, or that has no
/// name where the first string is one: neither empty nor a space. The image breaks no rule of the layout. The symbols
/// are read once, up to that one.
pub fn symbol_kind(image: &Image) -> Option<u64>
    requires { NothingBreaks (Breaks image.now None) }
    ensures { IsLeastPlace (BreaksSymbolKind image.now) result }
{
    let symtab = image.symtab()?;
    let readers = Readers::of(image, symtab);
    for symbol in image.symbols() {
        if readers.differ(symbol) {
            return Some(symbol.place);
        }
    }
    None
}

// What readers compare the symbols of an image with.
#[derive(Clone, Copy)]
pub(crate) struct Readers {
    // Where the symbols begin in the image.
    symoff: u64,
    // Their groups, if the image has any.
    groups: Option<Dysymtab>,
    // Whether the first string is neither empty nor a space.
    shows_string: bool,
}

impl Readers {
    ghost use Rattle.std.specs.Prelude.{◌≡◌, ◌↔◌, ℕ, List, Some, IsTrue};
    ghost use Rattle.std.specs.Option.{option_map};
    ghost use Rattle.macho_fields.specs.Image.{commands_of};
    ghost use Rattle.macho_fields.specs.declared.header.loader.TheConstants.{LC_SYMTAB};
    ghost use Rattle.macho_image.specs.Command.{first_with_cmd};
    ghost use Rattle.macho_image.specs.Symbol.{symtab_at};
    ghost use Rattle.macho_alike.specs.Readers.{AreReaders};
    ghost use Rattle.macho_alike.specs.Symbols.{HasTwoKinds, HasTwoNames, IsSeenTwice};

    // Those of an image with this symbol table.
    fn of(image: &Image, symtab: Symtab) -> Readers
        ensures { (command : ℕ) → symtab ≡ symtab_at image.now command → AreReaders image.now command result }
    {
        Readers {
            symoff: symtab.symoff,
            groups: image.dysymtab(),
            shows_string: shows_string(image.bytes(), symtab.stroff),
        }
    }

    // Whether two readers see another symbol.
    fn differ(&self, symbol: Symbol) -> bool
        ensures { (image : List ℕ) (symtab : ℕ) → AreReaders image symtab self.now
            → IsTrue result ↔ IsSeenTwice image symtab symbol }
    {
        self.differ_by_kind(symbol) || self.differ_by_name(symbol)
    }

    // Whether the groups say another kind of the symbol than its type.
    fn differ_by_kind(&self, symbol: Symbol) -> bool
        ensures { (image : List ℕ) (symtab : ℕ) → AreReaders image symtab self.now
            → IsTrue result ↔ HasTwoKinds image symtab symbol }
    {
        match self.groups {
            Some(groups) => {
                let index = symbol.place.saturating_sub(self.symoff) / NLIST_64_SIZE;
                is_misgrouped(groups, index, symbol.kind)
            }
            None => false,
        }
    }

    // Whether the symbol has no name, and the first string is one.
    fn differ_by_name(&self, symbol: Symbol) -> bool
        ensures { (image : List ℕ) (symtab : ℕ) → AreReaders image symtab self.now
            → IsTrue result ↔ HasTwoNames image symtab symbol }
    {
        symbol.strx == 0 && self.shows_string
    }
}

/// Whether the symbol with this index is not in exactly the one group that its type says.
pub fn is_misgrouped(groups: Dysymtab, index: u64, kind: u8) -> bool
    ensures { IsTrue result ↔ IsMisgrouped groups index kind }
{
    let is_local = is_in(groups.ilocalsym, groups.nlocalsym, index);
    let is_defined = is_in(groups.iextdefsym, groups.nextdefsym, index);
    let is_undefined = is_in(groups.iundefsym, groups.nundefsym, index);
    is_local != is_local_kind(kind)
        || is_defined != is_defined_kind(kind)
        || is_undefined != is_undefined_kind(kind)
}

// Whether the index is one of a group.
fn is_in(first: u64, count: u64, index: u64) -> bool
    ensures { IsTrue result ↔ IsIn (first, count) index }
{
    first <= index && index - first < count
}

// Whether a symbol of this type is seen by its own image alone. Entries for debuggers are.
fn is_local_kind(kind: u8) -> bool
    ensures { IsTrue result ↔ IsLocal kind }
{
    !is_external(kind)
}

/// Whether a symbol of this type is one that the image defines for others.
pub fn is_defined_kind(kind: u8) -> bool
    ensures { IsTrue result ↔ IsDefined kind }
{
    is_external(kind) && !is_of_another(kind)
}

// Whether a symbol of this type is one that another image defines.
pub(crate) fn is_undefined_kind(kind: u8) -> bool
    ensures { IsTrue result ↔ IsUndefined kind }
{
    is_external(kind) && is_of_another(kind)
}

/// Whether a symbol of this type is external, and no entry for debuggers.
pub fn is_external(kind: u8) -> bool
    ensures { IsTrue result ↔ IsExternal kind }
{
    kind & N_STAB == 0 && kind & N_EXT != 0
}

/// Whether the type is one of symbols that another image defines.
pub fn is_of_another(kind: u8) -> bool
    ensures { IsTrue result ↔ IsOfAnother kind }
{
    kind & N_TYPE == N_UNDF || kind & N_TYPE == N_PBUD
}

// Whether the string that begins at `start` is neither empty nor a space.
fn shows_string(image: Bytes, start: u64) -> bool
    ensures { IsTrue result ↔ ShowsString (bytes_of image.entry) start }
{
    if start >= image.len() || ends_at(image, start) {
        return false;
    }
    image.read_u8(start) != SPACE || !ends_at(image, start + 1)
}

// Whether the string that begins at `place` is empty.
fn ends_at(image: Bytes, place: u64) -> bool
    ensures { IsTrue result ↔ (string_from place (bytes_of image.entry) ≡ []) }
{
    match image.u8_at(place) {
        Some(byte) => byte == 0,
        None => true,
    }
}
