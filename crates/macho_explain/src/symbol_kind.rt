//! The rule of the kinds of symbols, and of what a symbol without a name shows. (`mach-o/nlist.h`: `nlist_64`;
//! `mach-o/loader.h`: `dysymtab_command`)

ghost use Rattle.std.specs.Prelude.{◌≡◌, MatchOption};
ghost use Rattle.macho_fields.specs.declared.rule.Rule.{Rule};
ghost use Rattle.macho_alike.specs.SymbolModels.{SymbolKind, IsOfType, group_of};
ghost use Rattle.macho_explain.specs.Alike.{groups_in, IsGroupShownIn, IsKindSeen, IsMisgroupedIn, IsStringShown};
ghost use Rattle.macho_explain.specs.Explained.{ExplainsIn};

use crate::conflict::Conflict;
use crate::explanation::Explanation;
use crate::part::PartKind;
use crate::sliced::Sliced;
use crate::strings::string_at;
use crate::symbol::{symbol_here, symbol_with};
use macho_alike::symbols::{is_external, is_misgrouped, is_of_another};
use macho_fields::Span;
use macho_image::{Dysymtab, Image};

// The index of the symbol, and the first of the group that its type says, if it is not in exactly that one; or how many
// bytes the first string has.
#[inline(never)]
pub(crate) fn symbol_kind(sliced: &Sliced) -> Option<Explanation>
    ensures { ExplainsIn Rule.SymbolKind sliced.now result }
{
    let (at, image, symbol) = symbol_here(sliced)?;
    let (_, index) = symbol_with(&image, sliced.place)?;
    Some(at.shows(kind_conflict(sliced, &image, symbol.kind, index)))
}

// The group that the type of a symbol says, if the symbol with this index is not in exactly that one; or the first
// string.
fn kind_conflict(sliced: &Sliced, image: &Image, kind: u8, index: u64) -> Conflict
    ensures index { result.value ≡ index }
    ensures shown { IsKindSeen image.now index kind result }
{
    match other_group(sliced, image, kind, index) {
        Some(conflict) => conflict,
        None => first_string(sliced, image, index),
    }
}

// The group that the type of a symbol says, if the symbol with this index is not in exactly that one.
fn other_group(sliced: &Sliced, image: &Image, kind: u8, index: u64) -> Option<Conflict>
    ensures { MatchOption result (¬ IsMisgroupedIn (groups_in image.now) index kind)
        (λ c. (c.value ≡ index) × IsGroupShownIn (groups_in image.now) index kind c) }
{
    let groups = image.dysymtab()?;
    if !is_misgrouped(groups, index, kind) {
        return None;
    }
    let (number, group) = own_group(groups, kind);
    let part = sliced.numbered(PartKind::Group, group, groups.place, Some(number));
    Some(Conflict::against(part, index, group.start))
}

// The group that the type of a symbol says, and its number.
fn own_group(groups: Dysymtab, kind: u8) -> (u32, Span)
    ensures { (of : SymbolKind) × IsOfType kind of × (group_of groups of ≡ (result.1.start, result.1.len)) }
{
    if !is_external(kind) {
        return (0, group(groups.ilocalsym, groups.nlocalsym));
    }
    if is_of_another(kind) {
        return (2, group(groups.iundefsym, groups.nundefsym));
    }
    (1, group(groups.iextdefsym, groups.nextdefsym))
}

// So many symbols from an index on.
fn group(first: u64, count: u64) -> Span
    ensures { (result.start ≡ first) × (result.len ≡ count) }
{
    Span {
        start: first,
        len: count,
    }
}

// The first string, and how many bytes it has.
fn first_string(sliced: &Sliced, image: &Image, index: u64) -> Conflict
    ensures index { result.value ≡ index }
    ensures string { IsStringShown image.now result.limit }
{
    let Some(symtab) = image.symtab() else {
        return Conflict::numbers(index, 0);
    };
    let string = string_at(image.bytes(), symtab.stroff);
    let span = Span {
        start: symtab.stroff,
        len: string.len() as u64,
    };
    let part = sliced.described(PartKind::Name, span, symtab.place, None);
    Conflict::against(part, index, span.len)
}
