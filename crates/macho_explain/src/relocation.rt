//! The rule of relocations. (`mach-o/reloc.h`: `relocation_info`)

ghost use Rattle.std.specs.Prelude.{◌⊎◌, MatchOption};
ghost use Rattle.macho_fields.specs.declared.rule.Rule.{Rule};
ghost use Rattle.macho_explain.specs.Compared.{IsRelocationShown};
ghost use Rattle.macho_explain.specs.Explained.{ExplainsIn};
ghost use Rattle.macho_explain.specs.SectionItems.{HasDysymtabRelocation, HasSectionItem};
ghost use Rattle.macho_explain.specs.declared.section_item.Item.TheVariants as Item;

use crate::conflict::Conflict;
use crate::explanation::Explanation;
use crate::item::item_at;
use crate::part::{Part, PartKind, index_of};
use crate::section_item::{Item, SectionItem, section_item};
use crate::sliced::Sliced;
use macho_fields::Span;
use macho_fields::header::reloc::{POINTER_LENGTH, RELOCATION_INFO_SIZE};
use macho_image::Image;
use macho_symbols::reloc::Relocation;
use macho_symbols::relocations::Named;

// The indices of the external and the local relocations among the tables of `dysymtab_command`.
const EXTERNAL: u64 = 4;

const LOCAL: u64 = 5;

// A table of relocations, and which of them is at a place.
#[derive(Clone, Copy)]
struct Relocations {
    part: Part,
    index: u64,
}

// The relocation that begins at the place.
#[inline(never)]
pub(crate) fn relocation(sliced: &Sliced) -> Option<Explanation>
    ensures { ExplainsIn Rule.Relocation sliced.now result }
{
    let image = sliced.held.open()?;
    let whole = Span {
        start: sliced.place,
        len: RELOCATION_INFO_SIZE,
    };
    if !sliced.held.bytes.contains(whole) {
        return None;
    }
    let table = table_here(sliced, &image)?;
    let index = index_of(table.index);
    let part = sliced.structure(PartKind::Relocation, sliced.place, whole.len, index);
    let relocation = Relocation::read(sliced.held.bytes, sliced.place);
    let conflict = relocation_conflict(&image, table.part, relocation);
    Some(sliced.at(part).shows(conflict))
}

// The table with the relocation at the place.
fn table_here(sliced: &Sliced, image: &Image) -> Option<Relocations>
    ensures { MatchOption result (¬ (HasSectionItem Item.Relocation image.now sliced.now.place
        ⊎ HasDysymtabRelocation image.now sliced.now.place)) (λ found. Unit {0}) }
{
    match section_item(sliced, image, Item::Relocation) {
        Some(SectionItem { part, index, .. }) => Some(Relocations { part, index }),
        None => of_dysymtab(sliced, image),
    }
}

// The table of `LC_DYSYMTAB` that has it.
fn of_dysymtab(sliced: &Sliced, image: &Image) -> Option<Relocations>
    ensures { MatchOption result (¬ HasDysymtabRelocation image.now sliced.now.place) (λ found. Unit {0}) }
{
    let dysymtab = image.dysymtab()?;
    let (start, count) = (dysymtab.extreloff, dysymtab.nextrel);
    if let Some(index) = item_at(start, RELOCATION_INFO_SIZE, count, sliced.place) {
        let part = table_part(sliced, dysymtab.place, EXTERNAL, start, count);
        return Some(Relocations { part, index });
    }
    let (start, count) = (dysymtab.locreloff, dysymtab.nlocrel);
    let index = item_at(start, RELOCATION_INFO_SIZE, count, sliced.place)?;
    let part = table_part(sliced, dysymtab.place, LOCAL, start, count);
    Some(Relocations { part, index })
}

// The table with this index of the command at a place, of so many relocations.
fn table_part(sliced: &Sliced, command: u64, index: u64, start: u64, count: u64) -> Part {
    let len = count.saturating_mul(RELOCATION_INFO_SIZE);
    let span = Span { start, len };
    sliced.described(PartKind::Table, span, command, index_of(index))
}

// What the relocation names, and how many there are of the kind; or its length, and the length of a pointer.
fn relocation_conflict(image: &Image, table: Part, relocation: Relocation) -> Conflict
    ensures { IsRelocationShown relocation result }
{
    let named = Named::of(image);
    if !named.lacks(relocation) {
        let length = u64::from(relocation.length);
        return Conflict::alone(table, length, u64::from(POINTER_LENGTH));
    }
    let count = if relocation.is_external {
        named.symbols
    } else {
        named.sections
    };
    Conflict::alone(table, u64::from(relocation.symbolnum), count)
}
