//! What the sections of an image have at a place: relocations, and offsets of initializers. (`mach-o/loader.h`:
//! `section_64`)

ghost use Rattle.std.specs.Prelude.{Any, MatchOption};
ghost use Rattle.macho_fields.specs.Image.{commands_of};
ghost use Rattle.macho_image.specs.Segment.{section_at, sections_of};
ghost use Rattle.macho_explain.specs.SectionItems.{HasItem};

use crate::item::item_at;
use crate::part::{Part, PartKind, index_of};
use crate::sliced::Sliced;
use macho_fields::Span;
use macho_fields::header::loader::INIT_OFFSET_SIZE;
use macho_fields::header::reloc::RELOCATION_INFO_SIZE;
use macho_image::{Image, Section};
use macho_tables::init_offsets::has_offsets;

// What is sought.
#[derive(Clone, Copy)]
pub(crate) enum Item {
    // A relocation.
    Relocation,
    // An offset of an initializer.
    InitOffset,
}

// What a section has at a place: all bytes that it has of the kind, as a part, and which item is at the place.
#[derive(Clone, Copy)]
pub(crate) struct SectionItem {
    pub(crate) part: Part,
    pub(crate) bytes: Span,
    pub(crate) index: u64,
}

// What the first section has that has it at the place.
pub(crate) fn section_item(sliced: &Sliced, image: &Image, sought: Item) -> Option<SectionItem>
    ensures { MatchOption result (¬ Any (λ section. HasItem sought sliced.now.place (section_at image.now section))
        (sections_of image.now (commands_of image.now))) (λ found. Unit {0}) }
{
    let mut number: u64 = 0;
    for section in image.sections() {
        if let Some(index) = item_in(&section, sought, sliced.place) {
            let (kind, bytes) = bytes_of(&section, sought);
            return Some(SectionItem {
                part: sliced.described(kind, bytes, section.place(), index_of(number)),
                bytes,
                index,
            });
        }
        number = number.saturating_add(1);
    }
    None
}

// Which item of a section begins at a place.
fn item_in(section: &Section, sought: Item, place: u64) -> Option<u64>
    ensures { MatchOption result (¬ HasItem sought place section.now) (λ index. Unit {0}) }
{
    match sought {
        Item::Relocation => {
            let (start, count) = (section.reloff(), section.nreloc());
            item_at(start, RELOCATION_INFO_SIZE, count, place)
        }
        Item::InitOffset => {
            if !has_offsets(section) {
                return None;
            }
            let count = section.size().div_ceil(INIT_OFFSET_SIZE);
            item_at(section.offset(), INIT_OFFSET_SIZE, count, place)
        }
    }
}

// The bytes that a section has of a kind.
fn bytes_of(section: &Section, sought: Item) -> (PartKind, Span) {
    match sought {
        Item::Relocation => {
            let start = section.reloff();
            let len = section.nreloc().saturating_mul(RELOCATION_INFO_SIZE);
            (PartKind::Relocations, Span { start, len })
        }
        Item::InitOffset => (PartKind::SectionBytes, section.file_part()),
    }
}
