//! The sections of stubs and of pointers to symbols, which have indirect entries. (`mach-o/loader.h`:
//! `section_64`, `dysymtab_command`)

ghost use Rattle.std.specs.Prelude.{◌≡◌, ◌↔◌, ◌<◌, IsTrue};
ghost use Rattle.macho_fields.specs.FirstPlace.{IsLeastPlace};
ghost use Rattle.macho_symbols.specs.Indirects.{section_type, is_of_indirects as is_of_indirects_of, stride as stride_of, indirect_count as indirect_count_of, IsUneven, PassesIndirects, AreBad, IsBadIndirects, BreaksIndirectRange};

use macho_fields::header::loader::{
    S_LAZY_DYLIB_SYMBOL_POINTERS, S_LAZY_SYMBOL_POINTERS, S_NON_LAZY_SYMBOL_POINTERS,
    S_SYMBOL_STUBS, S_THREAD_LOCAL_VARIABLE_POINTERS,
};
use macho_image::{Image, Section};
use macho_tables::limits::POINTER_SIZE;

/// The place of the first section whose stubs or pointers have no size, do not fill it, or pass the last indirect
/// entry of the image.
pub fn indirect_range(image: &Image) -> Option<u64>
    ensures { IsLeastPlace (BreaksIndirectRange image.now) result }
{
    let entries = indirect_count(image);
    for section in image.sections() {
        if is_bad(&section, entries) {
            return Some(section.place());
        }
    }
    None
}

/// How many indirect entries the image has.
pub fn indirect_count(image: &Image) -> u64
    ensures { result ≡ indirect_count_of image.now }
{
    match image.dysymtab() {
        Some(dysymtab) => dysymtab.nindirectsyms,
        None => 0,
    }
}

// Whether the section has stubs or pointers, and they have no size, do not fill it, or pass so many entries.
fn is_bad(section: &Section, entries: u64) -> bool
    ensures { entries ≡ indirect_count_of section.now.image
        → IsTrue result ↔ IsBadIndirects section.now.image section.now.place }
{
    has_indirects(section) && are_bad(section, entries)
}

// Whether its stubs or pointers have no size, do not fill it, or pass so many entries.
fn are_bad(section: &Section, entries: u64) -> bool
    ensures { entries ≡ indirect_count_of section.now.image
        → IsTrue result ↔ AreBad section.now.image section.now.place }
{
    is_uneven(section) || passes(section, entries)
}

/// Whether the section is one of stubs, or of pointers to symbols.
pub fn has_indirects(section: &Section) -> bool
    ensures { result ≡ is_of_indirects_of (section_type section.now.image section.now.place) }
{
    matches!(
        section.section_type(),
        S_NON_LAZY_SYMBOL_POINTERS
            | S_LAZY_SYMBOL_POINTERS
            | S_SYMBOL_STUBS
            | S_LAZY_DYLIB_SYMBOL_POINTERS
            | S_THREAD_LOCAL_VARIABLE_POINTERS
    )
}

/// The size of a stub of the section, or of a pointer.
pub fn stride(section: &Section) -> u64
    ensures { result ≡ stride_of section.now.image section.now.place }
{
    if section.section_type() == S_SYMBOL_STUBS {
        section.reserved2()
    } else {
        POINTER_SIZE
    }
}

/// Whether the stubs or pointers of the section have no size, or do not fill it.
pub fn is_uneven(section: &Section) -> bool
    ensures { IsTrue result ↔ IsUneven section.now.image section.now.place }
{
    let stride = stride(section);
    stride == 0 || section.size() % stride != 0
}

// Whether the entries of the stubs or pointers, which have a size, pass so many.
fn passes(section: &Section, entries: u64) -> bool
    requires { 0 < stride_of section.now.image section.now.place }
    ensures { entries ≡ indirect_count_of section.now.image
        → IsTrue result ↔ PassesIndirects section.now.image section.now.place }
{
    let count = section.size() / stride(section);
    u128::from(section.reserved1()) + u128::from(count) > u128::from(entries)
}
