//! The rules of the sections of an image. (`mach-o/loader.h`: `section_64`)

ghost use Rattle.std.specs.Prelude.{◌↔◌, IsTrue};
ghost use Rattle.macho_fields.specs.Segment.{IsInFilePart};
ghost use Rattle.macho_fields.specs.Segment.{IsOutsideMemory, IsMisplaced, HasRelocsOutside};

use macho_fields::Span;
use macho_fields::header::reloc::RELOCATION_INFO_SIZE;
use macho_image::{Image, Section};

/// Whether the segment of the section is mapped, and the section has an address outside of it.
pub fn is_outside_memory(section: &Section) -> bool
    ensures { IsTrue result
        ↔ IsOutsideMemory section.now.image section.now.segment section.now.place }
{
    let segment = section.segment();
    segment.vmsize() > 0 && section.size() > 0 && !section.memory().inside(&segment.memory())
}

/// Whether the section has bytes, and they are not where its segment puts them.
pub fn is_misplaced(section: &Section) -> bool
    ensures { IsTrue result ↔ IsMisplaced section.now.image section.now.segment section.now.place }
{
    if section.size() == 0 || section.is_zero_fill() {
        return false;
    }
    let segment = section.segment();
    if segment.vmsize() > 0 {
        !is_in_file_part(section)
    } else {
        !segment.image().contains(section.file_part())
    }
}

// Whether the bytes of the section lie in those that its segment has in the file, at the same
// distance from their first as the address of the section has from the segment's.
fn is_in_file_part(section: &Section) -> bool
    ensures { IsTrue result
        ↔ IsInFilePart section.now.image section.now.segment section.now.place }
{
    let segment = section.segment();
    // No address of the section is below the segment's: section_address is unbroken.
    let part = Span {
        start: section.addr().saturating_sub(segment.vmaddr()),
        len: section.size(),
    };
    u128::from(section.offset()) == u128::from(segment.fileoff()) + u128::from(part.start)
        && part.end() <= u128::from(segment.filesize())
}

/// Whether the section has relocations, and they end past the image.
pub fn has_relocs_outside(section: &Section) -> bool
    ensures { IsTrue result ↔ HasRelocsOutside section.now.image section.now.place }
{
    if section.nreloc() == 0 {
        return false;
    }
    let image = section.segment().image();
    !image.contains_table(section.reloff(), section.nreloc(), RELOCATION_INFO_SIZE)
}
