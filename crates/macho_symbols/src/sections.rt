//! Which sections of an image lie in mapped segments. (`mach-o/loader.h`: `section_64`)

ghost use Rattle.std.specs.Prelude.{◌≡◌};
ghost use Rattle.macho_symbols.specs.Sections.{AreMappedSections, is_mapped};

use macho_image::{Image, Section};

/// How many numbers of sections a symbol can have: `n_sect` has 8 bits.
pub const SECTION_NUMBERS: usize = 256;

/// For each number of a section that a symbol can have, whether the segment of the section is mapped. There is
/// no section 0.
#[derive(Clone, Copy)]
pub struct MappedSections {
    pub(crate) are_mapped: [bool; SECTION_NUMBERS],
}

impl MappedSections {
    ghost use Rattle.std.specs.Prelude.{ℕ, List, ◌↔◌, IsTrue};
    ghost use Rattle.macho_symbols.specs.Sections.{AreMappedSections, IsMappedSection};

    /// Those of an image.
    pub fn of(image: &Image) -> MappedSections
        ensures { AreMappedSections image.now result }
    {
        let mut are_mapped = [false; SECTION_NUMBERS];
        let mut number = 1;
        for section in image.sections() {
            if number == SECTION_NUMBERS {
                return MappedSections { are_mapped };
            }
            are_mapped[number] = is_mapped(&section);
            number += 1;
        }
        MappedSections { are_mapped }
    }

    /// Whether there is a section with this number, and its segment is mapped.
    pub fn has(&self, number: u8) -> bool
        ensures { (image : List ℕ) → AreMappedSections image self.now
            → IsTrue result ↔ IsMappedSection image number }
    {
        self.are_mapped[usize::from(number)]
    }
}

// Whether the segment of the section is mapped.
fn is_mapped(section: &Section) -> bool
    ensures { result ≡ is_mapped section.now }
{
    section.segment().vmsize() > 0
}
