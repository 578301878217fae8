//! The relocations of an image, and where they break their rule. (`mach-o/reloc.h`: `relocation_info`)

ghost use Rattle.std.specs.Prelude.{◌↔◌, None, IsTrue};
ghost use Rattle.macho_fields.specs.Bytes.{bytes_of};
ghost use Rattle.macho_fields.specs.FirstPlace.{IsLeastPlace};
ghost use Rattle.macho_fields.specs.Layers.{NothingBreaks};
ghost use Rattle.macho_fields.specs.Rules.{BreaksImage as Breaks};
ghost use Rattle.macho_symbols.specs.Relocations.{AtRelocation, IsBadOf, InSections, InDysymtab, BreaksRelocation};
ghost use Rattle.macho_symbols.specs.RelocationTables.{IsNamed, HoldsTable};
ghost use Rattle.macho_symbols.specs.declared.relocations.Owner.TheVariants as owners;

use crate::reloc::Relocation;
use macho_fields::Bytes;
use macho_fields::header::machine::CPU_TYPE_ARM64;
use macho_fields::header::reloc::{ARM64_RELOC_ADDEND, POINTER_LENGTH, RELOCATION_INFO_SIZE};
use macho_image::Image;
use macho_rules::symbol_count;
use macho_tables::place::lesser;

/// What names a table of relocations.
#[derive(Clone, Copy)]
pub enum Owner {
    /// A section. (`section_64`)
    Section,
    /// `LC_DYSYMTAB`: a dynamic linker applies them. (`dysymtab_command`)
    Dysymtab,
}

/// The place of the first relocation that names a symbol or a section that there is not, or that is of
/// `LC_DYSYMTAB` and not of 8 bytes. The image breaks no rule of the layout. The relocations of each table are
/// read once, up to its first bad one.
pub fn relocation(image: &Image) -> Option<u64>
    requires { NothingBreaks (Breaks image.now None) }
    ensures { IsLeastPlace (BreaksRelocation image.now) result }
{
    let named = Named::of(image);
    lesser(of_sections(image, named), of_dysymtab(image, named))
}

// The place of the first bad relocation of the sections.
fn of_sections(image: &Image, named: Named) -> Option<u64>
    requires unbroken { NothingBreaks (Breaks image.now None) }
    requires named { IsNamed image.now named }
    ensures { IsLeastPlace (InSections image.now (IsBadOf image.now owners.Section)) result }
{
    let mut least = None;
    for section in image.sections() {
        let table = RelocationTable {
            start: section.reloff(),
            count: section.nreloc(),
            owner: Owner::Section,
        };
        least = lesser(least, table.first_bad(image.bytes(), named));
    }
    least
}

// The place of the first bad relocation of `LC_DYSYMTAB`.
fn of_dysymtab(image: &Image, named: Named) -> Option<u64>
    requires unbroken { NothingBreaks (Breaks image.now None) }
    requires named { IsNamed image.now named }
    ensures { IsLeastPlace (InDysymtab image.now (IsBadOf image.now owners.Dysymtab)) result }
{
    let dysymtab = image.dysymtab()?;
    let external = RelocationTable {
        start: dysymtab.extreloff,
        count: dysymtab.nextrel,
        owner: Owner::Dysymtab,
    };
    let local = RelocationTable {
        start: dysymtab.locreloff,
        count: dysymtab.nlocrel,
        owner: Owner::Dysymtab,
    };
    let bytes = image.bytes();
    lesser(
        external.first_bad(bytes, named),
        local.first_bad(bytes, named),
    )
}

// A table of relocations.
#[derive(Clone, Copy)]
pub(crate) struct RelocationTable {
    // Where it begins in the image.
    pub(crate) start: u64,
    // How many relocations it has.
    pub(crate) count: u64,
    // What names it.
    pub(crate) owner: Owner,
}

impl RelocationTable {
    ghost use Rattle.macho_fields.specs.Bytes.{bytes_of};
    ghost use Rattle.macho_fields.specs.FirstPlace.{IsLeastPlace};
    ghost use Rattle.macho_symbols.specs.Relocations.{AtRelocation, IsBadOf};
    ghost use Rattle.macho_symbols.specs.RelocationTables.{IsNamed, HoldsTable};

    // The place of its first bad relocation.
    fn first_bad(self, image: Bytes, named: Named) -> Option<u64>
        requires inside { HoldsTable (bytes_of image) self }
        requires named { IsNamed (bytes_of image) named }
        ensures { IsLeastPlace (AtRelocation (bytes_of image.entry) self.start self.count
            (IsBadOf (bytes_of image.entry) self.owner)) result }
    {
        for index in 0..self.count {
            let place = self.start + RELOCATION_INFO_SIZE * index;
            if named.is_bad(Relocation::read(image, place), self.owner) {
                return Some(place);
            }
        }
        None
    }
}

/// What the relocations of an image can name.
#[derive(Clone, Copy)]
pub struct Named {
    /// How many symbols there are.
    pub symbols: u64,
    /// How many sections there are.
    pub sections: u64,
    /// Whether some relocations are numbers to add, and name nothing.
    pub has_addends: bool,
}

impl Named {
    ghost use Rattle.std.specs.Prelude.{◌↔◌, ℕ, List, IsTrue};
    ghost use Rattle.macho_symbols.specs.Relocations.{IsBadOf, NamesNothing};
    ghost use Rattle.macho_symbols.specs.RelocationTables.{IsNamed};

    /// What the relocations of the image can name.
    pub fn of(image: &Image) -> Named
        ensures { IsNamed image.now result }
    {
        Named {
            symbols: symbol_count(image),
            sections: image.section_count(),
            has_addends: image.arch().0 == CPU_TYPE_ARM64,
        }
    }

    // Whether the relocation names nothing, or is of `LC_DYSYMTAB` and not of 8 bytes.
    fn is_bad(self, relocation: Relocation, owner: Owner) -> bool
        ensures { (image : List ℕ) → IsNamed image self
            → IsTrue result ↔ IsBadOf image owner relocation }
    {
        match owner {
            Owner::Section => self.lacks(relocation),
            Owner::Dysymtab => self.lacks(relocation) || relocation.length != POINTER_LENGTH,
        }
    }

    /// Whether the symbol or section that the relocation names does not exist.
    pub fn lacks(self, relocation: Relocation) -> bool
        ensures { (image : List ℕ) → IsNamed image self → IsTrue result ↔ NamesNothing image relocation }
    {
        let number = u64::from(relocation.symbolnum);
        if relocation.is_external {
            return number >= self.symbols;
        }
        number > self.sections && !(self.has_addends && relocation.kind == ARM64_RELOC_ADDEND)
    }
}
