//! The tables of `LC_DYSYMTAB` that only older loaders follow. (`mach-o/loader.h`: `dysymtab_command`)

ghost use Rattle.std.specs.Prelude.{◌↔◌, IsTrue, None};
ghost use Rattle.macho_fields.specs.FirstPlace.{IsLeastPlace};
ghost use Rattle.macho_fields.specs.Layers.{NothingBreaks};
ghost use Rattle.macho_fields.specs.Rules.{BreaksImage as Breaks};
ghost use Rattle.macho_symbols.specs.Obsolete.{HasContents, HasRelocations, HasFixups, IsFixedTwice, IsObsolete, BreaksObsoleteTable};

use macho_image::{Dysymtab, Image};
use macho_tables::kinds::is_fixups;

/// The place of `LC_DYSYMTAB`, if it has contents, modules or references, or relocations in an image with fixups.
pub fn obsolete_table(image: &Image) -> Option<u64>
    requires { NothingBreaks (Breaks image.now None) }
    ensures { IsLeastPlace (BreaksObsoleteTable image.now) result }
{
    let dysymtab = image.dysymtab()?;
    if is_obsolete(image, dysymtab) {
        Some(dysymtab.place)
    } else {
        None
    }
}

// Whether there are tables that only older loaders follow.
fn is_obsolete(image: &Image, dysymtab: Dysymtab) -> bool
    ensures { IsTrue result ↔ IsObsolete image.now dysymtab }
{
    has_contents(dysymtab) || is_fixed_twice(image, dysymtab)
}

// Whether there are relocations, and fixups by which newer loaders write.
fn is_fixed_twice(image: &Image, dysymtab: Dysymtab) -> bool
    ensures { IsTrue result ↔ IsFixedTwice image.now dysymtab }
{
    has_relocations(dysymtab) && has_fixups(image)
}

// Whether there are contents, modules or references.
fn has_contents(dysymtab: Dysymtab) -> bool
    ensures { IsTrue result ↔ HasContents dysymtab }
{
    dysymtab.ntoc > 0 || dysymtab.nmodtab > 0 || dysymtab.nextrefsyms > 0
}

// Whether there are external or local relocations.
fn has_relocations(dysymtab: Dysymtab) -> bool
    ensures { IsTrue result ↔ HasRelocations dysymtab }
{
    dysymtab.nextrel > 0 || dysymtab.nlocrel > 0
}

// Whether a command names fixups by which newer loaders write.
fn has_fixups(image: &Image) -> bool
    ensures { IsTrue result ↔ HasFixups image.now }
{
    image.commands().any(|command| is_fixups(command.cmd))
}
