//! What the sealed profile adds to the linked one.

use crate::check::check_image;
use macho_image::Image;
use macho_rules::{ImageProfile, ProfileRules, Refusal};
use std::alloc::Global;

// The sealed profile.
pub(crate) struct Sealed;

impl ProfileRules for Sealed {
    ghost use Rattle.macho_sealed.specs.Rules.{BreaksImage};

    ghost breaks = { BreaksImage };
}

impl ImageProfile for Sealed {
    ghost use Rattle.macho_fields.specs.Layers.{NothingBreaks};
    ghost use Rattle.macho_linked.specs.Rules.{BreaksImage as BreaksLinked};
    ghost use Rattle.macho_sealed.specs.Verdict.{TakesMemory};

    ghost takes_memory = { TakesMemory };

    ghost before = { λ image. NothingBreaks (BreaksLinked image) };

    // It takes no memory.
    fn check_image(_alloc: Global, image: &Image) -> Result<(), Refusal> {
        check_image(image)?;
        Ok(())
    }
}
