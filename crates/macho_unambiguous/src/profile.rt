//! What the unambiguous profile adds to the linked one, of an image.

use crate::check::check_image;
use macho_image::Image;
use macho_rules::{ImageProfile, ProfileRules, Refusal};
use std::alloc::Global;

// The unambiguous profile.
pub(crate) struct Unambiguous;

impl ProfileRules for Unambiguous {
    ghost use Rattle.macho_unambiguous.specs.Rules.{BreaksImage};

    ghost breaks = { BreaksImage };
}

impl ImageProfile for Unambiguous {
    ghost use Rattle.macho_fields.specs.Layers.{NothingBreaks};
    ghost use Rattle.macho_linked.specs.Rules.{BreaksImage as BreaksLinked};
    ghost use Rattle.macho_unambiguous.specs.Verdict.{TakesMemory};

    ghost takes_memory = { TakesMemory };

    ghost before = { λ image. NothingBreaks (BreaksLinked image) };

    fn check_image(alloc: Global, image: &Image) -> Result<(), Refusal> {
        check_image(alloc, image)
    }
}
