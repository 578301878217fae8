//! What the linked profile adds to the strict one.

use crate::check::check_image;
use macho_image::Image;
use macho_rules::{ImageProfile, ProfileRules, Refusal};
use std::alloc::Global;

// The linked profile.
pub(crate) struct Linked;

impl ProfileRules for Linked {
    ghost use Rattle.macho_linked.specs.Rules.{BreaksImage};

    ghost breaks = { BreaksImage };
}

impl ImageProfile for Linked {
    ghost use Rattle.macho_fields.specs.Layers.{NothingBreaks};
    ghost use Rattle.macho_linked.specs.Verdict.{TakesMemory};
    ghost use Rattle.macho_strict.specs.Rules.{BreaksStrictImage};

    ghost takes_memory = { TakesMemory };

    ghost before = { λ image. NothingBreaks (BreaksStrictImage image) };

    fn check_image(alloc: Global, image: &Image) -> Result<(), Refusal> {
        check_image(alloc, image)
    }
}
