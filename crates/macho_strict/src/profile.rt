//! What the strict profile adds to the layout, of an image.

use crate::check::check_image;
use macho_image::Image;
use macho_rules::{ImageProfile, ProfileRules, Refusal};
use std::alloc::Global;

// The strict profile.
pub(crate) struct Strict;

impl ProfileRules for Strict {
    ghost use Rattle.macho_strict.specs.Rules.{BreaksStrictImage};

    ghost breaks = { BreaksStrictImage };
}

impl ImageProfile for Strict {
    ghost use Rattle.macho_strict.specs.Verdict.{TakesMemory};

    ghost takes_memory = { TakesMemory };

    ghost before = { λ _. Unit {0} };

    fn check_image(alloc: Global, image: &Image) -> Result<(), Refusal> {
        check_image(alloc, image)
    }
}
