//! What is at the addresses of an accepted image.

use crate::image::VerifiedImage;
use macho_rules::Mapping;
use std::alloc::{AllocError, Global};

impl<'a> VerifiedImage<'a> {
    ghost use Rattle.std.specs.Prelude.{◌≡◌, length, IfOk, OnErr};
    ghost use Rattle.macho_rules.specs.Mapping.{sources, segment_count, probe_count};
    ghost use Rattle.macho_rules.specs.Mapping.{mapped_segments, GivesSources};
    ghost use Rattle.macho_rules.specs.Verdict.{HasMapped};

    /// The mapping of the image, which says what is at each of its addresses. It takes memory for
    /// the mapped segments alone, and none without any.
    pub fn mapping(&self, alloc: Global) -> Result<Mapping, AllocError>
        ensures sources { IfOk result (λ mapping. GivesSources self.now (sources mapping)) }
        ensures segments { IfOk result (λ mapping.
            segment_count mapping ≡ length (mapped_segments self.now)) }
        ensures probes { IfOk result (λ mapping. probe_count mapping ≡ 0) }
        ensures memory { OnErr result (HasMapped self.now) }
    {
        Mapping::of_image(alloc, self.image())
    }
}
