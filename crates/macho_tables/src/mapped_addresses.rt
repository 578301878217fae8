//! The addresses of an image to which a segment is mapped. (`mach-o/loader.h`: `segment_command_64`)

use crate::segment_memory::{Extent, memory_of};
use macho_image::Image;
use macho_strict::Disjoint;
use std::alloc::{AllocError, Global};

/// The addresses of an image to which a segment is mapped.
#[derive(Drop)]
pub struct MappedAddresses {
    memory: Disjoint,
}

impl MappedAddresses {
    ghost use Rattle.std.specs.Prelude.{◌↔◌, ℕ, List, None, IfOk, IsTrue};
    ghost use Rattle.macho_fields.specs.Layers.{NothingBreaks};
    ghost use Rattle.macho_fields.specs.Rules.{BreaksImage as Breaks};
    ghost use Rattle.macho_tables.specs.MappedAddresses.{AreMappedAddresses, IsMapped};

    /// Those of an image that breaks no rule of the layout. They take 24 bytes for each segment.
    pub fn of(alloc: Global, image: &Image) -> Result<MappedAddresses, AllocError>
        requires { NothingBreaks (Breaks image.now None) }
        ensures { IfOk result (AreMappedAddresses image.now) }
    {
        let memory = memory_of(alloc, image, Extent::Memory)?;
        Ok(MappedAddresses { memory })
    }

    /// Whether a segment is mapped to the address. Those that are asked for mostly ascend.
    pub fn has(&mut self, address: u64) -> bool
        ensures mapped { (image : List ℕ) → AreMappedAddresses image self.old
            → IsTrue result ↔ IsMapped image address }
        ensures same { (image : List ℕ) → AreMappedAddresses image self.old
            → AreMappedAddresses image self.new }
    {
        self.memory.holding_next(address).is_some()
    }
}
