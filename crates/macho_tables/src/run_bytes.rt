//! Which addresses of an image have a byte of the file that may be executed. (`mach-o/loader.h`:
//! `segment_command_64`)

use crate::code_parts::CodeParts;
use macho_fields::Span;
use macho_image::Image;
use macho_rules::{Mapping, Source};
use std::alloc::{AllocError, Global};

// Which addresses of an image have a byte of the file that may be executed. Each search takes time in the order of
// log n for n segments.
#[derive(Drop)]
pub(crate) struct RunBytes {
    mapping: Mapping,
    code: CodeParts,
}

impl RunBytes {
    ghost use Rattle.std.specs.Prelude.{◌≡◌, ◌↔◌, ℕ, List, IsTrue, IfOk, None};
    ghost use Rattle.macho_fields.specs.Image.{commands_of};
    ghost use Rattle.macho_fields.specs.Layers.{NothingBreaks};
    ghost use Rattle.macho_fields.specs.Rules.{BreaksImage as Breaks};
    ghost use Rattle.macho_fields.specs.Segment.{IsExecutable};
    ghost use Rattle.macho_rules.specs.Mapping.{sources};
    ghost use Rattle.macho_strict.specs.Rules.{BreaksStrictImage};
    ghost use Rattle.macho_tables.specs.RunBytes.{AreRunBytes, GivesCodeByte};

    // Those of an image that breaks no rule of the layout and no strict rule. They take 40 bytes for each mapped
    // segment, and 24 for each segment if several may be executed.
    pub(crate) fn of(alloc: Global, image: &Image) -> Result<RunBytes, AllocError>
        requires unbroken { NothingBreaks (Breaks image.now None) }
        requires strictly { NothingBreaks (BreaksStrictImage image.now) }
        ensures { IfOk result (AreRunBytes image.now) }
    {
        let mapping = Mapping::of_image(alloc, image)?;
        let code = CodeParts::of(alloc, image)?;
        Ok(RunBytes { mapping, code })
    }

    // Whether the address has one.
    pub(crate) fn has(&mut self, address: u64) -> bool
        ensures found { (image : List ℕ) → NothingBreaks (BreaksStrictImage image)
            → AreRunBytes image self.old
            → IsTrue result ↔ IsExecutable image (commands_of image) address }
        ensures same { (image : List ℕ) → AreRunBytes image self.old → AreRunBytes image self.new }
    {
        self.gives(address)
    }

    // The same, by the mapping and the parts.
    fn gives(&mut self, address: u64) -> bool
        ensures found { IsTrue result
            ↔ GivesCodeByte (sources self.old.mapping) self.old.code address }
        ensures mapping { (other : ℕ) → sources self.new.mapping other ≡ sources self.old.mapping other }
        ensures code { self.new.code ≡ self.old.code }
    {
        match self.mapping.source(address) {
            Some(Source::File(start)) => self.code.has(Span { start, len: 1 }),
            Some(Source::Zero) | None => false,
        }
    }
}
