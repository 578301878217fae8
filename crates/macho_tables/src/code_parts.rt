//! The bytes of an image that may be executed. (`mach-o/loader.h`: `segment_command_64`)

ghost use Rattle.std.specs.Prelude.{◌≡◌, ◌↔◌, ◌<◌, IsTrue};
ghost use Rattle.macho_tables.specs.CodeParts.{has_code as has_code_of, IsOtherPart, HasOtherPart};

use macho_fields::Span;
use macho_image::{Image, Segment};
use macho_strict::{Disjoint, code_of, is_code};
use std::alloc::{AllocError, Global};

// The file bytes of the segments that may be executed.
#[derive(Drop)]
pub(crate) enum CodeParts {
    // Those of one segment. They are empty where none may be executed.
    One(Span),
    // Those of several.
    Many(Disjoint),
}

impl CodeParts {
    ghost use Rattle.std.specs.Prelude.{◌↔◌, ◌<◌, IsTrue, IfOk, OnErr, None};
    ghost use Rattle.macho_fields.specs.Layers.{NothingBreaks};
    ghost use Rattle.macho_fields.specs.Rules.{BreaksImage as Breaks};
    ghost use Rattle.macho_tables.specs.CodeParts.{AreCodeParts, HasCodePart, HasSeveralCodeParts};
    ghost use Rattle.macho_strict.specs.Rules.{BreaksStrictImage};

    // Those of an image that breaks no rule of the layout and no strict rule. They take memory only if there are
    // several.
    pub(crate) fn of(alloc: Global, image: &Image) -> Result<CodeParts, AllocError>
        requires unbroken { NothingBreaks (Breaks image.now None) }
        requires strictly { NothingBreaks (BreaksStrictImage image.now) }
        ensures parts { IfOk result (AreCodeParts image.now) }
        ensures memory { OnErr result (HasSeveralCodeParts image.now) }
    {
        let Some(first) = image.segments().find(|segment| has_code(segment)) else {
            return Ok(CodeParts::One(Span { start: 0, len: 0 }));
        };
        if has_other_part(image, first.place()) {
            return Ok(CodeParts::Many(code_of(alloc, image)?));
        }
        Ok(CodeParts::One(first.file_part()))
    }

    // Whether the bytes, at least one, are all in one part.
    pub(crate) fn has(&self, bytes: Span) -> bool
        requires { 0 < bytes.len }
        ensures { IsTrue result ↔ HasCodePart self.now bytes }
    {
        match self {
            CodeParts::One(part) => bytes.inside(part),
            CodeParts::Many(parts) => parts.has_range(bytes),
        }
    }
}

// Whether another segment than the one at `first` may be executed, and has bytes.
fn has_other_part(image: &Image, first: u64) -> bool
    ensures { IsTrue result ↔ HasOtherPart image.now first }
{
    image
        .segments()
        .any(|segment| has_code(&segment) && segment.place() != first)
}

// Whether the segment may be executed, and has bytes.
fn has_code(segment: &Segment) -> bool
    ensures { result ≡ has_code_of segment.now.image segment.now.place }
{
    is_code(segment) && segment.filesize() > 0
}
