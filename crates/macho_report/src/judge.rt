//! Who decides whether a file is accepted, and what the report says of its images beside their layout.

ghost use Rattle.std.specs.Prelude.{◌≡◌, ℕ, List, [], ◌++◌, IfErr, IfOk, None, OnOk};
ghost use Rattle.macho_fields.specs.First.{IsUnbroken, IsFirstBroken};
ghost use Rattle.macho_fields.specs.Layers.{NothingBreaks};
ghost use Rattle.macho_fields.specs.Rules.{BreaksImage};
ghost use Rattle.macho_fields.specs.declared.rule.Break.{Break};
ghost use Rattle.macho_text.specs.Writer.{HoldsText};
ghost use Rattle.macho_report.specs.Judge.{IsRefusalBy};

use macho_fields::LayoutRules;
use macho_image::Image;
use macho_rules::{Refusal, Verified, verify};
use macho_text::{Line, Output, WriteFault};
use std::alloc::Global;

/// Decides whether a file is accepted, and writes what the report says of an image after its layout.
pub trait Judge {
    /// Whether a file is accepted.
    ghost accepts: { Self → List ℕ → Type 0 };
    /// Whether a file is refused for this break.
    ghost refuses: { Self → List ℕ → Break → Type 0 };
    /// What the report of an accepted file says of an image, given its bytes, after the lines of its
    /// layout: most judges add nothing.
    ghost says: { Self → List ℕ → List ℕ } = { λ _ _. [] };

    /// Decides whether the file is accepted.
    fn judge<'a>(&self, alloc: Global, file: &'a [u8]) -> Result<Verified<'a>, Refusal>
        ensures accepted { OnOk result (accepts self.now file.now) }
        ensures file { IfOk result (λ verified. verified ≡ file.now) }
        ensures refused { IfErr result (IsRefusalBy (refuses self.now) file.now) };

    /// Writes what the report says of an image, which breaks no rule of the layout, after the lines of its
    /// layout. The line can hold it.
    fn write_more<W: Output>(
        &self,
        image: &Image,
        line: &mut Line,
        writer: &mut W,
    ) -> Result<(), WriteFault>
        requires { NothingBreaks (BreaksImage image.now None) }
        ensures { HoldsText W.Output writer.old writer.new result line.new
            (line.old ++ says self.now image.now) };
}

/// Accepts the files that break no rule of the layout, as [`verify`] decides.
impl Judge for LayoutRules {
    ghost accepts = { λ _. IsUnbroken };

    ghost refuses = { λ _. IsFirstBroken };

    fn judge<'a>(&self, alloc: Global, file: &'a [u8]) -> Result<Verified<'a>, Refusal> {
        verify(alloc, file)
    }

    fn write_more<W: Output>(&self, _: &Image, _: &mut Line, _: &mut W) -> Result<(), WriteFault> {
        Ok(())
    }
}
