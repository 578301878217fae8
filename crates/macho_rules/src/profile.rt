//! What a profile adds to the rules of the layout, and the walk over the images of a file that judges it.

ghost use Rattle.std.specs.Prelude.{ℕ, List, None, OnOk, IfErr};
ghost use Rattle.macho_fields.specs.First.{rank};
ghost use Rattle.macho_fields.specs.FirstPlace.{IsLeastPlace};
ghost use Rattle.macho_fields.specs.Layers.{NothingBreaks, KeptBelow, Continues};
ghost use Rattle.macho_fields.specs.Rules.{BreaksImage};
ghost use Rattle.macho_fields.specs.Universal.{OfEachImage};
ghost use Rattle.macho_fields.specs.declared.rule.Rule.{Rule};
ghost use Rattle.macho_rules.specs.Profile.{RefusesInside, SliceKeeps, NoImageBreaks, IsRefusalInSlice, IsRefusalOfImages};
ghost use Rattle.macho_rules.specs.Verdict.{IsRefusalOf};

use crate::refusal::{Refusal, in_file};
use crate::verdict::Verified;
use macho_fields::{Break, Rule};
use macho_image::Image;
use std::alloc::Global;

/// The rules that a profile adds to the layout's.
pub trait ProfileRules {
    /// An image breaks the rule at the place.
    ghost breaks: { List ℕ → Rule → ℕ → Type 0 };

    /// The answer of a rule, by the least place at which the image breaks it, where all earlier ones are
    /// unbroken.
    final fn judge(image: &Image, rule: Rule, least: Option<u64>) -> Result<(), Break>
        requires kept { KeptBelow (breaks image.now) (rank rule) }
        requires least { IsLeastPlace (breaks image.now rule) least }
        ensures { Continues (breaks image.now) rule result }
    {
        let _image = image;
        rule.judge(least)
    }
}

/// A profile that judges images.
pub trait ImageProfile: ProfileRules {
    /// The verdict on an image takes memory.
    ghost takes_memory: { List ℕ → Type 0 };

    /// What an image keeps of the profiles between the layout and this one.
    ghost before: { List ℕ → Type 0 };

    /// Decides the rules of an image that breaks no rule of the layout, nor of the profiles between, in
    /// their order. It returns the first broken one, with its place in the image, which is at most its length.
    fn check_image(alloc: Global, image: &Image) -> Result<(), Refusal>
        requires layout { NothingBreaks (BreaksImage image.now None) }
        requires before { before image.now }
        ensures unbroken { OnOk result (NothingBreaks (Self.breaks image.now)) }
        ensures refused { IfErr result
            (IsRefusalOf (Self.breaks image.now) (takes_memory image.now)) }
        ensures inside { IfErr result (RefusesInside image.now) };
}

/// Decides the rules that a profile adds, of each 64-bit slice of a file, one slice after the other. The
/// place of a break is its offset in the file.
pub fn check_images<P: ImageProfile>(alloc: Global, verified: &Verified) -> Result<(), Refusal>
    requires { OfEachImage P.before verified.now }
    ensures unbroken { OnOk result (NoImageBreaks P.breaks verified.now) }
    ensures refused { IfErr result (IsRefusalOfImages P.breaks verified.now P.takes_memory) }
{
    for index in 0..verified.slice_count() {
        check_slice::<P>(alloc, verified, index)?;
    }
    Ok(())
}

// Decides the rules that a profile adds of the slice with this index, if it has an image. The place of a
// break is its offset in the file.
fn check_slice<P: ImageProfile>(
    alloc: Global,
    verified: &Verified,
    index: u64,
) -> Result<(), Refusal>
    requires { OfEachImage P.before verified.now }
    ensures unbroken { OnOk result (SliceKeeps P.breaks verified.now index) }
    ensures refused { IfErr result (IsRefusalInSlice P.breaks verified.now P.takes_memory index) }
{
    let Some(slice) = verified.slice(index) else {
        return Ok(());
    };
    let Some(image) = verified.image(index) else {
        return Ok(());
    };
    match P::check_image(alloc, &image) {
        Ok(()) => Ok(()),
        Err(Refusal::Broken(broken)) => {
            // The image lies in the file, so its places do too.
            prove!(verified.bytes().len() <= u64::MAX);
            Err(Refusal::Broken(in_file(broken, slice.span.start)))
        }
        Err(Refusal::Memory) => Err(Refusal::Memory),
    }
}
