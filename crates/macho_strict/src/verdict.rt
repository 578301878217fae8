//! The strict verdict on a file.

ghost use Rattle.std.specs.Prelude.{◌≡◌, OnOk, IfOk, IfErr};
ghost use Rattle.macho_fields.specs.First.{IsUnbroken};
ghost use Rattle.macho_fields.specs.Loader.{IsSound};
ghost use Rattle.macho_rules.specs.Profile.{IsAddedRefusal};
ghost use Rattle.macho_strict.specs.Accounted.{IsAccounted};
ghost use Rattle.macho_strict.specs.First.{IsStrictlyBrokenIn, IsStrictlyUnbroken};
ghost use Rattle.macho_strict.specs.Verdict.{IsStrictRefusal, TakesMemoryIn};

use crate::profile::Strict;
use crate::stray::fat_stray_byte;
use macho_rules::{Refusal, Verified, check_images, verify};
use std::alloc::Global;

/// Decides the rules of a file as `macho_rules::verify` does, and then the strict rules, in their order:
/// accepts it, or returns the first broken one, with its place in the file.
///
/// The strict rule of the file comes first; then the rules of its 64-bit slices, in the order of the
/// table. It takes memory as `verify` does, and then 24 bytes for each slice, segment or element of
/// those that are not in the order of their bytes. If an image has an encrypted range, or a NOP in no
/// element, it takes 24 bytes for each segment. If the commands end within the first 16 KiB of an image,
/// the elements are listed in any case, if there is memory.
pub fn verify_strictly<'a>(alloc: Global, file: &'a [u8]) -> Result<Verified<'a>, Refusal>
    // It accepts only a file that breaks no rule and no strict rule, and refuses only one that breaks
    // one of them, unless memory runs out.
    ensures accepted { OnOk result (IsUnbroken file.now) }
    ensures strictly { OnOk result (IsStrictlyUnbroken file.now) }
    ensures refused { IfErr result (IsStrictRefusal file.now) }

    // What it accepts is sound, and accounted for.
    ensures sound { OnOk result (IsSound file.now) }
    ensures accounted { OnOk result (IsAccounted file.now) }
    ensures file { IfOk result (λ verified. verified ≡ file.now) }
{
    let verified = verify(alloc, file)?;
    check_strictly(alloc, &verified)?;
    Ok(verified)
}

// Decides the strict rules of a file, and of each of its 64-bit slices, one slice after the other. The
// place of a break is its offset in the file.
fn check_strictly(alloc: Global, verified: &Verified) -> Result<(), Refusal>
    ensures unbroken { OnOk result (IsStrictlyUnbroken verified.now) }
    ensures refused { IfErr result
        (IsAddedRefusal (IsStrictlyBrokenIn verified.now) (TakesMemoryIn verified.now) verified.now) }
{
    fat_stray_byte(alloc, verified)?;
    check_images::<Strict>(alloc, verified)?;
    Ok(())
}
