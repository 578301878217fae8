//! The unambiguous verdict on a file.

ghost use Rattle.std.specs.Prelude.{◌≡◌, OnOk, IfOk, IfErr};
ghost use Rattle.macho_fields.specs.Layers.{NothingBreaks};
ghost use Rattle.macho_fields.specs.Universal.{OfEachImage};
ghost use Rattle.macho_linked.specs.Rules.{BreaksImage as BreaksLinked};
ghost use Rattle.macho_rules.specs.Profile.{IsAddedRefusal};
ghost use Rattle.macho_unambiguous.specs.Rules.{IsBrokenIn, IsUnambiguousUnbroken};
ghost use Rattle.macho_unambiguous.specs.Unambiguous.{KeepsUnambiguous};
ghost use Rattle.macho_unambiguous.specs.Verdict.{IsUnambiguousRefusal, TakesMemoryIn};

use crate::check::check_file;
use crate::profile::Unambiguous;
use macho_linked::verify_linked;
use macho_rules::{Refusal, Verified, check_images};
use std::alloc::Global;

/// Decides the rules of a file as `macho_linked::verify_linked` does, and then the unambiguous rules, in their order:
/// accepts it, or returns the first broken one, with its place in the file.
///
/// The unambiguous rules of the file come first; then the rules of its 64-bit slices, in the order of the table. It
/// takes time in the order of n log n for n slices, segments, sections and commands, and for the bytes of the names of
/// external symbols, binds and imports. It takes memory for each slice of a universal file, for sections and for
/// segments if there are more than 64, for commands of platforms if there are several, and for external symbols, binds,
/// imports, and pending nodes of the export trie. Bytes under zero-fill sections are read once.
pub fn verify_unambiguous<'a>(alloc: Global, file: &'a [u8]) -> Result<Verified<'a>, Refusal>
    // It accepts only a file that `verify_linked` accepts and that breaks no unambiguous rule: so readers that choose
    // between slices, segments, sections, commands and entries in the ways of the models choose the same ones, and find
    // the same binds, symbols, exports and signature. It refuses only a file that breaks a rule of the four profiles,
    // unless memory runs out.
    ensures accepted { OnOk result (KeepsUnambiguous file.now) }
    ensures refused { IfErr result (IsUnambiguousRefusal file.now) }
    ensures file { IfOk result (λ verified. verified ≡ file.now) }
{
    let verified = verify_linked(alloc, file)?;
    check(alloc, &verified)?;
    Ok(verified)
}

// Decides the unambiguous rules of a file, and of each of its 64-bit slices, one slice after the other. The place of a
// break is its offset in the file. It stands apart to save the stack of the verdict by the linked rules.
#[inline(never)]
fn check(alloc: Global, verified: &Verified) -> Result<(), Refusal>
    requires { OfEachImage (λ image. NothingBreaks (BreaksLinked image)) verified.now }
    ensures unbroken { OnOk result (IsUnambiguousUnbroken verified.now) }
    ensures refused { IfErr result
        (IsAddedRefusal (IsBrokenIn verified.now) (TakesMemoryIn verified.now) verified.now) }
{
    check_file(alloc, verified)?;
    check_images::<Unambiguous>(alloc, verified)?;
    Ok(())
}
