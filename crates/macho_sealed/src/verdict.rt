//! The sealed verdict on a file.

ghost use Rattle.std.specs.Prelude.{◌≡◌, OnOk, IfOk, IfErr};
ghost use Rattle.macho_sealed.specs.Sealed.{KeepsSealed};
ghost use Rattle.macho_sealed.specs.Verdict.{IsSealedRefusal};

use crate::profile::Sealed;
use macho_rules::{Refusal, Verified, check_images};
use macho_unambiguous::verify_unambiguous;
use std::alloc::Global;

/// Decides the rules of a file as `macho_unambiguous::verify_unambiguous` does, and then the sealed rules, in their
/// order: accepts it, or returns the first broken one, with its place in the file.
///
/// The sealed rules are about its 64-bit slices, in the order of the table. They take no memory. Each byte before
/// a signature is hashed once for each code directory, at most six times, and so is each blob with a hash.
///
/// It does not say who signed the file, nor whether `Info.plist` and other files beside it are those that were signed.
pub fn verify_sealed<'a>(alloc: Global, file: &'a [u8]) -> Result<Verified<'a>, Refusal>
    // It accepts only a file that `verify_unambiguous` accepts and that breaks no sealed rule: so in each image there is
    // a code signature, in which each code directory has the hash of each page of the bytes before it, and of each blob
    // in a special slot; and no byte of the signature may be executed. It refuses only a file that breaks a rule of the
    // five profiles, unless memory runs out.
    ensures accepted { OnOk result (KeepsSealed file.now) }
    ensures refused { IfErr result (IsSealedRefusal file.now) }
    ensures file { IfOk result (λ verified. verified ≡ file.now) }
{
    let verified = verify_unambiguous(alloc, file)?;
    check_images::<Sealed>(alloc, &verified)?;
    Ok(verified)
}
