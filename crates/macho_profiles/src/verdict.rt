//! Which verdict a profile asks for.

ghost use Rattle.std.specs.Prelude.{◌≡◌, OnOk, IfOk, IfErr};
ghost use Rattle.macho_profiles.specs.Profiles.{IsAcceptedBy, IsRefusedBy};

use macho_fields::Profile;
use macho_linked::verify_linked;
use macho_rules::{Refusal, Verified, verify};
use macho_sealed::verify_sealed;
use macho_strict::verify_strictly;
use macho_unambiguous::verify_unambiguous;
use std::alloc::Global;

/// Decides the rules of a file, of the profiles up to this one: accepts it, or returns the first broken
/// one, with its place in the file. It takes memory as the verdict of the profile does.
pub fn verify_by<'a>(
    alloc: Global,
    profile: Profile,
    file: &'a [u8],
) -> Result<Verified<'a>, Refusal>
    ensures accepted { OnOk result (IsAcceptedBy profile file.now) }
    ensures file { IfOk result (λ verified. verified ≡ file.now) }
    ensures refused { IfErr result (IsRefusedBy profile file.now) }
{
    match profile {
        Profile::Layout => verify(alloc, file),
        Profile::Strict => verify_strictly(alloc, file),
        Profile::Linked => verify_linked(alloc, file),
        Profile::Unambiguous => verify_unambiguous(alloc, file),
        Profile::Sealed => verify_sealed(alloc, file),
    }
}
