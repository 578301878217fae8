//! What follows from the definitions alone. Each law is the contract of a function that does
//! nothing when it is called: the premises are its `requires`, the conclusion its `ensures`.

ghost use Rattle.std.specs.Prelude.{◌≡◌};
ghost use Rattle.macho_fields.specs.First.{IsUnbroken};
ghost use Rattle.macho_fields.specs.RuleList.{profile_of};
ghost use Rattle.macho_fields.specs.declared.rule.Profile.TheVariants.{Sealed};
ghost use Rattle.macho_linked.specs.Rules.{IsLinkedUnbroken};
ghost use Rattle.macho_sealed.specs.Rules.{IsFirstSealedBroken, IsSealedUnbroken};
ghost use Rattle.macho_sealed.specs.Sealed.{AreSealed};

use macho_fields::Break;

/// A file has at most one first broken sealed rule.
pub fn first_sealed_broken_is_one(file: &[u8], first: Break, other: Break)
    requires first { IsFirstSealedBroken file.now first }
    requires other { IsFirstSealedBroken file.now other }
    ensures { first ≡ other }
{}

/// The first broken sealed rule of a file is one of the sealed profile.
pub fn first_sealed_broken_is_sealed(file: &[u8], first: Break)
    requires { IsFirstSealedBroken file.now first }
    ensures { profile_of first.rule ≡ Sealed }
{}

/// Each image of a file that breaks no rule of the layout, no linked rule and no sealed rule has a code signature, each
/// code directory in it has the hashes of all bytes before it, and each byte past that is zero or in a part of it, which
/// may not be executed.
pub fn sealed_unbroken_is_sealed(file: &[u8])
    requires unbroken { IsUnbroken file.now }
    requires linked { IsLinkedUnbroken file.now }
    requires sealed { IsSealedUnbroken file.now }
    ensures { AreSealed file.now }
{}
