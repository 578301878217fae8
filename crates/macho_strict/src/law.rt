//! What follows from the definitions alone. Each law is the contract of a function that does
//! nothing when it is called: the premises are its `requires`, the conclusion its `ensures`.

ghost use Rattle.std.specs.Prelude.{◌≡◌, ◌≤◌, length};
ghost use Rattle.macho_fields.specs.First.{IsUnbroken};
ghost use Rattle.macho_fields.specs.RuleList.{profile_of};
ghost use Rattle.macho_fields.specs.declared.rule.Profile.TheVariants.{Strict};
ghost use Rattle.macho_strict.specs.Accounted.{IsAccounted};
ghost use Rattle.macho_strict.specs.First.{IsFirstStrictlyBroken, IsStrictlyUnbroken};

use macho_fields::Break;

/// A file has at most one first broken strict rule.
pub fn first_strictly_broken_is_one(file: &[u8], first: Break, other: Break)
    requires first { IsFirstStrictlyBroken file.now first }
    requires other { IsFirstStrictlyBroken file.now other }
    ensures { first ≡ other }
{}

/// The first broken strict rule of a file is one of the strict profile.
pub fn first_strictly_broken_is_strict(file: &[u8], first: Break)
    requires { IsFirstStrictlyBroken file.now first }
    ensures { profile_of first.rule ≡ Strict }
{}

/// The place of the first broken strict rule is at most the length of the file, which breaks no other
/// rule.
pub fn first_strict_place_is_inside(file: &[u8], first: Break)
    requires unbroken { IsUnbroken file.now }
    requires first { IsFirstStrictlyBroken file.now first }
    ensures { first.place ≤ length file.now }
{}

/// A file that breaks no rule and no strict rule is accounted for.
pub fn strictly_unbroken_is_accounted(file: &[u8])
    requires unbroken { IsUnbroken file.now }
    requires strictly { IsStrictlyUnbroken file.now }
    ensures { IsAccounted file.now }
{}
