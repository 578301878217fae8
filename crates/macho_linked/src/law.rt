//! What follows from the definitions alone. Each law is the contract of a function that does
//! nothing when it is called: the premises are its `requires`, the conclusion its `ensures`.

ghost use Rattle.std.specs.Prelude.{◌≡◌};
ghost use Rattle.macho_fields.specs.RuleList.{profile_of};
ghost use Rattle.macho_fields.specs.declared.rule.Profile.TheVariants.{Linked};
ghost use Rattle.macho_fields.specs.First.{IsUnbroken};
ghost use Rattle.macho_linked.specs.Linked.{IsLinked};
ghost use Rattle.macho_linked.specs.Rules.{IsFirstLinkedBroken, IsLinkedUnbroken};

use macho_fields::Break;

/// A file has at most one first broken linked rule.
pub fn first_linked_broken_is_one(file: &[u8], first: Break, other: Break)
    requires first { IsFirstLinkedBroken file.now first }
    requires other { IsFirstLinkedBroken file.now other }
    ensures { first ≡ other }
{}

/// The first broken linked rule of a file is one of the linked profile.
pub fn first_linked_broken_is_linked(file: &[u8], first: Break)
    requires { IsFirstLinkedBroken file.now first }
    ensures { profile_of first.rule ≡ Linked }
{}

/// A file that breaks no rule of the layout and no linked rule has each property of `IsLinked`: its opcodes are
/// harmless, the plain dyld follows them and its chained fixups safely, and what its other tables and commands name is
/// there.
pub fn linked_unbroken_is_linked(file: &[u8])
    requires unbroken { IsUnbroken file.now }
    requires linked { IsLinkedUnbroken file.now }
    ensures { IsLinked file.now }
{}
