//! What follows from the definitions alone. Each law is the contract of a function that does
//! nothing when it is called: the premises are its `requires`, the conclusion its `ensures`.

ghost use Rattle.std.specs.Prelude.{◌≡◌, ◌≤◌, ◌↔◌, ℕ, None, length};
ghost use Rattle.std.specs.List.Sorted.{IsStrictlyIncreasing};
ghost use Rattle.macho_fields.specs.Header.{AreFatConstants, AreLoaderConstants, AreOpcodeConstants};
ghost use Rattle.macho_fields.specs.Header.{AreExportConstants, AreDataInCodeConstants, ArePlatforms};
ghost use Rattle.macho_fields.specs.Header.{AreMachineConstants, AreNlistConstants, AreRelocConstants};
ghost use Rattle.macho_fields.specs.Header.{AreVmProtConstants, AreThreadStatusConstants};
ghost use Rattle.macho_fields.specs.Header.{AreFixupChainsConstants, AreCsBlobsConstants};
ghost use Rattle.macho_fields.specs.Image.{AreCommands, commands_of};
ghost use Rattle.macho_fields.specs.First.{IsFirstBroken, IsUnbroken};
ghost use Rattle.macho_fields.specs.Field.{IsEnded, part};
ghost use Rattle.macho_fields.specs.Loader.{IsSound, IsSoundImage, IsName, IsPart};
ghost use Rattle.macho_fields.specs.RuleList.{rule_number, profile_of};
ghost use Rattle.macho_fields.specs.Rules.{BreaksImage};
ghost use Rattle.macho_fields.specs.declared.rule.Profile.TheVariants.{Layout};

use crate::rule::{Break, Rule};

/// Each constant of `header` that is not an offset of a field is the number that its public header
/// defines, as `specs/Header.antt` lists them.
pub fn constants_are_those_of_the_headers()
    ensures fat { AreFatConstants }
    ensures loader { AreLoaderConstants }
    ensures opcodes { AreOpcodeConstants }
    ensures exports { AreExportConstants }
    ensures data_in_code { AreDataInCodeConstants }
    ensures platforms { ArePlatforms }
    ensures machine { AreMachineConstants }
    ensures nlist { AreNlistConstants }
    ensures reloc { AreRelocConstants }
    ensures vm_prot { AreVmProtConstants }
    ensures thread_status { AreThreadStatusConstants }
    ensures fixup_chains { AreFixupChainsConstants }
    ensures cs_blobs { AreCsBlobsConstants }
{}

/// An image has at most one list of commands.
pub fn commands_are_one(image: &[u8], commands: &[u64], others: &[u64])
    requires commands { AreCommands image.now commands.now }
    requires others { AreCommands image.now others.now }
    ensures { commands.now ≡ others.now }
{}

/// The list of commands of an image is counted off by their sizes.
pub fn commands_are_counted_off(image: &[u8], commands: &[u64])
    requires { AreCommands image.now commands.now }
    ensures { commands.now ≡ commands_of image.now }
{}

/// An image whose walk does not break has its commands.
pub fn unbroken_walk_has_commands(image: &[u8])
    requires { (place : ℕ) → ¬ BreaksImage image.now None Rule.CommandWalk place }
    ensures { AreCommands image.now (commands_of image.now) }
{}

/// The places of the commands of an image rise.
pub fn command_places_rise(image: &[u8], commands: &[u64])
    requires { AreCommands image.now commands.now }
    ensures { IsStrictlyIncreasing commands.now }
{}

/// A file has at most one first broken rule.
pub fn first_is_one(file: &[u8], first: Break, other: Break)
    requires first { IsFirstBroken file.now first }
    requires other { IsFirstBroken file.now other }
    ensures { first ≡ other }
{}

/// The first broken rule of a file is one of the layout.
pub fn first_is_of_the_layout(file: &[u8], first: Break)
    requires { IsFirstBroken file.now first }
    ensures { profile_of first.rule ≡ Layout }
{}

/// Each rule has a number of its own.
pub fn rule_numbers_are_distinct(one: Rule, other: Rule)
    requires { rule_number one ≡ rule_number other }
    ensures { one ≡ other }
{}

/// The place of the first broken rule is at most the length of the file.
pub fn first_place_is_inside(file: &[u8], first: Break)
    requires { IsFirstBroken file.now first }
    ensures { first.place ≤ length file.now }
{}

/// No rule is broken exactly if the file has no first broken rule.
pub fn unbroken_is_without_first(file: &[u8])
    ensures { IsUnbroken file.now ↔ ¬ ((first : Break) × IsFirstBroken file.now first) }
{}

/// A file that breaks no rule is sound.
pub fn unbroken_is_sound(file: &[u8])
    requires { IsUnbroken file.now }
    ensures { IsSound file.now }
{}

/// In a sound image a zero byte follows each name: the name of a command in the command, and the name of a
/// symbol in the string table.
pub fn a_zero_follows_each_name(image: &[u8], commands: &[u64])
    requires { IsSoundImage image.now commands.now }
    ensures { (start end : ℕ) → IsName image.now commands.now start end
        → IsEnded image.now start end }
{}

/// In a sound image each part that a structure names has all its bytes: none ends past the image.
pub fn parts_are_whole(image: &[u8], commands: &[u64])
    requires { IsSoundImage image.now commands.now }
    ensures { (start len : ℕ) → IsPart image.now commands.now start len
        → length (part start len image.now) ≡ len }
{}
