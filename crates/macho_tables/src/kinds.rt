//! The commands that name linked data, at most one of each kind in an image, and those that no
//! rule can judge. (`mach-o/loader.h`)

ghost use Rattle.std.specs.Prelude.{◌≡◌, ◌<◌, ◌↔◌, IsTrue, true};
ghost use Rattle.macho_fields.specs.FirstPlace.{IsLeastPlace};
ghost use Rattle.macho_image.specs.Command.{command_of};
ghost use Rattle.macho_image.specs.Opened.{IsCommandOf};
ghost use Rattle.macho_tables.specs.Kinds.{is_fixups as is_fixups_of, is_exports as is_exports_of, is_alone as is_alone_of, names_linked_data as names_linked_data_of, share_kind as share_kind_of, names_variants as names_variants_of, RepeatsEarlier, BreaksTableRepeated, BreaksFunctionVariants};

use crate::place::place_of;
use macho_fields::header::loader::{
    LC_CODE_SIGNATURE, LC_DATA_IN_CODE, LC_DYLD_CHAINED_FIXUPS, LC_DYLD_EXPORTS_TRIE, LC_DYLD_INFO,
    LC_DYLD_INFO_ONLY, LC_FUNCTION_STARTS, LC_FUNCTION_VARIANT_FIXUPS, LC_FUNCTION_VARIANTS,
};
use macho_image::{Command, Image};

/// The place of the first command that names linked data of a kind that an earlier one names. The command
/// counts, whatever it names, since loaders go by it.
pub fn table_repeated(image: &Image) -> Option<u64>
    ensures { IsLeastPlace (BreaksTableRepeated image.now) result }
{
    place_of(
        image
            .commands_with_tables()
            .find(|command| repeats(image, command)),
    )
}

/// The place of the first command with variants of functions, or with what is written for them.
pub fn function_variants(image: &Image) -> Option<u64>
    ensures { IsLeastPlace (BreaksFunctionVariants image.now) result }
{
    place_of(image.commands().find(|command| names_variants(command.cmd)))
}

/// Whether a command with this `cmd` names linked data.
pub fn names_linked_data(cmd: u32) -> bool
    ensures { result ≡ names_linked_data_of cmd }
{
    is_fixups(cmd) || is_exports(cmd) || is_alone(cmd)
}

// Whether an earlier command names linked data of a kind of this one. A command that names none is not
// compared, so the work is linear.
fn repeats(image: &Image, command: &Command) -> bool
    requires { IsCommandOf image.now (command_of command.now) }
    ensures { IsTrue result ↔ RepeatsEarlier image.now command.now.place }
{
    names_linked_data(command.cmd) && repeats_earlier(image, command)
}

// Whether an earlier command names linked data of a kind of this one.
fn repeats_earlier(image: &Image, command: &Command) -> bool
    requires { IsCommandOf image.now (command_of command.now) }
    ensures { IsTrue result ↔ RepeatsEarlier image.now command.now.place }
{
    image
        .commands_with_tables()
        .any(|earlier| is_repeated(&earlier, command))
}

// Whether the command comes before the other one, and is of a kind of it.
fn is_repeated(earlier: &Command, command: &Command) -> bool
    ensures { IsTrue result ↔ ((earlier.now.place < command.now.place)
        × (share_kind_of earlier.now.cmd command.now.cmd ≡ true)) }
{
    earlier.place < command.place && share_kind(earlier.cmd, command.cmd)
}

/// Whether commands with these `cmd` name linked data of a common kind.
pub fn share_kind(cmd: u32, other: u32) -> bool
    ensures { result ≡ share_kind_of cmd other }
{
    (is_fixups(cmd) && is_fixups(other))
        || (is_exports(cmd) && is_exports(other))
        || (is_alone(cmd) && cmd == other)
}

/// Whether a command with this `cmd` names what a loader writes.
pub fn is_fixups(cmd: u32) -> bool
    ensures { result ≡ is_fixups_of cmd }
{
    matches!(
        cmd,
        LC_DYLD_INFO | LC_DYLD_INFO_ONLY | LC_DYLD_CHAINED_FIXUPS
    )
}

// Whether a command with this `cmd` names what an image exports.
fn is_exports(cmd: u32) -> bool
    ensures { result ≡ is_exports_of cmd }
{
    matches!(cmd, LC_DYLD_INFO | LC_DYLD_INFO_ONLY | LC_DYLD_EXPORTS_TRIE)
}

// Whether a command with this `cmd` names linked data of a kind that no other one names.
fn is_alone(cmd: u32) -> bool
    ensures { result ≡ is_alone_of cmd }
{
    matches!(
        cmd,
        LC_FUNCTION_STARTS | LC_DATA_IN_CODE | LC_CODE_SIGNATURE
    )
}

// Whether a command with this `cmd` has variants of functions, or what is written for them.
fn names_variants(cmd: u32) -> bool
    ensures { result ≡ names_variants_of cmd }
{
    matches!(cmd, LC_FUNCTION_VARIANTS | LC_FUNCTION_VARIANT_FIXUPS)
}
