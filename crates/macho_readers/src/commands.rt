//! The rules of commands: which are known, and which have encrypted bytes. (`mach-o/loader.h`)

ghost use Rattle.std.specs.Prelude.{◌≡◌, ◌+◌, ◌≤◌, ◌↔◌, length, IsTrue, false};
ghost use Rattle.macho_fields.specs.FirstPlace.{IsLeastPlace};
ghost use Rattle.macho_image.specs.Command.{command_of};
ghost use Rattle.macho_image.specs.Opened.{IsCommandOf};
ghost use Rattle.macho_readers.specs.Commands.{cryptid as cryptid_of, HasEncryptedRange, IsProtectedSegment, HasEncrypted, BreaksBytesEncrypted, is_known as is_known_of, BreaksCommandKnown};

use macho_commands::{content_of, is_thread};
use macho_fields::header::loader::encryption_info_command_64::CRYPTID;
use macho_fields::header::loader::{LC_ENCRYPTION_INFO_64, LC_SEGMENT_64};
use macho_fields::{Order, structure_of};
use macho_image::{Command, Image};
use macho_tables::place::place_of;
use macho_tables::segment::is_protected;

/// The place of the first command that has encrypted bytes: a range that is encrypted, or a segment that a kernel
/// decrypts.
pub fn bytes_encrypted(image: &Image) -> Option<u64>
    ensures { IsLeastPlace (BreaksBytesEncrypted image.now) result }
{
    place_of(
        image
            .commands()
            .find(|command| has_encrypted(image, command)),
    )
}

/// The place of the first command that no profile knows.
pub fn command_known(image: &Image) -> Option<u64>
    ensures { IsLeastPlace (BreaksCommandKnown image.now) result }
{
    place_of(image.commands().find(|command| !is_known(command.cmd)))
}

// Whether a profile knows a command with this `cmd`.
fn is_known(cmd: u32) -> bool
    ensures { result ≡ is_known_of cmd }
{
    structure_of(cmd).is_some() || is_thread(cmd) || content_of(cmd).is_some()
}

// Whether the command has encrypted bytes.
fn has_encrypted(image: &Image, command: &Command) -> bool
    requires { IsCommandOf image.now (command_of command.now) }
    ensures { IsTrue result ↔ HasEncrypted image.now command.now.place }
{
    has_encrypted_range(image, command) || is_protected_segment(image, command)
}

// Whether the command has a range of encrypted bytes.
fn has_encrypted_range(image: &Image, command: &Command) -> bool
    requires { IsCommandOf image.now (command_of command.now) }
    ensures { IsTrue result ↔ HasEncryptedRange image.now command.now.place }
{
    command.cmd == LC_ENCRYPTION_INFO_64 && cryptid(image, command.place) != 0
}

// The `cryptid` of the command at `place`.
fn cryptid(image: &Image, place: u64) -> u32
    requires { place + CRYPTID + 4 ≤ length image.now }
    ensures { result ≡ cryptid_of image.now place }
{
    image.bytes().read_u32(Order::Little, place + CRYPTID)
}

// Whether the command is a segment whose pages a kernel decrypts.
fn is_protected_segment(image: &Image, command: &Command) -> bool
    requires { IsCommandOf image.now (command_of command.now) }
    ensures { IsTrue result ↔ IsProtectedSegment image.now command.now.place }
{
    match command.segment(image.bytes()) {
        Some(segment) => is_protected(&segment),
        None => false,
    }
}
