//! The entry that a thread names. (`mach-o/loader.h`: `thread_command`)

ghost use Rattle.std.specs.Prelude.{◌≡◌, ◌↔◌, ◌≤◌, ℕ, length, IsTrue, Some};
ghost use Rattle.macho_fields.specs.Bytes.{bytes_of};
ghost use Rattle.macho_commands.specs.Commands.{is_thread, NamesEntry, IsBadThread, IsThreadEntry};

use crate::states::thread_entry_of;
use macho_fields::Bytes;
use macho_fields::header::loader::{LC_THREAD, LC_UNIXTHREAD, LOAD_COMMAND_SIZE};
use macho_image::Image;
use macho_rules::is_executable;

/// Whether a command with this `cmd` is a thread.
pub fn is_thread(cmd: u32) -> bool
    ensures { result ≡ is_thread cmd }
{
    matches!(cmd, LC_THREAD | LC_UNIXTHREAD)
}

/// The address at which the thread of the image begins: what the registers of its first `LC_THREAD` or
/// `LC_UNIXTHREAD` name. `None` if the image has no thread, if the states of the thread do not fill the command, if
/// not one of them has registers that are known, or if the address has no byte of the file that may be executed.
pub fn thread_entry(image: &Image) -> Option<u64>
    ensures { (entry : ℕ) → (result ≡ Some entry) ↔ IsThreadEntry image.now entry }
{
    for command in image.commands() {
        if is_thread(command.cmd) {
            return sound_entry(image, Bytes::new(command.bytes));
        }
    }
    None
}

// Whether the thread with these bytes is bad. `repeats` is whether an earlier command is a thread.
pub(crate) fn is_bad_thread(image: &Image, command: Bytes, repeats: bool) -> bool
    requires { LOAD_COMMAND_SIZE ≤ length (bytes_of command) }
    ensures { IsTrue result
        ↔ IsBadThread image.now (IsTrue repeats) (bytes_of command.entry) }
{
    repeats || sound_entry(image, command).is_none()
}

// The entry that the thread with these bytes names, or `None` where it is not sound.
fn sound_entry(image: &Image, command: Bytes) -> Option<u64>
    requires { LOAD_COMMAND_SIZE ≤ length (bytes_of command) }
    ensures { (entry : ℕ) → (result ≡ Some entry)
        ↔ NamesEntry image.now (bytes_of command.entry) entry }
{
    let (cputype, _) = image.arch();
    let entry = thread_entry_of(cputype, command)?;
    if !is_executable(image, entry) {
        return None;
    }
    Some(entry)
}
