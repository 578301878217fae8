//! The rule of what the commands hold that no other rule judges. (`mach-o/loader.h`)

ghost use Rattle.std.specs.Prelude.{◌≡◌, ◌≤◌, ◌↔◌, length, IsTrue};
ghost use Rattle.macho_fields.specs.Bytes.{bytes_of};
ghost use Rattle.macho_commands.specs.Commands.{HasBadTarget, HasBadContent, IsBadCommand, is_routine};
ghost use Rattle.macho_commands.specs.Content.{HasFields};

use crate::content::{Content, Holding, content_of, is_foreign};
use crate::described::has_bad_bytes;
use macho_fields::Bytes;
use macho_fields::header::loader::routines_command::INIT_ADDRESS;
use macho_image::Image;
use macho_rules::is_executable;

// Whether a command with this `cmd` names a routine.
pub(crate) fn is_routine(cmd: u32) -> bool
    ensures { result ≡ is_routine cmd }
{
    match content_of(cmd) {
        Some(content) => matches!(content.holding, Holding::Routine(_)),
        None => false,
    }
}

// Whether the command is foreign, or its content is bad. `repeats` is whether an earlier command names a routine.
pub(crate) fn is_bad_command(image: &Image, cmd: u32, command: Bytes, repeats: bool) -> bool
    ensures { IsTrue result
        ↔ IsBadCommand image.now (IsTrue repeats) cmd (bytes_of command.entry) }
{
    if is_foreign(cmd) {
        return true;
    }
    match content_of(cmd) {
        Some(content) => has_bad_content(image, command, content, repeats),
        None => false,
    }
}

// Whether the content of the command is bad.
fn has_bad_content(image: &Image, command: Bytes, content: Content, repeats: bool) -> bool
    requires { HasFields content }
    ensures { IsTrue result
        ↔ HasBadContent image.now (IsTrue repeats) (bytes_of command.entry) content }
{
    command.len() < content.size
        || has_bad_target(image, command, content, repeats)
        || has_bad_bytes(command, content)
}

// Whether what the command names outside of itself is bad.
fn has_bad_target(image: &Image, command: Bytes, content: Content, repeats: bool) -> bool
    requires fields { HasFields content }
    requires whole { content.size ≤ length (bytes_of command) }
    ensures { IsTrue result
        ↔ HasBadTarget image.now (IsTrue repeats) (bytes_of command.entry) content.holding }
{
    match content.holding {
        Holding::Range(table) => {
            let count = table.item_count(command, 0);
            let place = table.table_place(command, 0);
            count > 0 && !image.bytes().contains_table(place, count, table.item_size)
        }
        Holding::Routine(width) => {
            repeats || !is_executable(image, width.read(command, INIT_ADDRESS))
        }
        Holding::Nothing
        | Holding::Name
        | Holding::NameAndModules
        | Holding::Strings
        | Holding::CountedStrings => false,
    }
}
