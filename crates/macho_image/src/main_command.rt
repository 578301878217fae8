//! The entry point of a program. (`mach-o/loader.h`: `entry_point_command`)

ghost use Rattle.std.specs.Prelude.{◌≡◌, ◌+◌, ◌≤◌, length};
ghost use Rattle.std.specs.Option.{option_map};
ghost use Rattle.macho_fields.specs.Bytes.{bytes_of};
ghost use Rattle.macho_fields.specs.Image.{commands_of};
ghost use Rattle.macho_fields.specs.LoadCommands.{structure_size};
ghost use Rattle.macho_fields.specs.declared.load_command.Structure.TheVariants.{EntryPointCommand};
ghost use Rattle.macho_image.specs.Command.{first_with_cmd};
ghost use Rattle.macho_image.specs.Single.{main_command_at};

use crate::command::long_in;
use crate::image::Image;
use macho_fields::Bytes;
use macho_fields::header::loader::LC_MAIN;
use macho_fields::header::loader::entry_point_command::{ENTRYOFF, STACKSIZE};

/// The `LC_MAIN` command. (`entry_point_command`)
#[derive(Clone, Copy, Debug, PartialEq, Eq)]
pub struct MainCommand {
    /// Where its command begins in the image.
    pub place: u64,
    /// The entry point, in bytes from the base address of the image.
    pub entryoff: u64,
    /// The size in bytes of the initial stack, or 0 for the default size.
    pub stacksize: u64,
}

impl<'a> Image<'a> {
    /// The `LC_MAIN` command, or `None` if the image has none.
    pub fn main_command(&self) -> Option<MainCommand>
        ensures { result ≡ option_map (main_command_at self.now)
            (first_with_cmd self.now LC_MAIN (commands_of self.now)) }
    {
        let place = self.place_of(LC_MAIN)?;
        Some(main_command_from(self.bytes(), place))
    }
}

// The `entry_point_command` at `place`.
fn main_command_from(image: Bytes, place: u64) -> MainCommand
    requires { place + structure_size EntryPointCommand ≤ length (bytes_of image) }
    ensures { result ≡ main_command_at (bytes_of image.entry) place }
{
    MainCommand {
        place,
        entryoff: long_in(image, place, ENTRYOFF),
        stacksize: long_in(image, place, STACKSIZE),
    }
}
