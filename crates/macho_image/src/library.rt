//! The dynamic libraries that an image names. (`mach-o/loader.h`: `dylib_command`)

ghost use Rattle.std.specs.Prelude.{◌≡◌, map};
ghost use Rattle.std.specs.Iterator.{YieldsFirstBy, item_count};
ghost use Rattle.std.specs.Option.{option_map};
ghost use Rattle.macho_fields.specs.Bytes.{bytes_of};
ghost use Rattle.macho_fields.specs.Image.{commands_of};
ghost use Rattle.macho_image.specs.Command.{command_of, first_with_cmd};
ghost use Rattle.macho_image.specs.Library.{dylib_of, dylib_at, libraries_left, libraries};
ghost use Rattle.macho_image.specs.Views.{HoldsLibrary};

use crate::command::{Command, Commands, name_of, word_at, word_in};
use crate::image::Image;
use macho_fields::header::loader::LC_ID_DYLIB;
use macho_fields::header::loader::dylib_command::{COMPATIBILITY_VERSION, CURRENT_VERSION};
use macho_fields::{Bytes, names_library};
use std::marker::Model;

/// A library that an image is linked with, or the image itself. (`dylib_command`)
///
/// A version is X.Y.Z in the form `xxxx.yy.zz`, 16, 8 and 8 bits.
#[derive(Clone, Copy)]
pub struct Dylib<'a> {
    /// Where its command begins in the image.
    pub place: u64,
    /// The `cmd` of its command: `LC_ID_DYLIB` for the image itself.
    pub cmd: u32,
    /// Its path, borrowed from the image, without the zero byte that ends it.
    pub name: &'a [u8],
    /// Its `current_version`.
    pub current: u32,
    /// Its `compatibility_version`.
    pub compatible: u32,
}

/// The libraries of an image that remain, in the order of the commands.
#[derive(Drop)]
pub struct Dylibs<'a> {
    image: Bytes<'a>,
    commands: Commands<'a>,
}

impl<'a> Model for Dylibs<'a> {
    ghost use Rattle.std.specs.Prelude.{List};
    ghost use Rattle.macho_fields.specs.Bytes.{bytes_of};
    ghost use Rattle.macho_image.specs.Library.{DylibView, dylibs_left};
    ghost use Rattle.macho_image.specs.Views.{HoldLibraries};

    ghost Value = { List DylibView };

    ghost view = { λ dylibs. dylibs_left (bytes_of dylibs.image) dylibs.commands };

    ghost invariant = { λ dylibs. HoldLibraries (bytes_of dylibs.image) dylibs.commands };
}

impl<'a> Iterator for Dylibs<'a> {
    type Item = Dylib<'a>;

    ghost next_gives = { YieldsFirstBy dylib_of (λ left. left) };

    ghost remaining = { item_count (λ left. left) };

    fn next(&mut self) -> Option<Dylib<'a>> {
        let command = next_library(&mut self.commands)?;
        Some(dylib_from(self.image, command.place))
    }
}

impl<'a> Image<'a> {
    /// The libraries that the image names, in the order of the commands. The `LC_ID_DYLIB` of a
    /// library is one of them.
    pub fn dylibs(&self) -> Dylibs<'a>
        ensures { result ≡ map (dylib_at self.now) (libraries self.now (commands_of self.now)) }
    {
        Dylibs {
            image: self.bytes(),
            commands: self.commands_with_libraries(),
        }
    }

    /// What the image is as a library, by its `LC_ID_DYLIB`, or `None` if it has none.
    pub fn id(&self) -> Option<Dylib<'a>>
        ensures { option_map dylib_of result ≡ option_map (dylib_at self.now)
            (first_with_cmd self.now LC_ID_DYLIB (commands_of self.now)) }
    {
        let place = self.place_of(LC_ID_DYLIB)?;
        Some(dylib_from(self.bytes(), place))
    }
}

// The next command that names a library. The commands before it are skipped.
fn next_library<'a>(commands: &mut Commands<'a>) -> Option<Command<'a>>
    ensures { YieldsFirstBy command_of libraries_left commands.old result commands.new }
{
    while let Some(command) = commands.next() {
        if names_library(command.cmd) {
            return Some(command);
        }
    }
    None
}

// The `dylib_command` at `place`.
fn dylib_from(image: Bytes, place: u64) -> Dylib
    requires { HoldsLibrary (bytes_of image) place }
    ensures { dylib_of result ≡ dylib_at (bytes_of image.entry) place }
{
    Dylib {
        place,
        cmd: word_at(image, place),
        name: name_of(image, place),
        current: word_in(image, place, CURRENT_VERSION),
        compatible: word_in(image, place, COMPATIBILITY_VERSION),
    }
}
