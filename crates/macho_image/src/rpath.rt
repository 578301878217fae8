//! The run paths of an image, where the libraries that it names with `@rpath` are looked for.
//! (`mach-o/loader.h`: `rpath_command`)

ghost use Rattle.std.specs.Prelude.{◌≡◌};
ghost use Rattle.std.specs.Iterator.{YieldsFirstBy, item_count};
ghost use Rattle.macho_fields.specs.Image.{commands_of};
ghost use Rattle.macho_image.specs.Rpath.{rpaths_of};

use crate::command::{Commands, name_of};
use crate::image::Image;
use macho_fields::Bytes;
use macho_fields::header::loader::LC_RPATH;
use std::marker::Model;

/// The run paths of an image that remain, in the order of the commands.
#[derive(Drop)]
pub struct Rpaths<'a> {
    image: Bytes<'a>,
    commands: Commands<'a>,
}

impl<'a> Model for Rpaths<'a> {
    ghost use Rattle.std.specs.Prelude.{List, ℕ};
    ghost use Rattle.macho_fields.specs.Bytes.{bytes_of};
    ghost use Rattle.macho_fields.specs.declared.header.loader.TheConstants.{LC_RPATH};
    ghost use Rattle.macho_image.specs.Rpath.{rpaths_left};
    ghost use Rattle.macho_image.specs.Views.{HoldNames};

    ghost Value = { List (List ℕ) };

    ghost view = { λ rpaths. rpaths_left (bytes_of rpaths.image) rpaths.commands };

    ghost invariant = { λ rpaths. HoldNames (bytes_of rpaths.image) LC_RPATH rpaths.commands };
}

impl<'a> Iterator for Rpaths<'a> {
    type Item = &'a [u8];

    ghost next_gives = { YieldsFirstBy (λ path. path.now) (λ left. left) };

    ghost remaining = { item_count (λ left. left) };

    fn next(&mut self) -> Option<&'a [u8]> {
        let command = self.commands.next_with_cmd(LC_RPATH)?;
        Some(name_of(self.image, command.place))
    }
}

impl<'a> Image<'a> {
    /// The run paths, from the `LC_RPATH` commands, in the order of the commands. Each is
    /// borrowed from the image, without the zero byte that ends it.
    pub fn rpaths(&self) -> Rpaths<'a>
        ensures { result ≡ rpaths_of self.now (commands_of self.now) }
    {
        Rpaths {
            image: self.bytes(),
            commands: self.commands(),
        }
    }
}
