//! The platforms that an image is built for. (`mach-o/loader.h`: `build_version_command`)

ghost use Rattle.std.specs.Prelude.{◌≡◌, ◌+◌, ◌≤◌, length, map};
ghost use Rattle.std.specs.Iterator.{YieldsFirst, item_count};
ghost use Rattle.macho_fields.specs.Bytes.{bytes_of};
ghost use Rattle.macho_fields.specs.Image.{commands_of, with_cmd};
ghost use Rattle.macho_fields.specs.LoadCommands.{structure_size};
ghost use Rattle.macho_fields.specs.declared.load_command.Structure.TheVariants.{BuildVersionCommand};
ghost use Rattle.macho_image.specs.Build.{build_at};

use crate::command::{Commands, word_in};
use crate::image::Image;
use macho_fields::Bytes;
use macho_fields::header::loader::LC_BUILD_VERSION;
use macho_fields::header::loader::build_version_command::{MINOS, PLATFORM, SDK};
use std::marker::Model;

/// An `LC_BUILD_VERSION` command: a platform and its versions. (`build_version_command`)
///
/// A version is X.Y.Z in the form `xxxx.yy.zz`, 16, 8 and 8 bits.
#[derive(Clone, Copy, Debug, PartialEq, Eq)]
pub struct Build {
    /// Where its command begins in the image.
    pub place: u64,
    /// The platform: one of the `PLATFORM_` numbers, or any other.
    pub platform: u32,
    /// The least version of the platform that the image runs on.
    pub minos: u32,
    /// The version of the SDK that the image is built with.
    pub sdk: u32,
}

/// The builds of an image that remain, in the order of the commands.
#[derive(Drop)]
pub struct Builds<'a> {
    image: Bytes<'a>,
    commands: Commands<'a>,
}

impl<'a> Model for Builds<'a> {
    ghost use Rattle.std.specs.Prelude.{List};
    ghost use Rattle.macho_fields.specs.Bytes.{bytes_of};
    ghost use Rattle.macho_image.specs.declared.build.Build.{Build};
    ghost use Rattle.macho_image.specs.Build.{builds_left};
    ghost use Rattle.macho_image.specs.Views.{HoldBuilds};

    ghost Value = { List Build };

    ghost view = { λ builds. builds_left (bytes_of builds.image) builds.commands };

    ghost invariant = { λ builds. HoldBuilds (bytes_of builds.image) builds.commands };
}

impl<'a> Iterator for Builds<'a> {
    type Item = Build;

    ghost next_gives = { YieldsFirst (λ left. left) };

    ghost remaining = { item_count (λ left. left) };

    fn next(&mut self) -> Option<Build> {
        let command = self.commands.next_with_cmd(LC_BUILD_VERSION)?;
        Some(build_from(self.image, command.place))
    }
}

impl<'a> Image<'a> {
    /// The `LC_BUILD_VERSION` commands, in the order of the commands.
    pub fn builds(&self) -> Builds<'a>
        ensures { result ≡ map (build_at self.now)
            (with_cmd self.now LC_BUILD_VERSION (commands_of self.now)) }
    {
        Builds {
            image: self.bytes(),
            commands: self.commands_with_builds(),
        }
    }
}

// The `build_version_command` at `place`.
fn build_from(image: Bytes, place: u64) -> Build
    requires { place + structure_size BuildVersionCommand ≤ length (bytes_of image) }
    ensures { result ≡ build_at (bytes_of image.entry) place }
{
    Build {
        place,
        platform: word_in(image, place, PLATFORM),
        minos: word_in(image, place, MINOS),
        sdk: word_in(image, place, SDK),
    }
}
