//! The load commands of an opened image, one after another. (`mach-o/loader.h`: `load_command`)

ghost use Rattle.std.specs.Prelude.{◌≡◌, ◌+◌, ◌≤◌, length};
ghost use Rattle.std.specs.Iterator.{YieldsFirstBy, item_count};
ghost use Rattle.macho_fields.specs.Bytes.{bytes_of};
ghost use Rattle.macho_fields.specs.Image.{word, long, commands_end, IsGood};
ghost use Rattle.macho_image.specs.Command.{command_of, command_at, command_name, left_with_cmd};
ghost use Rattle.macho_image.specs.Views.{HoldsName};

use macho_fields::header::loader::LC_STR_OFFSET;
use macho_fields::header::loader::load_command::CMDSIZE;
use macho_fields::{Bytes, Order, Span};
use std::marker::Model;

/// A load command. (`load_command`)
#[derive(Clone, Copy)]
pub struct Command<'a> {
    /// Where it begins in the image.
    pub place: u64,
    /// Which command it is: one of the `LC_` numbers, or any other.
    pub cmd: u32,
    /// Its `cmdsize`: its size in bytes.
    pub size: u32,
    /// Its bytes, `cmd` and `cmdsize` included, borrowed from the image.
    pub bytes: &'a [u8],
}

/// The commands of an image that remain, in the order of the file.
#[derive(Drop)]
pub struct Commands<'a> {
    pub(crate) image: Bytes<'a>,
    pub(crate) place: u64,
    pub(crate) left: u32,
}

impl<'a> Model for Commands<'a> {
    ghost use Rattle.std.specs.Prelude.{List};
    ghost use Rattle.macho_fields.specs.Bytes.{bytes_of};
    ghost use Rattle.macho_image.specs.Command.{CommandView, commands_left};
    ghost use Rattle.macho_image.specs.Walk.{CanWalk};

    ghost Value = { List CommandView };

    ghost view = { λ walk. commands_left (bytes_of walk.image) walk.place walk.left };

    ghost invariant = { λ walk. CanWalk (bytes_of walk.image) walk.place walk.left };
}

impl<'a> Iterator for Commands<'a> {
    type Item = Command<'a>;

    ghost next_gives = { YieldsFirstBy command_of (λ left. left) };

    ghost remaining = { item_count (λ left. left) };

    fn next(&mut self) -> Option<Command<'a>> {
        if self.left == 0 {
            return None;
        }
        let command = command_from(self.image, self.place);
        self.place += u64::from(command.size);
        self.left -= 1;
        Some(command)
    }
}

impl<'a> Commands<'a> {
    // The next command whose `cmd` is `wanted`. The commands before it are skipped.
    pub(crate) fn next_with_cmd(&mut self, wanted: u32) -> Option<Command<'a>>
        ensures { YieldsFirstBy command_of (left_with_cmd wanted) self.old result self.new }
    {
        while let Some(command) = self.next() {
            if command.cmd == wanted {
                return Some(command);
            }
        }
        None
    }
}

// The command at `place`.
pub(crate) fn command_from(image: Bytes, place: u64) -> Command
    requires good { IsGood (bytes_of image) place }
    requires inside { commands_end (bytes_of image) ≤ length (bytes_of image) }
    ensures { command_of result ≡ command_at (bytes_of image.entry) place }
{
    let size = word_at(image, place + CMDSIZE);
    let span = Span {
        start: place,
        len: u64::from(size),
    };
    Command {
        place,
        cmd: word_at(image, place),
        size,
        bytes: image.read_part(span),
    }
}

// The 32-bit field at `place`.
pub(crate) fn word_at(bytes: Bytes, place: u64) -> u32
    requires { place + 4 ≤ length (bytes_of bytes) }
    ensures { result ≡ word (bytes_of bytes.entry) place }
{
    bytes.read_u32(Order::Little, place)
}

// The 64-bit field at `place`.
pub(crate) fn long_at(bytes: Bytes, place: u64) -> u64
    requires { place + 8 ≤ length (bytes_of bytes) }
    ensures { result ≡ long (bytes_of bytes.entry) place }
{
    bytes.read_u64(Order::Little, place)
}

// The 32-bit field at `offset` in the structure that begins at `structure`.
pub(crate) fn word_in(image: Bytes, structure: u64, offset: u64) -> u32
    requires { structure + offset + 4 ≤ length (bytes_of image) }
    ensures { result ≡ word (bytes_of image.entry) (structure + offset) }
{
    word_at(image, structure + offset)
}

// The 64-bit field at `offset` in the structure that begins at `structure`.
pub(crate) fn long_in(image: Bytes, structure: u64, offset: u64) -> u64
    requires { structure + offset + 8 ≤ length (bytes_of image) }
    ensures { result ≡ long (bytes_of image.entry) (structure + offset) }
{
    long_at(image, structure + offset)
}

// The name of the command at `place`, without the zero byte that ends it.
pub(crate) fn name_of(image: Bytes, place: u64) -> &[u8]
    requires { HoldsName (bytes_of image) place }
    ensures { result.now ≡ command_name (bytes_of image.entry) place }
{
    let start = place + u64::from(word_in(image, place, LC_STR_OFFSET));
    let rest = Span {
        start,
        len: image.len() - start,
    };
    image.read_string(rest)
}
