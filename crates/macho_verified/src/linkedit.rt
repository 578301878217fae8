//! The data that commands of an accepted image name. (`mach-o/loader.h`: `linkedit_data_command`)

ghost use Rattle.std.specs.Prelude.{◌≡◌, ◌↔◌, ◌+◌, ◌≤◌, Some, IsTrue, length, IsSome, IfSome, IsSomeAnd};
ghost use Rattle.macho_fields.specs.Bytes.{bytes_of};
ghost use Rattle.macho_fields.specs.Field.{part};
ghost use Rattle.macho_fields.specs.Image.{commands_of};
ghost use Rattle.macho_fields.specs.LoadCommands.{structure_of, structure_size};
ghost use Rattle.macho_fields.specs.declared.load_command.Structure.TheVariants.{LinkeditDataCommand};
ghost use Rattle.macho_image.specs.Command.{first_with_cmd};
ghost use Rattle.macho_verified.specs.Image.{dataoff, datasize};
ghost use Rattle.macho_verified.specs.Accepted.{HasData};

use crate::data::data_in;
use crate::image::VerifiedImage;
use macho_fields::header::loader::linkedit_data_command::{DATAOFF, DATASIZE};
use macho_fields::{Bytes, Order, Span, Structure, structure_of};

impl<'a> VerifiedImage<'a> {
    /// The data that the first command with this `cmd`, such as `LC_FUNCTION_STARTS`, names: the
    /// `datasize` bytes from `dataoff` on, borrowed from the image. `None` exactly if the list of
    /// load commands (`macho_fields::structure_of`) has no `linkedit_data_command` with this `cmd`,
    /// or the image has none. The image may have several, since no rule forbids that, and a loader
    /// may take another than the first.
    pub fn linkedit_data(&self, cmd: u32) -> Option<&'a [u8]>
        ensures held { IsSome result ↔ ((structure_of cmd ≡ Some Structure.LinkeditDataCommand)
            × IsSome (first_with_cmd self.now cmd (commands_of self.now))) }
        ensures bytes { IfSome result (λ bytes.
            IsSomeAnd (first_with_cmd self.now cmd (commands_of self.now)) (λ command.
            bytes.now ≡ part (dataoff self.now command) (datasize self.now command) self.now)) }
        ensures whole { IfSome result (λ bytes.
            IsSomeAnd (first_with_cmd self.now cmd (commands_of self.now)) (λ command.
            length bytes.now ≡ datasize self.now command)) }
    {
        if !names_linkedit_data(cmd) {
            return None;
        }
        let command = self.image.first_command(cmd)?;
        Some(data_at(self.image.bytes(), command.place))
    }
}

// Whether the list of load commands has a `linkedit_data_command` with this `cmd`.
fn names_linkedit_data(cmd: u32) -> bool
    ensures { IsTrue result ↔ (structure_of cmd ≡ Some LinkeditDataCommand) }
{
    structure_of(cmd) == Some(Structure::LinkeditDataCommand)
}

// The data that the `linkedit_data_command` at the place `command` names. With `datasize` 0 it is
// empty, wherever `dataoff` is.
fn data_at(image: Bytes, command: u64) -> &[u8]
    requires fields { command + structure_size LinkeditDataCommand ≤ length (bytes_of image) }
    requires data { HasData (bytes_of image) command }
    ensures bytes { result.now ≡ part (dataoff (bytes_of image.entry) command)
        (datasize (bytes_of image.entry) command) (bytes_of image.entry) }
    ensures whole { length result.now ≡ datasize (bytes_of image.entry) command }
{
    let data = Span {
        start: u64::from(image.read_u32(Order::Little, command + DATAOFF)),
        len: u64::from(image.read_u32(Order::Little, command + DATASIZE)),
    };
    data_in(image, data)
}
