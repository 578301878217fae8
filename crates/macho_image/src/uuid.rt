//! The UUID of a build. (`mach-o/loader.h`: `uuid_command`)

ghost use Rattle.std.specs.Prelude.{◌≡◌, ◌+◌, ◌≤◌, length};
ghost use Rattle.std.specs.Option.{option_map};
ghost use Rattle.macho_fields.specs.Bytes.{bytes_of};
ghost use Rattle.macho_fields.specs.Image.{commands_of};
ghost use Rattle.macho_fields.specs.LoadCommands.{structure_size};
ghost use Rattle.macho_fields.specs.declared.load_command.Structure.TheVariants.{UuidCommand};
ghost use Rattle.macho_image.specs.Command.{first_with_cmd};
ghost use Rattle.macho_image.specs.Single.{uuid_at};

use crate::image::Image;
use macho_fields::header::loader::LC_UUID;
use macho_fields::{Bytes, Span};

impl<'a> Image<'a> {
    /// The 16 bytes of the UUID of the build, or `None` if the image has no `LC_UUID`.
    /// (`uuid_command`)
    pub fn uuid(&self) -> Option<[u8; 16]>
        ensures { result ≡ option_map (uuid_at self.now)
            (first_with_cmd self.now LC_UUID (commands_of self.now)) }
    {
        let place = self.place_of(LC_UUID)?;
        Some(uuid_from(self.bytes(), place))
    }
}

// The offset of the field `uuid` in `uuid_command`, and its size in bytes.
const UUID: u64 = 8;

const UUID_SIZE: u64 = 16;

// The UUID of the `uuid_command` at `place`.
fn uuid_from(image: Bytes, place: u64) -> [u8; 16]
    requires { place + structure_size UuidCommand ≤ length (bytes_of image) }
    ensures { result ≡ uuid_at (bytes_of image.entry) place }
{
    let uuid = Span {
        start: place + UUID,
        len: UUID_SIZE,
    };
    <[u8; 16]>::try_from(image.read_part(uuid)).unwrap()
}
