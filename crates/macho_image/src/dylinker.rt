//! The dynamic linker that an image asks for. (`mach-o/loader.h`: `dylinker_command`)

ghost use Rattle.std.specs.Prelude.{◌≡◌};
ghost use Rattle.std.specs.Option.{option_map};
ghost use Rattle.macho_fields.specs.Image.{commands_of};
ghost use Rattle.macho_image.specs.Command.{command_name, first_with_cmd};

use crate::command::name_of;
use crate::image::Image;
use macho_fields::header::loader::LC_LOAD_DYLINKER;

impl<'a> Image<'a> {
    /// The path of the dynamic linker: the name of the first `LC_LOAD_DYLINKER`, borrowed from the
    /// image, without the zero byte that ends it. `None` if the image has no such command. It may
    /// have several: no rule forbids that.
    pub fn dylinker(&self) -> Option<&'a [u8]>
        ensures { option_map (λ path. path.now) result ≡ option_map (command_name self.now)
            (first_with_cmd self.now LC_LOAD_DYLINKER (commands_of self.now)) }
    {
        let command = self.first_command(LC_LOAD_DYLINKER)?;
        Some(name_of(self.bytes(), command.place))
    }
}
