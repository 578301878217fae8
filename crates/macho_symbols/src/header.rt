//! The flags of the header of an image. (`mach-o/loader.h`: `mach_header_64`)

ghost use Rattle.std.specs.Prelude.{◌↔◌, IsTrue};
ghost use Rattle.macho_symbols.specs.Header.{IsTwoLevel};

use macho_fields::Order;
use macho_fields::header::loader::MH_TWOLEVEL;
use macho_fields::header::loader::mach_header_64::FLAGS;
use macho_image::Image;

/// Whether the undefined symbols of the image name libraries.
pub fn is_two_level(image: &Image) -> bool
    ensures { IsTrue result ↔ IsTwoLevel image.now }
{
    image.bytes().read_u32(Order::Little, FLAGS) & MH_TWOLEVEL != 0
}
