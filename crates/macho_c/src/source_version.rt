//! The version of the sources that an image was built from.

ghost use Rattle.std.specs.Prelude.{◌≡◌, None, filter};
ghost use Rattle.macho_fields.specs.Image.{commands_of};
ghost use Rattle.macho_rows.specs.Cursor.{start};
ghost use Rattle.macho_rows.specs.Image.{image_in};
ghost use Rattle.macho_rows.specs.Loads.{is_source_version, wanted_left};
ghost use Rattle.macho_rows.specs.Rows.{HasUnbrokenHeaders};
ghost use Rattle.macho_c.specs.SourceVersion.{IsAnswer};
ghost use Rattle.macho_rows.specs.declared.load.Wanted.TheVariants.{SourceVersions};

use crate::status::{NONE, OK};
use macho_fields::Order;
use macho_rows::image::KesvuotImage;
use macho_rows::load::{Wanted, first_wanted};

/// Writes the version of the sources, by the first `LC_SOURCE_VERSION` that holds its structure. The
/// status is `OK`, or `NONE` if the image has none. (`source_version_command`)
#[unsafe(no_mangle)]
pub extern "C" fn kesvuot_find_source_version(
    file: &[u8],
    image: &KesvuotImage,
    version: &mut u64,
) -> u32
    ensures answer { IsAnswer (image_in file.now image.now) result version.new }
    ensures all { HasUnbrokenHeaders (image_in file.now image.now) None
        → wanted_left SourceVersions (image_in file.now image.now) start
        ≡ filter (is_source_version (image_in file.now image.now)) (commands_of (image_in file.now image.now)) }
{
    let bytes = image.held(file).bytes;
    match first_wanted(bytes, Wanted::SourceVersions) {
        Some(load) => {
            *version = bytes.read_u64(Order::Little, load.place + VERSION);
            OK
        }
        None => {
            *version = 0;
            NONE
        }
    }
}

// The offset of `version` in `source_version_command`.
const VERSION: u64 = 8;
