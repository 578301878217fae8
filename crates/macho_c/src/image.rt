//! The image of a slice: what is there once, how many rows its tables have, and where they begin.

ghost use Rattle.std.specs.Prelude.{◌≡◌};
ghost use Rattle.macho_fields.specs.First.{IsUnbroken};
ghost use Rattle.macho_rows.specs.Image.{ShowsUnbroken};
ghost use Rattle.macho_c.specs.Images.{IsAnswer};
ghost use Rattle.macho_c.specs.Status.{KESVUOT_OK};

use crate::status::{NONE, OK, REFUSED, UNREAD};
use macho_fat::slice_at;
use macho_fields::Bytes;
use macho_rows::image::{KesvuotImage, SliceImage, no_image, read_slice};

/// Reads the image of the slice with this index, in a file that is accepted. The status is `OK`;
/// `UNREAD` if the image is of 32 bits or big-endian; `NONE` if no slice has the index; or
/// `REFUSED` if no accepted file has these bytes.
#[unsafe(no_mangle)]
pub extern "C" fn kesvuot_read_image(file: &[u8], slice: u64, image: &mut KesvuotImage) -> u32
    ensures answer { IsAnswer file.now slice result image.new }
    ensures unbroken { IsUnbroken file.now → (result ≡ KESVUOT_OK) → ShowsUnbroken file.now image.new }
{
    *image = no_image();
    let bytes = Bytes::new(file);
    match slice_at(bytes, slice) {
        Ok(Some(slice)) => match read_slice(bytes, &slice) {
            Some(SliceImage::Read(shown)) => {
                *image = shown;
                OK
            }
            Some(SliceImage::Unread(shown)) => {
                *image = shown;
                UNREAD
            }
            None => REFUSED,
        },
        Ok(None) => NONE,
        Err(_) => REFUSED,
    }
}
