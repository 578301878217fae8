//! What is at the addresses of an image.

ghost use Rattle.std.specs.Prelude.{None};
ghost use Rattle.macho_fields.specs.Layers.{NothingBreaks};
ghost use Rattle.macho_fields.specs.Rules.{BreaksImage};
ghost use Rattle.macho_rows.specs.Address.{HasSource, IsSourceAt};
ghost use Rattle.macho_rows.specs.Image.{image_in};
ghost use Rattle.macho_rows.specs.Rows.{IsOfImage};
ghost use Rattle.macho_c.specs.Status.{AnswersSource, Tells};

use crate::status::answer_source;
use macho_rows::address::source_at;
use macho_rows::image::KesvuotImage;
use macho_rows::span::KesvuotSpan;

/// Writes where the bytes from the address on lie in the file, up to the last that the same segment has
/// there. The status is `OK`; `ZERO` if there is a zero that is not a byte of the file; or `NONE` if no
/// segment has the address.
#[unsafe(no_mangle)]
pub extern "C" fn kesvuot_find_address(
    file: &[u8],
    image: &KesvuotImage,
    address: u64,
    bytes: &mut KesvuotSpan,
) -> u32
    ensures answer { Tells (IsOfImage (image_in file.now image.now)
        (HasSource (image_in file.now image.now) image.now.slice.offset address)) (AnswersSource result bytes.new) }
    ensures source { NothingBreaks (BreaksImage (image_in file.now image.now) None)
        → Tells (IsSourceAt (image_in file.now image.now) image.now.slice.offset address)
        (AnswersSource result bytes.new) }
{
    answer_source(source_at(&image.held(file), address), bytes)
}
