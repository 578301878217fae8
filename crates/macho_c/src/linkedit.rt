//! The data that load commands name.

ghost use Rattle.macho_rows.specs.Linkedit.{HasData};
ghost use Rattle.macho_rows.specs.Image.{image_in};
ghost use Rattle.macho_rows.specs.Rows.{IsOfImage};
ghost use Rattle.macho_rows.specs.Spans.{span_at};
ghost use Rattle.macho_c.specs.Status.{Answers, Tells};

use crate::status::answer;
use macho_rows::image::KesvuotImage;
use macho_rows::linkedit::data_of;
use macho_rows::span::{KesvuotSpan, NO_SPAN};

/// Writes where the data lies in the file that the first `linkedit_data_command` with this `cmd` names.
/// The status is `OK`, or `NONE` if the image has none.
#[unsafe(no_mangle)]
pub extern "C" fn kesvuot_find_data(
    file: &[u8],
    image: &KesvuotImage,
    cmd: u32,
    span: &mut KesvuotSpan,
) -> u32
    ensures { Tells (IsOfImage (image_in file.now image.now)
        (HasData (image_in file.now image.now) image.now.slice.offset cmd)) (Answers (span_at 0 0) result span.new) }
{
    answer(data_of(&image.held(file), cmd), NO_SPAN, span)
}
