//! The thread of an image. (`mach-o/loader.h`: `thread_command`)

ghost use Rattle.macho_fields.specs.Bytes.{bytes_of};
ghost use Rattle.macho_rows.specs.Image.{image_in};
ghost use Rattle.macho_c.specs.Threads.{IsThreadAnswer, IsThreadEntryOf};

use crate::status::answer;
use macho_commands::thread_entry;
use macho_rows::image::KesvuotImage;
use macho_rows::span::Held;

/// Writes the address at which the first `LC_THREAD` or `LC_UNIXTHREAD` of the image begins. The status is `OK`, or
/// `NONE` if the image has neither, if its registers are not known, or if the address has no byte of the file
/// that may be executed.
#[unsafe(no_mangle)]
pub extern "C" fn kesvuot_find_thread_entry(
    file: &[u8],
    image: &KesvuotImage,
    entry: &mut u64,
) -> u32
    ensures { IsThreadAnswer (image_in file.now image.now) result entry.new }
{
    answer(entry_of(&image.held(file)), 0, entry)
}

// The entry of the thread of an image.
fn entry_of(image: &Held) -> Option<u64>
    ensures { IsThreadEntryOf (bytes_of image.now.bytes) result }
{
    match image.open() {
        Some(opened) => thread_entry(&opened),
        None => None,
    }
}
