//! The export trie of an image. (`mach-o/loader.h`: `LC_DYLD_EXPORTS_TRIE`, `dyld_info_command`)

ghost use Rattle.std.specs.Prelude.{◌≡◌, ◌≤◌, ◌<◌, None, length, IfSome};
ghost use Rattle.macho_fields.specs.Bytes.{bytes_of};
ghost use Rattle.macho_fields.specs.Layers.{NothingBreaks};
ghost use Rattle.macho_fields.specs.Rules.{BreaksImage};
ghost use Rattle.macho_spans.specs.Span.{end_of};
ghost use Rattle.macho_exports.specs.Exports.{export_table as export_table_of};
ghost use Rattle.macho_c.specs.ExportTrie.{IsTrie, IsTrieAnswer, IsWholeTrie};
ghost use Rattle.macho_rows.specs.Image.{image_in, ShowsUnbroken};

use crate::status::{NONE, OK};
use macho_exports::exports::export_table;
use macho_fields::Span;
use macho_rows::image::KesvuotImage;
use macho_rows::span::{Held, KesvuotSpan, NO_SPAN};

/// Writes where the export trie of an image lies in the file: the table that the linked profile judges. The
/// status is `OK`, or `NONE` if the image has none.
#[unsafe(no_mangle)]
pub extern "C" fn kesvuot_find_export_trie(
    file: &[u8],
    image: &KesvuotImage,
    trie: &mut KesvuotSpan,
) -> u32
    ensures answer { IsTrieAnswer (image_in file.now image.now) image.now.slice.offset result trie.new }
    ensures all { ShowsUnbroken file.now image.now
        → IsWholeTrie (image_in file.now image.now) image.now.slice.offset result trie.new }
{
    let held = image.held(file);
    match export_trie(&held) {
        Some(table) => {
            *trie = KesvuotSpan {
                offset: held.place + table.start,
                size: table.len,
            };
            OK
        }
        None => {
            *trie = NO_SPAN;
            NONE
        }
    }
}

// Where the export trie lies in an image. It is `None` if the image has none, if its headers break a rule, and
// if the trie ends past the image.
pub(crate) fn export_trie(image: &Held) -> Option<Span>
    ensures trie { IsTrie (bytes_of image.now.bytes) result }
    ensures inside { IfSome result (λ table. end_of table ≤ length (bytes_of image.now.bytes)) }
    ensures all { NothingBreaks (BreaksImage (bytes_of image.now.bytes) None)
        → result ≡ export_table_of (bytes_of image.now.bytes) }
{
    let table = export_table(&image.open()?)?;
    if image.bytes.contains(table) {
        Some(table)
    } else {
        None
    }
}
