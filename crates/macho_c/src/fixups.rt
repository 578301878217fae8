//! The pointers of an image that a loader writes, and what they import. (`mach-o/loader.h`: `dyld_info_command`,
//! `LC_DYLD_CHAINED_FIXUPS`)

ghost use Rattle.std.specs.Prelude.{◌≡◌};
ghost use Rattle.macho_fixups.specs.Batch.{IsBatch};
ghost use Rattle.macho_fixups.specs.Fixups.{start, fixups_left, imports_left, all_fixups, all_imports};
ghost use Rattle.macho_rows.specs.Image.{image_in};

use macho_fixups::cursor::KesvuotFixupCursor;
use macho_fixups::fixups::{read_fixups, read_imports};
use macho_fixups::row::{KesvuotFixup, KesvuotImport};
use macho_rows::image::KesvuotImage;

/// Writes the pointers that a loader writes from the cursor on to the rows of the table, until either runs out, moves
/// the cursor past them, and returns how many it wrote. Later rows are unchanged.
#[unsafe(no_mangle)]
pub extern "C" fn kesvuot_read_fixups(
    file: &[u8],
    image: &KesvuotImage,
    cursor: &mut KesvuotFixupCursor,
    rows: &mut [KesvuotFixup],
) -> usize
    ensures rows { IsBatch (fixups_left image.now.base (image_in file.now image.now)) cursor.old cursor.new result
        rows.old rows.new }
    ensures all { fixups_left image.now.base (image_in file.now image.now) start
        ≡ all_fixups image.now.base (image_in file.now image.now) }
{
    read_fixups(&image.held(file), image.base, cursor, rows)
}

/// Writes what pointers are bound to from the cursor on to the rows of the table, until either runs out, moves the
/// cursor past them, and returns how many it wrote. Later rows are unchanged.
#[unsafe(no_mangle)]
pub extern "C" fn kesvuot_read_imports(
    file: &[u8],
    image: &KesvuotImage,
    cursor: &mut KesvuotFixupCursor,
    rows: &mut [KesvuotImport],
) -> usize
    ensures rows { IsBatch (imports_left image.now.slice.offset (image_in file.now image.now)) cursor.old cursor.new
        result rows.old rows.new }
    ensures all { imports_left image.now.slice.offset (image_in file.now image.now) start
        ≡ all_imports image.now.slice.offset (image_in file.now image.now) }
{
    read_imports(&image.held(file), cursor, rows)
}
