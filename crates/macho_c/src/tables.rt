//! The tables of an image, each read in batches, and those that load commands bound. (`mach-o/loader.h`)

ghost use Rattle.macho_fields.specs.Layers.{NothingBreaks};
ghost use Rattle.macho_fields.specs.Rules.{BreaksImage};
ghost use Rattle.macho_fields.specs.Bytes.{bytes_of};
ghost use Rattle.macho_rows.specs.Builds.{builds_left, all_builds};
ghost use Rattle.macho_rows.specs.Commands.{command_rows_left, all_commands};
ghost use Rattle.macho_rows.specs.Cursor.{start, IsBatch};
ghost use Rattle.macho_rows.specs.Image.{image_in, ShowsUnbroken};
ghost use Rattle.macho_rows.specs.Libraries.{libraries_left, all_libraries};
ghost use Rattle.macho_rows.specs.Rows.{HasUnbrokenHeaders};
ghost use Rattle.macho_rows.specs.Sections.{sections_left, all_sections};
ghost use Rattle.macho_rows.specs.Segments.{segments_left, all_segments};
ghost use Rattle.macho_rows.specs.Spans.{span_at};
ghost use Rattle.macho_rows.specs.Symbols.{indirects_left, HasAllIndirects};
ghost use Rattle.macho_c.specs.Status.{Answers, Tells};
ghost use Rattle.macho_c.specs.Tables.{found_numbered, table_numbered, IsWholeNumbered};
ghost use Rattle.std.specs.Prelude.{◌≡◌, None};

use crate::status::answer;
use macho_rows::bounded_tables::{BoundedTable, found_table};
use macho_rows::builds::{Builds, KesvuotBuild};
use macho_rows::commands::{Commands, KesvuotCommand};
use macho_rows::cursor::KesvuotCursor;
use macho_rows::image::KesvuotImage;
use macho_rows::indirects::IndirectTable;
use macho_rows::libraries::{KesvuotLibrary, Libraries};
use macho_rows::sections::{KesvuotSection, Sections};
use macho_rows::segments::{KesvuotSegment, Segments};
use macho_rows::span::{Held, KesvuotSpan, NO_SPAN};
use macho_rows::table::fill;

/// Writes the load commands from the cursor on to the rows of the table, until either runs out, moves
/// the cursor past them, and returns how many it wrote. Later rows are unchanged.
#[unsafe(no_mangle)]
pub extern "C" fn kesvuot_read_commands(
    file: &[u8],
    image: &KesvuotImage,
    cursor: &mut KesvuotCursor,
    rows: &mut [KesvuotCommand],
) -> usize
    ensures rows { IsBatch (command_rows_left image.now.slice.offset (image_in file.now image.now))
        cursor.old cursor.new result rows.old rows.new }
    ensures all { HasUnbrokenHeaders (image_in file.now image.now) None
        → command_rows_left image.now.slice.offset (image_in file.now image.now) start
        ≡ all_commands image.now.slice.offset (image_in file.now image.now) }
{
    let commands = Commands {
        image: image.held(file),
    };
    fill(&commands, cursor, rows)
}

/// Writes the segments from the cursor on to the rows of the table, until either runs out, moves the
/// cursor past them, and returns how many it wrote. Later rows are unchanged.
#[unsafe(no_mangle)]
pub extern "C" fn kesvuot_read_segments(
    file: &[u8],
    image: &KesvuotImage,
    cursor: &mut KesvuotCursor,
    rows: &mut [KesvuotSegment],
) -> usize
    ensures rows { IsBatch (segments_left image.now.slice.offset (image_in file.now image.now))
        cursor.old cursor.new result rows.old rows.new }
    ensures all { HasUnbrokenHeaders (image_in file.now image.now) None
        → segments_left image.now.slice.offset (image_in file.now image.now) start
        ≡ all_segments image.now.slice.offset (image_in file.now image.now) }
{
    let segments = Segments {
        image: image.held(file),
    };
    fill(&segments, cursor, rows)
}

/// Writes the sections from the cursor on to the rows of the table, until either runs out, moves the
/// cursor past them, and returns how many it wrote. Later rows are unchanged.
#[unsafe(no_mangle)]
pub extern "C" fn kesvuot_read_sections(
    file: &[u8],
    image: &KesvuotImage,
    cursor: &mut KesvuotCursor,
    rows: &mut [KesvuotSection],
) -> usize
    ensures rows { IsBatch (sections_left image.now.slice.offset (image_in file.now image.now))
        cursor.old cursor.new result rows.old rows.new }
    ensures all { HasUnbrokenHeaders (image_in file.now image.now) None
        → sections_left image.now.slice.offset (image_in file.now image.now) start
        ≡ all_sections image.now.slice.offset (image_in file.now image.now) }
{
    let sections = Sections {
        image: image.held(file),
    };
    fill(&sections, cursor, rows)
}

/// Writes the libraries that the image loads from the cursor on to the rows of the table, until either
/// runs out, moves the cursor past them, and returns how many it wrote. Later rows are unchanged.
#[unsafe(no_mangle)]
pub extern "C" fn kesvuot_read_libraries(
    file: &[u8],
    image: &KesvuotImage,
    cursor: &mut KesvuotCursor,
    rows: &mut [KesvuotLibrary],
) -> usize
    ensures rows { IsBatch (libraries_left image.now.slice.offset (image_in file.now image.now))
        cursor.old cursor.new result rows.old rows.new }
    ensures all { HasUnbrokenHeaders (image_in file.now image.now) None
        → libraries_left image.now.slice.offset (image_in file.now image.now) start
        ≡ all_libraries image.now.slice.offset (image_in file.now image.now) }
{
    let libraries = Libraries {
        image: image.held(file),
    };
    fill(&libraries, cursor, rows)
}

/// Writes the builds from the cursor on to the rows of the table, until either runs out, moves the
/// cursor past them, and returns how many it wrote. Later rows are unchanged.
#[unsafe(no_mangle)]
pub extern "C" fn kesvuot_read_builds(
    file: &[u8],
    image: &KesvuotImage,
    cursor: &mut KesvuotCursor,
    rows: &mut [KesvuotBuild],
) -> usize
    ensures rows { IsBatch (builds_left (image_in file.now image.now)) cursor.old cursor.new result
        rows.old rows.new }
    ensures all { HasUnbrokenHeaders (image_in file.now image.now) None
        → builds_left (image_in file.now image.now) start ≡ all_builds (image_in file.now image.now) }
{
    let builds = Builds {
        image: image.held(file).bytes,
    };
    fill(&builds, cursor, rows)
}

/// Writes the indirect entries from the cursor on to the rows of the table, until either runs out, moves
/// the cursor past them, and returns how many it wrote. Later rows are unchanged. It does not scan the
/// entries before them.
#[unsafe(no_mangle)]
pub extern "C" fn kesvuot_read_indirects(
    file: &[u8],
    image: &KesvuotImage,
    cursor: &mut KesvuotCursor,
    rows: &mut [u32],
) -> usize
    ensures rows { IsBatch (indirects_left (image_in file.now image.now) image.now) cursor.old cursor.new
        result rows.old rows.new }
    ensures all { ShowsUnbroken file.now image.now
        → HasAllIndirects (image_in file.now image.now)
        (indirects_left (image_in file.now image.now) image.now start) }
{
    let indirects = IndirectTable {
        bytes: image.held(file).bytes,
        image,
    };
    fill(&indirects, cursor, rows)
}

/// Writes where a table of an image lies in the file, by the number that `kesvuot.h` gives it and the
/// first command that bounds it. The status is `OK`, or `NONE` if the image has no such command.
#[unsafe(no_mangle)]
pub extern "C" fn kesvuot_find_table(
    file: &[u8],
    image: &KesvuotImage,
    table: u32,
    bytes: &mut KesvuotSpan,
) -> u32
    ensures answer { Answers (span_at 0 0) result bytes.new
        (found_numbered image.now.slice.offset (image_in file.now image.now) table) }
    ensures whole { NothingBreaks (BreaksImage (image_in file.now image.now) None)
        → Tells (IsWholeNumbered (image_in file.now image.now) image.now.slice.offset table)
        (Answers (span_at 0 0) result bytes.new) }
{
    answer(found_numbered(&image.held(file), table), NO_SPAN, bytes)
}

// Where the table with this number lies in the file.
fn found_numbered(image: &Held, number: u32) -> Option<KesvuotSpan>
    ensures { result ≡ found_numbered image.now.place (bytes_of image.now.bytes) number }
{
    found_table(image, table_numbered(number)?)
}

// The table with this number. (`kesvuot.h`: `KESVUOT_TABLE_`)
fn table_numbered(number: u32) -> Option<BoundedTable>
    ensures { result ≡ table_numbered number }
{
    match number {
        1 => Some(BoundedTable::Symbols),
        2 => Some(BoundedTable::Strings),
        3 => Some(BoundedTable::Contents),
        4 => Some(BoundedTable::Modules),
        5 => Some(BoundedTable::References),
        6 => Some(BoundedTable::Indirects),
        7 => Some(BoundedTable::ExternalRelocations),
        8 => Some(BoundedTable::LocalRelocations),
        9 => Some(BoundedTable::Rebase),
        10 => Some(BoundedTable::Bind),
        11 => Some(BoundedTable::WeakBind),
        12 => Some(BoundedTable::LazyBind),
        13 => Some(BoundedTable::Export),
        14 => Some(BoundedTable::Encrypted),
        _ => None,
    }
}
