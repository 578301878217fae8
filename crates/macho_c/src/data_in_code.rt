//! The data in the code of an image. (`mach-o/loader.h`: `LC_DATA_IN_CODE`)

ghost use Rattle.std.specs.Prelude.{◌≡◌, ◌+◌, ◌≤◌, length};
ghost use Rattle.macho_fields.specs.Bytes.{bytes_of};
ghost use Rattle.macho_rows.specs.Cursor.{start, begun, IsBatch};
ghost use Rattle.macho_c.specs.DataInCode.{entry_row, first_entry, entries_left, HasAllEntries};
ghost use Rattle.macho_rows.specs.Image.{image_in, ShowsUnbroken};

use macho_fields::header::loader::{DATA_IN_CODE_ENTRY_SIZE, LC_DATA_IN_CODE};
use macho_rows::cursor::KesvuotCursor;
use macho_rows::image::KesvuotImage;
use macho_rows::linkedit::named_data;
use macho_rows::span::{Held, KesvuotSpan};
use macho_rows::table::{Table, fill};
use macho_tables::data_in_code::DataInCodeEntry;

/// Data in code. (`data_in_code_entry`)
#[repr(C)]
#[derive(Clone, Copy)]
pub struct KesvuotDataInCode {
    /// Where the data lies in the file: nowhere if it ends past the image.
    pub bytes: KesvuotSpan,
    /// Where it begins in the image.
    pub offset: u32,
    pub length: u16,
    pub kind: u16,
}

/// Writes the entries of the first `LC_DATA_IN_CODE` from the cursor on to the rows of the table, until either
/// runs out, moves the cursor past them, and returns how many it wrote. Later rows are unchanged. Only the
/// first batch looks for the command.
#[unsafe(no_mangle)]
pub extern "C" fn kesvuot_read_data_in_code(
    file: &[u8],
    image: &KesvuotImage,
    cursor: &mut KesvuotCursor,
    rows: &mut [KesvuotDataInCode],
) -> usize
    ensures rows { IsBatch (entries_left image.now.slice.offset (image_in file.now image.now)) cursor.old
        cursor.new result rows.old rows.new }
    ensures all { ShowsUnbroken file.now image.now
        → HasAllEntries image.now.slice.offset (image_in file.now image.now)
        (entries_left image.now.slice.offset (image_in file.now image.now) start) }
{
    let entries = DataInCode {
        image: image.held(file),
    };
    fill(&entries, cursor, rows)
}

// The data in the code of an image.
#[derive(Clone, Copy)]
struct DataInCode<'a> {
    image: Held<'a>,
}

impl<'a> DataInCode<'a> {
    // Where the table is read on. The cursor has the place of the next entry in the image, and how many
    // there are from there on.
    fn begun(&self, cursor: &KesvuotCursor) -> KesvuotCursor
        ensures { result ≡ begun (first_entry (bytes_of self.now.image.bytes)) cursor.now }
    {
        if cursor.place != 0 {
            return *cursor;
        }
        let data = named_data(self.image.bytes, LC_DATA_IN_CODE);
        KesvuotCursor {
            place: data.start,
            commands: 0,
            segment: 0,
            items: data.len / DATA_IN_CODE_ENTRY_SIZE,
        }
    }
}

impl<'a> Table for DataInCode<'a> {
    ghost use Rattle.macho_fields.specs.Bytes.{bytes_of};
    ghost use Rattle.macho_c.specs.DataInCode.{entries_left};

    type Row = KesvuotDataInCode;

    ghost left = { λ t. entries_left t.image.place (bytes_of t.image.bytes) };

    fn next(&self, cursor: &mut KesvuotCursor) -> Option<KesvuotDataInCode> {
        let at = self.begun(cursor);
        if at.items == 0 {
            return None;
        }
        if !self
            .image
            .bytes
            .contains_table(at.place, at.items, DATA_IN_CODE_ENTRY_SIZE)
        {
            return None;
        }
        cursor.place = at.place + DATA_IN_CODE_ENTRY_SIZE;
        cursor.items = at.items - 1;
        Some(row_of(&self.image, at.place))
    }
}

// The row of the entry at a place.
fn row_of(image: &Held, place: u64) -> KesvuotDataInCode
    requires { place + 8 ≤ length (bytes_of image.now.bytes) }
    ensures { result ≡ entry_row image.now.place (bytes_of image.now.bytes) place }
{
    let entry = DataInCodeEntry::read(image.bytes, place);
    KesvuotDataInCode {
        bytes: image.part(u64::from(entry.offset), u64::from(entry.length)),
        offset: entry.offset,
        length: entry.length,
        kind: entry.kind,
    }
}
