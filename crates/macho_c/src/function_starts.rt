//! The functions of an image. (`mach-o/loader.h`: `LC_FUNCTION_STARTS`)

ghost use Rattle.std.specs.Prelude.{◌≡◌};
ghost use Rattle.macho_fields.specs.Bytes.{bytes_of};
ghost use Rattle.macho_rows.specs.Cursor.{start, begun, IsBatch};
ghost use Rattle.macho_c.specs.FunctionStarts.{first_start, starts_left, HasAllStarts};
ghost use Rattle.macho_rows.specs.Image.{image_in, ShowsUnbroken};

use macho_fields::header::loader::LC_FUNCTION_STARTS;
use macho_fields::{Bytes, Span};
use macho_rows::cursor::{KesvuotCursor, START};
use macho_rows::image::{HAS_BASE, KesvuotImage};
use macho_rows::linkedit::named_data;
use macho_rows::parts::part_or_none;
use macho_rows::table::{Table, fill};
use macho_tables::function_starts::next_start;

/// Writes the addresses of functions from the cursor on to the rows of the table, until either runs out,
/// moves the cursor past them, and returns how many it wrote. Later rows are unchanged. They are from the
/// first `LC_FUNCTION_STARTS`: none if the image has no base. Only the first batch looks for the command.
#[unsafe(no_mangle)]
pub extern "C" fn kesvuot_read_function_starts(
    file: &[u8],
    image: &KesvuotImage,
    cursor: &mut KesvuotCursor,
    rows: &mut [u64],
) -> usize
    ensures rows { IsBatch (starts_left (image_in file.now image.now) image.now) cursor.old cursor.new
        result rows.old rows.new }
    ensures all { ShowsUnbroken file.now image.now
        → HasAllStarts (image_in file.now image.now)
        (starts_left (image_in file.now image.now) image.now start) }
{
    let starts = FunctionStarts {
        bytes: image.held(file).bytes,
        image,
    };
    fill(&starts, cursor, rows)
}

// The functions of an image, with its base by the numbers of its struct.
#[derive(Clone, Copy)]
struct FunctionStarts<'a> {
    bytes: Bytes<'a>,
    image: &'a KesvuotImage,
}

impl<'a> FunctionStarts<'a> {
    // Where the table is read on. The cursor has the place of the next number in the image, the size of the
    // data from there on, and the address that the number counts from.
    fn begun(&self, cursor: &KesvuotCursor) -> KesvuotCursor
        ensures { result ≡ begun (first_start (bytes_of self.now.bytes) self.now.image.now) cursor.now }
    {
        if cursor.place != 0 {
            return *cursor;
        }
        if self.image.has & HAS_BASE == 0 {
            return START;
        }
        let data = named_data(self.bytes, LC_FUNCTION_STARTS);
        KesvuotCursor {
            place: data.start,
            commands: 0,
            segment: self.image.base,
            items: data.len,
        }
    }
}

impl<'a> Table for FunctionStarts<'a> {
    ghost use Rattle.macho_fields.specs.Bytes.{bytes_of};
    ghost use Rattle.macho_c.specs.FunctionStarts.{starts_left};

    type Row = u64;

    ghost left = { λ t. starts_left (bytes_of t.bytes) t.image.now };

    fn next(&self, cursor: &mut KesvuotCursor) -> Option<u64> {
        let at = self.begun(cursor);
        let data = Span {
            start: at.place,
            len: at.items,
        };
        let data = part_or_none(self.bytes, data);
        let (start, size) = next_start(Bytes::new(data), at.segment)?;
        prove!(self.bytes.len() <= u64::MAX);
        cursor.place = at.place + size;
        cursor.items = at.items - size;
        cursor.segment = start;
        Some(start)
    }
}
