//! The indirect entries of an image.

ghost use Rattle.macho_fields.specs.Bytes.{bytes_of};
ghost use Rattle.macho_rows.specs.Symbols.{indirects_left};

use crate::cursor::KesvuotCursor;
use crate::image::KesvuotImage;
use crate::table::Table;
use macho_fields::Bytes;
use macho_image::Indirects;

/// The indirect entries of an image, by the numbers of its struct.
#[derive(Clone, Copy)]
pub struct IndirectTable<'a> {
    pub bytes: Bytes<'a>,
    pub image: &'a KesvuotImage,
}

impl<'a> Table for IndirectTable<'a> {
    ghost use Rattle.macho_fields.specs.Bytes.{bytes_of};
    ghost use Rattle.macho_rows.specs.Symbols.{indirects_left};

    type Row = u32;

    ghost left = { λ t. indirects_left (bytes_of t.bytes) t.image.now };

    fn next(&self, cursor: &mut KesvuotCursor) -> Option<u32> {
        let entries = Indirects::in_table(
            self.bytes,
            self.image.indirects,
            self.image.indirect_count,
        );
        let entry = entries.range(cursor.items, 1).next()?;
        prove!(self.bytes.len() <= u64::MAX);
        cursor.items += 1;
        Some(entry.value)
    }
}
