//! The fields of tables of linked data, which are little-endian.

ghost use Rattle.std.specs.Prelude.{◌≡◌, ◌+◌, ◌≤◌, length};
ghost use Rattle.macho_fields.specs.Bytes.{bytes_of};
ghost use Rattle.macho_fields.specs.Image.{word};
ghost use Rattle.macho_tables.specs.Fields.{half};

use macho_fields::{Bytes, Order};

/// The field of 32 bits at an offset, which is inside.
pub fn word_at(table: Bytes, offset: u64) -> u32
    requires { offset + 4 ≤ length (bytes_of table) }
    ensures { result ≡ word (bytes_of table.entry) offset }
{
    table.read_u32(Order::Little, offset)
}

/// The field of 16 bits at an offset, which is inside.
pub fn half_at(table: Bytes, offset: u64) -> u16
    requires { offset + 2 ≤ length (bytes_of table) }
    ensures { result ≡ half (bytes_of table.entry) offset }
{
    table.read_u16(Order::Little, offset)
}
