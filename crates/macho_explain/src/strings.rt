//! The strings of a symbol table. (`mach-o/loader.h`: `symtab_command`)

ghost use Rattle.std.specs.Prelude.{◌≡◌};
ghost use Rattle.macho_fields.specs.Bytes.{bytes_of};
ghost use Rattle.macho_fields.specs.Field.{string_from};

use macho_fields::{Bytes, Span};

// The string at a place: the bytes up to the first zero byte, or all bytes if no byte is zero.
pub(crate) fn string_at(bytes: Bytes, place: u64) -> &[u8]
    ensures { result.now ≡ string_from place (bytes_of bytes.entry) }
{
    let start = place.min(bytes.len());
    let rest = Span {
        start,
        len: bytes.len() - start,
    };
    match bytes.string_in(rest) {
        Some(string) => string,
        None => bytes.read_part(rest),
    }
}
