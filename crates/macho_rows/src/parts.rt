//! Parts of bytes.

ghost use Rattle.std.specs.Prelude.{◌≡◌, drop};
ghost use Rattle.macho_fields.specs.Bytes.{bytes_of};
ghost use Rattle.std.specs.Option.{option_map};
ghost use Rattle.macho_rows.specs.Rows.{ended_string as ended_string_of, first_string as first_string_of};
ghost use Rattle.macho_rows.specs.Spans.{part_or_none};

use macho_fields::{Bytes, Span};

/// The bytes at the places of a span, or none where it ends past the image.
pub fn part_or_none(image: Bytes, span: Span) -> &[u8]
    ensures { result.now ≡ part_or_none span.start span.len (bytes_of image.entry) }
{
    match image.part(span) {
        Some(bytes) => bytes,
        None => &[],
    }
}

/// The bytes from an offset on, or none where it is past the end.
pub fn rest(bytes: &[u8], offset: u64) -> &[u8]
    ensures { result.now ≡ drop offset bytes.now }
{
    match bytes.get(offset as usize..) {
        Some(rest) => rest,
        None => &[],
    }
}

/// The bytes before the first zero byte, if some byte is zero.
pub fn first_string(bytes: &[u8]) -> Option<&[u8]>
    ensures { option_map (λ string. string.now) result ≡ first_string_of bytes.now }
{
    let all = Span {
        start: 0,
        len: bytes.len() as u64,
    };
    Bytes::new(bytes).string_in(all)
}

/// The bytes before the first zero byte, or none where no byte is zero.
pub fn ended_string(bytes: &[u8]) -> &[u8]
    ensures { result.now ≡ ended_string_of bytes.now }
{
    match first_string(bytes) {
        Some(string) => string,
        None => &[],
    }
}
