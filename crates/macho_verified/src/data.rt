//! The bytes at places that an accepted image names.

ghost use Rattle.std.specs.Prelude.{◌≡◌, ◌≢◌, ◌≤◌, length};
ghost use Rattle.macho_fields.specs.Bytes.{bytes_of};
ghost use Rattle.macho_fields.specs.Field.{part};
ghost use Rattle.macho_spans.specs.Span.{end_of};

use macho_fields::{Bytes, Span};

// The bytes at the places of `span`, borrowed from the image. An empty span has none, wherever it is.
pub(crate) fn data_in<'a>(image: Bytes<'a>, span: Span) -> &'a [u8]
    requires { span.len ≢ 0 → end_of span ≤ length (bytes_of image) }
    ensures bytes { result.now ≡ part span.start span.len (bytes_of image.entry) }
    ensures whole { length result.now ≡ span.len }
{
    if span.len == 0 {
        return &[];
    }
    image.read_part(span)
}
