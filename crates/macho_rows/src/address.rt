//! What is at the addresses of an image.

ghost use Rattle.std.specs.Prelude.{◌≡◌, None};
ghost use Rattle.macho_fields.specs.Bytes.{bytes_of};
ghost use Rattle.macho_fields.specs.Layers.{NothingBreaks};
ghost use Rattle.macho_fields.specs.Rules.{BreaksImage};
ghost use Rattle.macho_rows.specs.Address.{supplier, HasSource, IsSourceAt};
ghost use Rattle.macho_rows.specs.Address.{supplies as supplies_of};
ghost use Rattle.macho_rows.specs.Rows.{IsOfImage};
ghost use Rattle.macho_rows.specs.Segments.{segment_bytes};

use crate::parts::{part_or_none, rest};
use crate::span::{Held, KesvuotSpan};
use macho_image::{Image, Segment};

/// What a segment has at an address.
#[derive(Clone, Copy)]
pub enum Source {
    /// Its bytes in the file, from the one at the address on.
    Bytes(KesvuotSpan),
    /// A zero that is not a byte of the file.
    Zero,
}

/// What the first segment that has the address has there. It is `None` if no segment has it, or the headers of the
/// image break a rule.
pub fn source_at(held: &Held, address: u64) -> Option<Source>
    ensures source { IsOfImage (bytes_of held.now.bytes)
        (HasSource (bytes_of held.now.bytes) held.now.place address) result }
    ensures sound { NothingBreaks (BreaksImage (bytes_of held.now.bytes) None)
        → IsSourceAt (bytes_of held.now.bytes) held.now.place address result }
{
    match held.open() {
        Some(image) => source_in(held, &image, address),
        None => None,
    }
}

// The same in an opened image.
fn source_in(held: &Held, image: &Image, address: u64) -> Option<Source>
    requires { bytes_of held.now.bytes ≡ image.now }
    ensures { HasSource image.now held.now.place address result }
{
    let segment = segment_with(image, address)?;
    let past = address.saturating_sub(segment.vmaddr());
    let bytes = rest(bytes_of(&segment), past);
    if bytes.is_empty() {
        return Some(Source::Zero);
    }
    Some(Source::Bytes(held.span_of(segment.fileoff() + past, bytes)))
}

// The first segment that has the address.
fn segment_with<'a>(image: &Image<'a>, address: u64) -> Option<Segment<'a>>
    ensures { result ≡ supplier image.now address }
{
    for segment in image.segments() {
        if supplies(&segment, address) {
            return Some(segment);
        }
    }
    None
}

// Whether a segment has the address.
fn supplies(segment: &Segment, address: u64) -> bool
    ensures { result ≡ supplies_of address segment.now }
{
    let start = segment.vmaddr();
    start <= address && address - start < segment.vmsize()
}

// The bytes of a segment in the image.
fn bytes_of<'a>(segment: &Segment<'a>) -> &'a [u8]
    ensures { result.now ≡ segment_bytes segment.now.image segment.now.place }
{
    part_or_none(segment.image(), segment.file_part())
}
