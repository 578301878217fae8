//! Bytes of a file, by their place in it.

ghost use Rattle.std.specs.Prelude.{◌≡◌, ◌≢◌, ◌+◌, ◌^◌, ◌<◌, ◌≤◌, [], length, MatchOption, None};
ghost use Rattle.macho_fields.specs.Bytes.{bytes_of};
ghost use Rattle.macho_image.specs.Segment.{short_name};
ghost use Rattle.macho_rows.specs.Rows.{IsBrokenImage, HasUnbrokenHeaders};
ghost use Rattle.macho_rows.specs.Spans.{span_of, part_or_none};

use crate::parts::part_or_none;
use macho_fields::header::loader::SHORT_NAME_SIZE;
use macho_fields::{Bytes, Span};
use macho_image::Image;

/// Some bytes of a file: `size` bytes from `offset` on, counted from the start of the file. An
/// empty span is at 0.
#[repr(C)]
#[derive(Clone, Copy)]
pub struct KesvuotSpan {
    pub offset: u64,
    pub size: u64,
}

/// No bytes.
pub const NO_SPAN: KesvuotSpan = KesvuotSpan { offset: 0, size: 0 };

/// An image in a file: its bytes, and where they begin.
#[derive(Clone, Copy)]
pub struct Held<'a> {
    pub bytes: Bytes<'a>,
    pub place: u64,
    ghost fits: { place + length (bytes_of bytes) < 2 ^ 64 },
}

/// The image in the bytes of a file from a place on: none where they end past the file.
pub fn held_at(file: &[u8], place: u64, len: u64) -> Held
    ensures bytes { bytes_of result.bytes ≡ part_or_none place len file.now }
    ensures place { result.place ≡ place }
{
    let bytes = part_or_none(Bytes::new(file), Span { start: place, len });
    Held {
        bytes: Bytes::new(bytes),
        place,
    }
}

impl<'a> Held<'a> {
    /// The image in the bytes, or `None` where they break a rule of the headers.
    pub fn open(&self) -> Option<Image<'a>>
        ensures { MatchOption result (IsBrokenImage (bytes_of self.now.bytes) None)
            (λ image. HasUnbrokenHeaders (bytes_of self.now.bytes) None × (image ≡ bytes_of self.now.bytes)) }
    {
        Image::open(self.bytes, None).ok()
    }

    /// Where bytes of the image lie in the file, which begin at `start` in the image.
    pub fn span_of(&self, start: u64, bytes: &[u8]) -> KesvuotSpan
        requires { bytes.now ≢ [] → start < length (bytes_of self.now.bytes) }
        ensures { result ≡ span_of (self.now.place + start) bytes.now }
    {
        if bytes.is_empty() {
            return NO_SPAN;
        }
        KesvuotSpan {
            offset: self.place + start,
            size: bytes.len() as u64,
        }
    }

    /// Where the bytes at the places of a part lie in the file: nowhere where it ends past the image.
    pub fn part(&self, start: u64, len: u64) -> KesvuotSpan
        ensures { result ≡ span_of (self.now.place + start)
            (part_or_none start len (bytes_of self.now.bytes)) }
    {
        match self.bytes.part(Span { start, len }) {
            Some(bytes) => self.span_of(start, bytes),
            None => NO_SPAN,
        }
    }

    // Where the name in the 16 bytes from `start` on lies in the file. It ends before the first zero
    // byte, where there is one.
    pub(crate) fn short_name(&self, start: u64) -> KesvuotSpan
        requires { start + 16 ≤ length (bytes_of self.now.bytes) }
        ensures { result ≡ span_of (self.now.place + start) (short_name (bytes_of self.now.bytes) start) }
    {
        let whole = Span {
            start,
            len: SHORT_NAME_SIZE,
        };
        match self.bytes.string_in(whole) {
            Some(name) => self.span_of(start, name),
            None => self.span_of(start, self.bytes.read_part(whole)),
        }
    }
}
