//! The segments of an accepted image, with their bytes. (`mach-o/loader.h`: `segment_command_64`)

use crate::data::data_in;
use crate::section::VerifiedSections;
use macho_fields::{Bytes, Span};
use macho_image::{Segment, Segments};
use std::marker::Model;

/// A segment of an accepted image.
#[derive(Drop)]
pub struct VerifiedSegment<'a> {
    segment: Segment<'a>,
}

impl<'a> Model for VerifiedSegment<'a> {
    ghost use Rattle.macho_image.specs.Segment.{SegmentView};
    ghost use Rattle.macho_verified.specs.Accepted.{IsVerifiedSegment};

    ghost Value = { SegmentView };

    ghost view = { λ verified. verified.segment };

    ghost invariant = { λ verified. IsVerifiedSegment verified.segment };
}

impl<'a> VerifiedSegment<'a> {
    ghost use Rattle.std.specs.Prelude.{◌≡◌, ◌↔◌, map, length, IsSome, IfSome};
    ghost use Rattle.macho_fields.specs.Field.{part};
    ghost use Rattle.macho_fields.specs.Segment.{fileoff, filesize};
    ghost use Rattle.macho_image.specs.Segment.{section_at, sections_with};
    ghost use Rattle.macho_verified.specs.Image.{HasBytesAt, bytes_in_segment};

    /// The segment, with the fields of its command.
    pub fn segment(&self) -> &Segment<'a>
        ensures { result.now ≡ self.now }
    {
        &self.segment
    }

    /// Its bytes, borrowed from the image: the `filesize` bytes from `fileoff` on.
    pub fn bytes(&self) -> &'a [u8]
        ensures bytes { result.now ≡ part (fileoff self.now.image self.now.place)
            (filesize self.now.image self.now.place) self.now.image }
        ensures whole { length result.now ≡ filesize self.now.image self.now.place }
    {
        data_in(self.segment.image(), self.segment.file_part())
    }

    /// Its bytes at `len` addresses from `address` on, borrowed from the image. `None` if the
    /// segment is not mapped, or if it has no byte of the file for one of the addresses. With `len`
    /// 0 the address must be in the file part of the segment, or at its end.
    pub fn bytes_at(&self, address: u64, len: u64) -> Option<&'a [u8]>
        ensures held { IsSome result ↔ HasBytesAt self.now.image address len self.now.place }
        ensures bytes { IfSome result (λ bytes.
            bytes.now ≡ bytes_in_segment self.now.image address len self.now.place) }
        ensures whole { IfSome result (λ bytes. length bytes.now ≡ len) }
    {
        if self.segment.vmsize() == 0 {
            return None;
        }
        let start = address.checked_sub(self.segment.vmaddr())?;
        Bytes::new(self.bytes()).part(Span { start, len })
    }

    /// Its sections, in the order of the file.
    pub fn sections(&self) -> VerifiedSections<'a>
        ensures { result ≡ map (section_at self.now.image)
            (sections_with self.now.image self.now.place) }
    {
        VerifiedSections {
            sections: self.segment.sections(),
        }
    }
}

/// The segments of an accepted image that remain, in the order of the commands.
#[derive(Drop)]
pub struct VerifiedSegments<'a> {
    pub(crate) segments: Segments<'a>,
}

impl<'a> Model for VerifiedSegments<'a> {
    ghost use Rattle.std.specs.Prelude.{List, All};
    ghost use Rattle.macho_image.specs.Segment.{SegmentView};
    ghost use Rattle.macho_verified.specs.Accepted.{IsVerifiedSegment};

    ghost Value = { List SegmentView };

    ghost view = { λ verified. verified.segments };

    ghost invariant = { λ verified. All IsVerifiedSegment verified.segments };
}

impl<'a> Iterator for VerifiedSegments<'a> {
    ghost use Rattle.std.specs.Iterator.{YieldsFirst, item_count};

    type Item = VerifiedSegment<'a>;

    ghost next_gives = { YieldsFirst (λ left. left) };

    ghost remaining = { item_count (λ left. left) };

    fn next(&mut self) -> Option<VerifiedSegment<'a>> {
        let segment = self.segments.next()?;
        Some(VerifiedSegment { segment })
    }
}
