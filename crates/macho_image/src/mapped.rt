//! The mapped segments of an opened image: those that have addresses. (`mach-o/loader.h`:
//! `segment_command_64`)

ghost use Rattle.std.specs.Prelude.{◌≡◌, map};
ghost use Rattle.std.specs.Iterator.{YieldsFirst, item_count};
ghost use Rattle.macho_image.specs.Mapped.{mapped_segments};
ghost use Rattle.macho_image.specs.Opened.{IsOpened};
ghost use Rattle.macho_image.specs.Segment.{segment_at};

use crate::image::Image;
use crate::segment::{Segment, Segments};
use std::marker::Model;

/// The mapped segments of an image that remain, in the order of the commands.
#[derive(Drop)]
pub struct MappedSegments<'a> {
    segments: Segments<'a>,
}

impl<'a> Model for MappedSegments<'a> {
    ghost use Rattle.std.specs.Prelude.{List};
    ghost use Rattle.macho_image.specs.Segment.{SegmentView};
    ghost use Rattle.macho_image.specs.Mapped.{mapped_among};

    ghost Value = { List SegmentView };

    ghost view = { λ mapped. mapped_among mapped.segments };
}

impl<'a> Iterator for MappedSegments<'a> {
    type Item = Segment<'a>;

    ghost next_gives = { YieldsFirst (λ left. left) };

    ghost remaining = { item_count (λ left. left) };

    fn next(&mut self) -> Option<Segment<'a>> {
        while let Some(segment) = self.segments.next() {
            if segment.vmsize() > 0 {
                return Some(segment);
            }
        }
        None
    }
}

impl<'a> Image<'a> {
    /// The mapped segments of the image, those whose `vmsize` is not 0, in the order of the commands.
    pub fn mapped_segments(&self) -> MappedSegments<'a>
        ensures segments { result ≡ map (segment_at self.now) (mapped_segments self.now) }
        ensures opened { IsOpened self.now }
    {
        MappedSegments {
            segments: self.segments(),
        }
    }
}
