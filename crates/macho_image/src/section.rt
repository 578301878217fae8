//! The sections of a segment. (`mach-o/loader.h`: `section_64`)

ghost use Rattle.std.specs.Prelude.{◌≡◌, ◌%◌, ◌^◌, ◌<◌, map};
ghost use Rattle.std.specs.Iterator.{YieldsFirst, item_count};
ghost use Rattle.macho_fields.specs.Image.{commands_of};
ghost use Rattle.macho_fields.specs.Segment.{section_address, section_size, section_offset, reloff, nreloc, section_flags, is_zero_fill};
ghost use Rattle.macho_image.specs.Opened.{IsOpened};
ghost use Rattle.macho_image.specs.Segment.{segment_at, section_name, section_align, reserved1, reserved2, section_at, sections_of};

use crate::command::{long_in, word_in};
use crate::image::Image;
use crate::items::Items;
use crate::segment::{Segment, Segments, short_name};
use macho_fields::header::loader::section_64::{
    ADDR, ALIGN, FLAGS, NRELOC, OFFSET, RELOFF, RESERVED1, RESERVED2, SECTNAME, SIZE,
};
use macho_fields::header::loader::{
    S_GB_ZEROFILL, S_THREAD_LOCAL_ZEROFILL, S_ZEROFILL, SECTION_TYPE,
};
use macho_fields::{Bytes, Span};
use std::marker::Model;

/// A section of a segment. (`section_64`)
#[derive(Drop)]
pub struct Section<'a> {
    image: Bytes<'a>,
    segment: u64,
    place: u64,
}

impl<'a> Model for Section<'a> {
    ghost use Rattle.macho_fields.specs.Bytes.{bytes_of};
    ghost use Rattle.macho_image.specs.Segment.{SectionView, section_at};
    ghost use Rattle.macho_image.specs.Views.{HoldsSection};

    ghost Value = { SectionView };

    ghost view = { λ section.
        section_at (bytes_of section.image) (section.segment, section.place) };

    ghost invariant = { λ section.
        HoldsSection (bytes_of section.image) section.segment section.place };
}

impl<'a> Section<'a> {
    /// The segment that it belongs to.
    pub fn segment(&self) -> Segment<'a>
        ensures { result ≡ segment_at self.now.image self.now.segment }
    {
        Segment {
            image: self.image,
            place: self.segment,
        }
    }

    /// Where its `section_64` begins in the image.
    pub fn place(&self) -> u64
        ensures { result ≡ self.now.place }
    {
        self.place
    }

    /// Its `sectname`, borrowed from the image: 16 bytes, or those before the first zero byte.
    pub fn name(&self) -> &'a [u8]
        ensures { result.now ≡ section_name self.now.image self.now.place }
    {
        short_name(self.image, self.place, SECTNAME)
    }

    /// The address at which it begins in memory.
    pub fn addr(&self) -> u64
        ensures { result ≡ section_address self.now.image self.now.place }
    {
        long_in(self.image, self.place, ADDR)
    }

    /// Its size in memory, in bytes. It is the size in the image too, where it is not zero-fill.
    pub fn size(&self) -> u64
        ensures { result ≡ section_size self.now.image self.now.place }
    {
        long_in(self.image, self.place, SIZE)
    }

    /// Where its bytes begin in the image.
    pub fn offset(&self) -> u64
        ensures number { result ≡ section_offset self.now.image self.now.place }
        ensures near { result < 2 ^ 32 }
    {
        u64::from(word_in(self.image, self.place, OFFSET))
    }

    /// Its memory: `size` bytes from `addr` on.
    pub fn memory(&self) -> Span
        ensures start { result.start ≡ section_address self.now.image self.now.place }
        ensures len { result.len ≡ section_size self.now.image self.now.place }
    {
        Span {
            start: self.addr(),
            len: self.size(),
        }
    }

    /// Its bytes in the image, unless it is zero-fill: `size` bytes from `offset` on.
    pub fn file_part(&self) -> Span
        ensures start { result.start ≡ section_offset self.now.image self.now.place }
        ensures len { result.len ≡ section_size self.now.image self.now.place }
    {
        Span {
            start: self.offset(),
            len: self.size(),
        }
    }

    /// Its alignment: its address must be a multiple of 2 to this power. No rule checks that it is.
    pub fn align(&self) -> u64
        ensures number { result ≡ section_align self.now.image self.now.place }
        ensures near { result < 2 ^ 32 }
    {
        u64::from(word_in(self.image, self.place, ALIGN))
    }

    /// Where its relocations begin in the image.
    pub fn reloff(&self) -> u64
        ensures number { result ≡ reloff self.now.image self.now.place }
        ensures near { result < 2 ^ 32 }
    {
        u64::from(word_in(self.image, self.place, RELOFF))
    }

    /// The number of its relocations, of 8 bytes each.
    pub fn nreloc(&self) -> u64
        ensures number { result ≡ nreloc self.now.image self.now.place }
        ensures near { result < 2 ^ 32 }
    {
        u64::from(word_in(self.image, self.place, NRELOC))
    }

    /// Its flags: the type in the low byte (`SECTION_TYPE`), and attributes.
    pub fn flags(&self) -> u64
        ensures number { result ≡ section_flags self.now.image self.now.place }
        ensures near { result < 2 ^ 32 }
    {
        u64::from(word_in(self.image, self.place, FLAGS))
    }

    /// Its `reserved1`: of symbol pointers and of symbol stubs, the index of their first indirect entry. The linked
    /// profile checks that each has one.
    pub fn reserved1(&self) -> u64
        ensures number { result ≡ reserved1 self.now.image self.now.place }
        ensures near { result < 2 ^ 32 }
    {
        u64::from(word_in(self.image, self.place, RESERVED1))
    }

    /// Its `reserved2`: of symbol stubs, the size of one in bytes. The linked profile checks that it is not 0.
    pub fn reserved2(&self) -> u64
        ensures number { result ≡ reserved2 self.now.image self.now.place }
        ensures near { result < 2 ^ 32 }
    {
        u64::from(word_in(self.image, self.place, RESERVED2))
    }

    /// Whether its type is `S_ZEROFILL`, `S_GB_ZEROFILL` or `S_THREAD_LOCAL_ZEROFILL`: zeros in
    /// memory, and no bytes in the image.
    pub fn is_zero_fill(&self) -> bool
        ensures { result ≡ is_zero_fill self.now.image self.now.place }
    {
        matches!(
            self.section_type(),
            S_ZEROFILL | S_GB_ZEROFILL | S_THREAD_LOCAL_ZEROFILL
        )
    }

    /// Its type: the low byte of its flags. (`SECTION_TYPE`)
    pub fn section_type(&self) -> u32
        ensures { result ≡ section_flags self.now.image self.now.place % 256 }
    {
        word_in(self.image, self.place, FLAGS) & SECTION_TYPE
    }
}

/// The sections of a segment that remain, in the order of the file.
#[derive(Drop)]
pub struct Sections<'a> {
    pub(crate) image: Bytes<'a>,
    pub(crate) segment: u64,
    pub(crate) items: Items,
}

impl<'a> Model for Sections<'a> {
    ghost use Rattle.std.specs.Prelude.{List, map, All};
    ghost use Rattle.macho_fields.specs.Bytes.{bytes_of};
    ghost use Rattle.macho_image.specs.Segment.{SectionView, section_at};
    ghost use Rattle.macho_image.specs.Views.{HoldsSection};

    ghost Value = { List SectionView };

    ghost view = { λ sections.
        map (λ place. section_at (bytes_of sections.image) (sections.segment, place))
        sections.items };

    ghost invariant = { λ sections.
        All (HoldsSection (bytes_of sections.image) sections.segment) sections.items };
}

impl<'a> Iterator for Sections<'a> {
    type Item = Section<'a>;

    ghost next_gives = { YieldsFirst (λ left. left) };

    ghost remaining = { item_count (λ left. left) };

    fn next(&mut self) -> Option<Section<'a>> {
        let place = self.items.next()?;
        Some(Section {
            image: self.image,
            segment: self.segment,
            place,
        })
    }
}

/// The sections of all segments of an image that remain, in the order of the commands.
#[derive(Drop)]
pub struct AllSections<'a> {
    // Those of the segment that is reached.
    sections: Sections<'a>,
    // The segments after it.
    segments: Segments<'a>,
}

impl<'a> Model for AllSections<'a> {
    ghost use Rattle.std.specs.Prelude.{◌++◌, List};
    ghost use Rattle.macho_image.specs.Segment.{SectionView, sections_among};

    ghost Value = { List SectionView };

    ghost view = { λ all. all.sections ++ sections_among all.segments };
}

impl<'a> Iterator for AllSections<'a> {
    type Item = Section<'a>;

    ghost next_gives = { YieldsFirst (λ left. left) };

    ghost remaining = { item_count (λ left. left) };

    fn next(&mut self) -> Option<Section<'a>> {
        loop {
            if let Some(section) = self.sections.next() {
                return Some(section);
            }
            let segment = self.segments.next()?;
            self.sections = segment.sections();
        }
    }
}

impl<'a> Image<'a> {
    /// The sections of all segments, in the order of the commands.
    pub fn sections(&self) -> AllSections<'a>
        ensures sections { result ≡ map (section_at self.now)
            (sections_of self.now (commands_of self.now)) }
        ensures opened { IsOpened self.now }
    {
        AllSections {
            sections: Sections {
                image: self.bytes(),
                segment: 0,
                items: Items::none(),
            },
            segments: self.segments(),
        }
    }
}
