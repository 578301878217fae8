//! The segments of an opened image. (`mach-o/loader.h`: `segment_command_64`)

ghost use Rattle.std.specs.Prelude.{◌≡◌, ◌+◌, ◌≤◌, length, ◌^◌, ◌<◌, map, ◌↔◌, IsTrue, IfSome};
ghost use Rattle.std.specs.Iterator.{YieldsFirst, item_count};
ghost use Rattle.macho_fields.specs.Bytes.{bytes_of};
ghost use Rattle.macho_fields.specs.Image.{commands_of};
ghost use Rattle.macho_fields.specs.Segment.{vmaddr, vmsize, fileoff, filesize, initprot, nsects, shows_start, segments_of, section_count};
ghost use Rattle.macho_image.specs.Command.{command_of};
ghost use Rattle.macho_image.specs.Opened.{IsOpened, IsCommandOf};
ghost use Rattle.macho_image.specs.Views.{HoldsSegment};
ghost use Rattle.macho_image.specs.Segment.{short_name, maxprot, section_at, sections_with, segment_name, segment_at, segment_of};

use crate::command::{Command, Commands, long_in, word_in};
use crate::image::Image;
use crate::items::Items;
use crate::section::Sections;
use macho_fields::header::loader::segment_command_64::{
    FILEOFF, FILESIZE, INITPROT, MAXPROT, NSECTS, SEGNAME, VMADDR, VMSIZE,
};
use macho_fields::header::loader::{
    LC_SEGMENT_64, SECTION_64_SIZE, SEGMENT_COMMAND_64_SIZE, SHORT_NAME_SIZE,
};
use macho_fields::{Bytes, Span};
use std::marker::Model;

/// A segment of an image. (`segment_command_64`)
#[derive(Drop)]
pub struct Segment<'a> {
    pub(crate) image: Bytes<'a>,
    pub(crate) place: u64,
}

impl<'a> Model for Segment<'a> {
    ghost use Rattle.macho_fields.specs.Bytes.{bytes_of};
    ghost use Rattle.macho_image.specs.Segment.{SegmentView, segment_at};
    ghost use Rattle.macho_image.specs.Views.{HoldsSegment};

    ghost Value = { SegmentView };

    ghost view = { λ segment. segment_at (bytes_of segment.image) segment.place };

    ghost invariant = { λ segment. HoldsSegment (bytes_of segment.image) segment.place };
}

impl<'a> Segment<'a> {
    /// All bytes of the image that it is a segment of.
    pub fn image(&self) -> Bytes<'a>
        ensures { bytes_of result ≡ self.now.image }
    {
        self.image
    }

    /// Where its command begins in the image.
    pub fn place(&self) -> u64
        ensures { result ≡ self.now.place }
    {
        self.place
    }

    /// Its `segname`, borrowed from the image: 16 bytes, or those before the first zero byte.
    pub fn name(&self) -> &'a [u8]
        ensures { result.now ≡ segment_name self.now.image self.now.place }
    {
        short_name(self.image, self.place, SEGNAME)
    }

    /// The address at which it begins in memory.
    pub fn vmaddr(&self) -> u64
        ensures { result ≡ vmaddr self.now.image self.now.place }
    {
        long_in(self.image, self.place, VMADDR)
    }

    /// Its size in memory, in bytes. A segment of size 0 is not mapped.
    pub fn vmsize(&self) -> u64
        ensures { result ≡ vmsize self.now.image self.now.place }
    {
        long_in(self.image, self.place, VMSIZE)
    }

    /// Where its bytes begin in the image.
    pub fn fileoff(&self) -> u64
        ensures { result ≡ fileoff self.now.image self.now.place }
    {
        long_in(self.image, self.place, FILEOFF)
    }

    /// Its size in the image, in bytes. The rest of its memory is zero.
    pub fn filesize(&self) -> u64
        ensures { result ≡ filesize self.now.image self.now.place }
    {
        long_in(self.image, self.place, FILESIZE)
    }

    /// Its memory: `vmsize` bytes from `vmaddr` on. It is empty where it is not mapped.
    pub fn memory(&self) -> Span
        ensures start { result.start ≡ vmaddr self.now.image self.now.place }
        ensures len { result.len ≡ vmsize self.now.image self.now.place }
    {
        Span {
            start: self.vmaddr(),
            len: self.vmsize(),
        }
    }

    /// Its bytes in the image: `filesize` bytes from `fileoff` on.
    pub fn file_part(&self) -> Span
        ensures start { result.start ≡ fileoff self.now.image self.now.place }
        ensures len { result.len ≡ filesize self.now.image self.now.place }
    {
        Span {
            start: self.fileoff(),
            len: self.filesize(),
        }
    }

    /// Its maximum protection: the `VM_PROT_` bits 1 (read), 2 (write) and 4 (execute).
    pub fn maxprot(&self) -> u64
        ensures number { result ≡ maxprot self.now.image self.now.place }
        ensures near { result < 2 ^ 32 }
    {
        u64::from(word_in(self.image, self.place, MAXPROT))
    }

    /// Its initial protection: the `VM_PROT_` bits 1 (read), 2 (write) and 4 (execute).
    pub fn initprot(&self) -> u64
        ensures number { result ≡ initprot self.now.image self.now.place }
        ensures near { result < 2 ^ 32 }
    {
        u64::from(word_in(self.image, self.place, INITPROT))
    }

    /// The number of its sections.
    pub fn nsects(&self) -> u64
        ensures number { result ≡ nsects self.now.image self.now.place }
        ensures near { result < 2 ^ 32 }
    {
        u64::from(word_in(self.image, self.place, NSECTS))
    }

    /// Whether it is mapped, and begins with the first bytes of the image. The base of the image is the
    /// address of the first such segment.
    pub fn shows_start(&self) -> bool
        ensures { result ≡ shows_start self.now.image self.now.place }
    {
        self.fileoff() == 0 && self.filesize() > 0 && self.vmsize() > 0
    }

    /// Its sections, in the order of the file.
    pub fn sections(&self) -> Sections<'a>
        ensures { result ≡ map (section_at self.now.image)
            (sections_with self.now.image self.now.place) }
    {
        let start = self.place + SEGMENT_COMMAND_64_SIZE;
        Sections {
            image: self.image,
            segment: self.place,
            items: Items::new(start, self.nsects(), SECTION_64_SIZE),
        }
    }
}

impl Command<'_> {
    /// The command as a segment of the image that it was read from, or `None` if it is another command.
    /// In other bytes it is a segment only where its sections lie inside them.
    #[inline(always)]
    pub fn segment<'i>(&self, image: Bytes<'i>) -> Option<Segment<'i>>
        ensures segment { IfSome result (λ segment.
            segment ≡ segment_at (bytes_of image.entry) self.now.place) }
        ensures listed { IsCommandOf (bytes_of image.entry) (command_of self.now)
            → result ≡ segment_of (bytes_of image.entry) (command_of self.now) }
    {
        if self.cmd != LC_SEGMENT_64 || !holds_segment(image, self.place) {
            return None;
        }
        Some(Segment {
            image,
            place: self.place,
        })
    }
}

// Whether the structure of a segment at `place` and its sections lie inside the image.
#[inline(never)]
fn holds_segment(image: Bytes, place: u64) -> bool
    ensures { IsTrue result ↔ HoldsSegment (bytes_of image.entry) place }
{
    if !image.contains_table(place, 1, SEGMENT_COMMAND_64_SIZE) {
        return false;
    }
    prove!(image.len() <= u64::MAX);
    let nsects = u64::from(word_in(image, place, NSECTS));
    image.contains_table(place + SEGMENT_COMMAND_64_SIZE, nsects, SECTION_64_SIZE)
}

/// The segments of an image that remain, in the order of the commands.
#[derive(Drop)]
pub struct Segments<'a> {
    image: Bytes<'a>,
    commands: Commands<'a>,
}

impl<'a> Model for Segments<'a> {
    ghost use Rattle.std.specs.Prelude.{List};
    ghost use Rattle.macho_fields.specs.Bytes.{bytes_of};
    ghost use Rattle.macho_image.specs.Segment.{SegmentView, segments_left};
    ghost use Rattle.macho_image.specs.Views.{HoldSegments};

    ghost Value = { List SegmentView };

    ghost view = { λ segments. segments_left (bytes_of segments.image) segments.commands };

    ghost invariant = { λ segments. HoldSegments (bytes_of segments.image) segments.commands };
}

impl<'a> Iterator for Segments<'a> {
    type Item = Segment<'a>;

    ghost next_gives = { YieldsFirst (λ left. left) };

    ghost remaining = { item_count (λ left. left) };

    fn next(&mut self) -> Option<Segment<'a>> {
        let command = self.commands.next_with_cmd(LC_SEGMENT_64)?;
        Some(Segment {
            image: self.image,
            place: command.place,
        })
    }
}

impl<'a> Image<'a> {
    /// The segments of the image, one for each `LC_SEGMENT_64`, in the order of the commands.
    pub fn segments(&self) -> Segments<'a>
        ensures segments { result ≡ map (segment_at self.now)
            (segments_of self.now (commands_of self.now)) }
        ensures opened { IsOpened self.now }
        ensures fits { length self.now < 2 ^ 64 }
    {
        Segments {
            image: self.bytes(),
            commands: self.commands_with_segments(),
        }
    }

    /// The number of sections of all segments of the image: the sum of `nsects`.
    pub fn section_count(&self) -> u64
        ensures { result ≡ section_count self.now (commands_of self.now) }
    {
        // The sections lie inside the image, so their number is below 2^64.
        let mut count = 0;
        for segment in self.segments() {
            count += segment.nsects();
        }
        count
    }
}

// The name in the 16 bytes at `offset` in a structure. It ends before the first zero byte, where
// there is one.
pub(crate) fn short_name(image: Bytes, structure: u64, offset: u64) -> &[u8]
    requires { structure + offset + SHORT_NAME_SIZE ≤ length (bytes_of image) }
    ensures { result.now ≡ short_name (bytes_of image.entry) (structure + offset) }
{
    let whole = Span {
        start: structure + offset,
        len: SHORT_NAME_SIZE,
    };
    match image.string_in(whole) {
        Some(string) => string,
        None => image.read_part(whole),
    }
}
