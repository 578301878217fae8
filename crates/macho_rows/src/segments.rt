//! The segments of an image.

ghost use Rattle.std.specs.Prelude.{◌≡◌, ◌+◌, ◌≤◌, length, None};
ghost use Rattle.macho_fields.specs.Bytes.{bytes_of};
ghost use Rattle.macho_rows.specs.Segments.{segment_row, segments_left, last_address, sections_past};

use crate::cursor::KesvuotCursor;
use crate::load::{Wanted, next_wanted};
use crate::span::{Held, KesvuotSpan};
use crate::table::Table;
use macho_fields::Order;
use macho_fields::header::loader::segment_command_64::{
    FILEOFF, FILESIZE, INITPROT, MAXPROT, NSECTS, SEGNAME, VMADDR, VMSIZE,
};

/// A segment. (`segment_command_64`)
#[repr(C)]
#[derive(Clone, Copy)]
pub struct KesvuotSegment {
    pub name: KesvuotSpan,
    /// Its bytes in the file.
    pub bytes: KesvuotSpan,
    pub vmaddr: u64,
    pub vmsize: u64,
    /// Its last address, or 0 where it is not mapped.
    pub last: u64,
    pub fileoff: u64,
    pub filesize: u64,
    /// The index of its first section among the sections of all segments, and how many it has.
    pub first_section: u64,
    pub section_count: u32,
    pub maxprot: u32,
    pub initprot: u32,
    /// Reserved: 0.
    pub reserved: u32,
}

/// The segments of an image.
#[derive(Clone, Copy)]
pub struct Segments<'a> {
    pub image: Held<'a>,
}

impl<'a> Table for Segments<'a> {
    ghost use Rattle.macho_fields.specs.Bytes.{bytes_of};
    ghost use Rattle.macho_rows.specs.Segments.{segments_left};

    type Row = KesvuotSegment;

    ghost left = { λ t. segments_left t.image.place (bytes_of t.image.bytes) };

    fn next(&self, cursor: &mut KesvuotCursor) -> Option<KesvuotSegment> {
        let load = next_wanted(self.image.bytes, cursor, Wanted::Segments)?;
        let row = row_of(&self.image, load.place, cursor.items);
        cursor.items = sections_past(cursor.items, row.section_count);
        Some(row)
    }
}

/// The row of a segment, with the number of the sections before its own.
pub fn row_of(image: &Held, segment: u64, sections: u64) -> KesvuotSegment
    requires { segment + 72 ≤ length (bytes_of image.now.bytes) }
    ensures { result ≡ segment_row image.now.place (bytes_of image.now.bytes) sections segment }
{
    let bytes = image.bytes;
    let vmaddr = bytes.read_u64(Order::Little, segment + VMADDR);
    let vmsize = bytes.read_u64(Order::Little, segment + VMSIZE);
    let fileoff = bytes.read_u64(Order::Little, segment + FILEOFF);
    let filesize = bytes.read_u64(Order::Little, segment + FILESIZE);
    KesvuotSegment {
        name: image.short_name(segment + SEGNAME),
        bytes: image.part(fileoff, filesize),
        vmaddr,
        vmsize,
        last: last_address(vmaddr, vmsize),
        fileoff,
        filesize,
        first_section: sections,
        section_count: bytes.read_u32(Order::Little, segment + NSECTS),
        maxprot: bytes.read_u32(Order::Little, segment + MAXPROT),
        initprot: bytes.read_u32(Order::Little, segment + INITPROT),
        reserved: 0,
    }
}

/// The last of the addresses from `start` on: below 2^64, and 0 without addresses.
pub fn last_address(start: u64, size: u64) -> u64
    ensures { result ≡ last_address start size }
{
    if size == 0 {
        return 0;
    }
    start.saturating_add(size - 1)
}

// How many sections there are up to the end of a segment, or 2^64 - 1 if there were more.
fn sections_past(before: u64, own: u32) -> u64
    ensures { result ≡ sections_past before own }
{
    before.saturating_add(u64::from(own))
}
