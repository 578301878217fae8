//! The sections of all segments of an image.

ghost use Rattle.std.specs.Prelude.{◌≡◌, ◌+◌, ◌*◌, ◌^◌, ◌≤◌, ◌<◌, length, None};
ghost use Rattle.std.specs.Iterator.{YieldsFirst};
ghost use Rattle.macho_fields.specs.Bytes.{bytes_of};
ghost use Rattle.macho_rows.specs.Sections.{section_row, sections_left, rows_reached};
ghost use Rattle.macho_rows.specs.Sections.{nsects_at, section_span, fills_zeros};

use crate::cursor::KesvuotCursor;
use crate::load::{Wanted, is_segment, load_at, next_wanted};
use crate::span::{Held, KesvuotSpan, NO_SPAN};
use crate::table::Table;
use macho_fields::header::loader::section_64::{
    ADDR, ALIGN, FLAGS, NRELOC, OFFSET, RELOFF, RESERVED1, RESERVED2, SIZE,
};
use macho_fields::header::loader::segment_command_64::{NSECTS, SEGNAME};
use macho_fields::header::loader::{
    MACH_HEADER_64_SIZE, S_GB_ZEROFILL, S_THREAD_LOCAL_ZEROFILL, S_ZEROFILL, SECTION_64_SIZE,
    SECTION_TYPE, SEGMENT_COMMAND_64_SIZE,
};
use macho_fields::{Bytes, Order};

/// A section. (`section_64`)
#[repr(C)]
#[derive(Clone, Copy)]
pub struct KesvuotSection {
    pub name: KesvuotSpan,
    /// The name of its segment.
    pub segment: KesvuotSpan,
    /// Its bytes in the file: none if it is zero-fill.
    pub bytes: KesvuotSpan,
    pub addr: u64,
    pub size: u64,
    pub offset: u32,
    pub align: u32,
    pub reloff: u32,
    pub nreloc: u32,
    pub flags: u32,
    pub reserved1: u32,
    pub reserved2: u32,
    /// 1 if it is zero-fill, otherwise 0.
    pub zero_fill: u32,
}

/// The sections of an image.
#[derive(Clone, Copy)]
pub struct Sections<'a> {
    pub image: Held<'a>,
}

impl<'a> Table for Sections<'a> {
    ghost use Rattle.macho_fields.specs.Bytes.{bytes_of};
    ghost use Rattle.macho_rows.specs.Sections.{sections_left};

    type Row = KesvuotSection;

    ghost left = { λ t. sections_left t.image.place (bytes_of t.image.bytes) };

    fn next(&self, cursor: &mut KesvuotCursor) -> Option<KesvuotSection> {
        loop {
            match next_reached(&self.image, cursor) {
                Some(row) => return Some(row),
                None => {
                    let load = next_wanted(self.image.bytes, cursor, Wanted::Segments)?;
                    cursor.segment = load.place;
                    cursor.items = 0;
                }
            }
        }
    }
}

// The next section of the segment that the cursor has reached.
fn next_reached(image: &Held, cursor: &mut KesvuotCursor) -> Option<KesvuotSection>
    ensures first { YieldsFirst (rows_reached image.now.place (bytes_of image.now.bytes)) cursor.old
        result cursor.new }
    ensures place { cursor.new.place ≡ cursor.old.place }
    ensures commands { cursor.new.commands ≡ cursor.old.commands }
{
    let segment = cursor.segment;
    if cursor.items >= nsects_at(image.bytes, segment) {
        return None;
    }
    let section = segment + SEGMENT_COMMAND_64_SIZE + SECTION_64_SIZE * cursor.items;
    cursor.items += 1;
    Some(row_of(image, segment, section))
}

/// How many sections the segment at a place has, or 0 where no segment can be.
pub fn nsects_at(image: Bytes, segment: u64) -> u64
    ensures count { result ≡ nsects_at (bytes_of image.entry) segment }
    ensures inside { 0 < result → segment + 72 + 80 * result ≤ length (bytes_of image.entry) }
    ensures near { result < 2 ^ 32 }
{
    if segment < MACH_HEADER_64_SIZE {
        return 0;
    }
    match load_at(image, segment) {
        Some(load) if is_segment(image, load) => {
            u64::from(image.read_u32(Order::Little, segment + NSECTS))
        }
        _ => 0,
    }
}

/// The row of a section.
pub fn row_of(image: &Held, segment: u64, section: u64) -> KesvuotSection
    requires segment { segment + 72 ≤ length (bytes_of image.now.bytes) }
    requires section { section + 80 ≤ length (bytes_of image.now.bytes) }
    ensures { result ≡ section_row image.now.place (bytes_of image.now.bytes) segment section }
{
    let bytes = image.bytes;
    let size = bytes.read_u64(Order::Little, section + SIZE);
    let offset = bytes.read_u32(Order::Little, section + OFFSET);
    let flags = bytes.read_u32(Order::Little, section + FLAGS);
    KesvuotSection {
        name: image.short_name(section),
        segment: image.short_name(segment + SEGNAME),
        bytes: bytes_of(image, offset, size, flags),
        addr: bytes.read_u64(Order::Little, section + ADDR),
        size,
        offset,
        align: bytes.read_u32(Order::Little, section + ALIGN),
        reloff: bytes.read_u32(Order::Little, section + RELOFF),
        nreloc: bytes.read_u32(Order::Little, section + NRELOC),
        flags,
        reserved1: bytes.read_u32(Order::Little, section + RESERVED1),
        reserved2: bytes.read_u32(Order::Little, section + RESERVED2),
        zero_fill: u32::from(is_zero_fill(flags)),
    }
}

// Where the bytes of a section lie in the file: nowhere if it is zero-fill.
fn bytes_of(image: &Held, offset: u32, size: u64, flags: u32) -> KesvuotSpan
    ensures { result ≡ section_span image.now.place (bytes_of image.now.bytes) offset size flags }
{
    if is_zero_fill(flags) {
        return NO_SPAN;
    }
    image.part(u64::from(offset), size)
}

// Whether the type in these flags of a section has no bytes in the file.
fn is_zero_fill(flags: u32) -> bool
    ensures { result ≡ fills_zeros flags }
{
    matches!(
        flags & SECTION_TYPE,
        S_ZEROFILL | S_GB_ZEROFILL | S_THREAD_LOCAL_ZEROFILL
    )
}
