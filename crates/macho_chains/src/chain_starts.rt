//! Where the chains of each segment begin, and the rule about them. An offset is one in the table of the
//! chained fixups. (`mach-o/fixup-chains.h`: `dyld_chained_starts_in_image`,
//! `dyld_chained_starts_in_segment`)

ghost use Rattle.std.specs.Prelude.{◌≡◌, ◌↔◌, ◌+◌, ◌≤◌, length, slice_index, suc, IsTrue, MatchOption};
ghost use Rattle.macho_fields.specs.Bytes.{bytes_of};
ghost use Rattle.macho_fields.specs.FirstPlace.{IsLeastPlace};
ghost use Rattle.macho_fields.specs.Image.{commands_of};
ghost use Rattle.macho_fields.specs.Segment.{all_segments, base_of};
ghost use Rattle.macho_chains.specs.ChainStarts.{are_whole as are_whole_of, entry_offset, BreaksChainStarts, HasBadEntries, HasBadStarts, IsReach};
ghost use Rattle.macho_tables.specs.Items.{IsFirstItem};

use crate::chain_header::ChainHeader;
use crate::chains::Chains;
use macho_fields::header::fixup_chains::*;
use macho_fields::{Bytes, Order, Span};
use macho_image::{Image, Segment};
use macho_tables::fields::{half_at, word_at};
use macho_tables::segment::is_writable;

// The offsets of the fields in `dyld_chained_starts_in_segment`.
const SIZE: u64 = 0;

const PAGE_SIZE: u64 = 4;

const POINTER_FORMAT: u64 = 6;

const SEGMENT_OFFSET: u64 = 8;

const PAGE_COUNT: u64 = 20;

/// How the bits of a pointer say where the next one is, and what is bound.
#[derive(Clone, Copy)]
pub enum PointerFormat {
    /// `DYLD_CHAINED_PTR_64` and `DYLD_CHAINED_PTR_64_OFFSET`.
    Pointer64,
    /// `DYLD_CHAINED_PTR_ARM64E` and `DYLD_CHAINED_PTR_ARM64E_USERLAND`.
    Arm64e,
    /// `DYLD_CHAINED_PTR_ARM64E_USERLAND24`.
    Arm64e24,
}

impl PointerFormat {
    ghost use Rattle.std.specs.Prelude.{◌≡◌};
    ghost use Rattle.macho_chains.specs.ChainStarts.{pointer_format};

    /// The format with this number, or `None` if it is not known. Those of kernels and of 32 bits are not.
    pub fn of(number: u16) -> Option<PointerFormat>
        ensures { result ≡ pointer_format number }
    {
        match number {
            DYLD_CHAINED_PTR_64 | DYLD_CHAINED_PTR_64_OFFSET => Some(PointerFormat::Pointer64),
            DYLD_CHAINED_PTR_ARM64E | DYLD_CHAINED_PTR_ARM64E_USERLAND => {
                Some(PointerFormat::Arm64e)
            }
            DYLD_CHAINED_PTR_ARM64E_USERLAND24 => Some(PointerFormat::Arm64e24),
            _ => None,
        }
    }
}

/// Where the chains of a segment begin. (`dyld_chained_starts_in_segment`)
#[derive(Clone, Copy)]
pub struct SegmentStarts {
    /// Where the structure begins.
    pub offset: u64,
    /// Its size in bytes, with the page starts.
    pub size: u32,
    /// The size in bytes of a page.
    pub page_size: u16,
    /// How the pointers are written.
    pub format: PointerFormat,
    /// Where the segment begins in memory, as an offset from the base.
    pub segment_offset: u64,
    /// How many page starts there are.
    pub page_count: u16,
}

impl SegmentStarts {
    ghost use Rattle.std.specs.Prelude.{◌≡◌, ◌↔◌, IsTrue};
    ghost use Rattle.macho_fields.specs.Bytes.{bytes_of};
    ghost use Rattle.macho_chains.specs.ChainStarts.{segment_starts, starts_end, AreOf};

    /// The starts at an offset. They are `None` if the structure ends past the table or before its page
    /// starts do, or the size of the pages or the format of the pointers is not known.
    #[tactic(auto, unfolding(crate::specs::ChainStarts::segment_starts))]
    pub fn read(chains: Bytes, offset: u64) -> Option<SegmentStarts>
        ensures { result ≡ segment_starts (bytes_of chains.entry) offset }
    {
        let fields = Span {
            start: offset,
            len: DYLD_CHAINED_STARTS_IN_SEGMENT_SIZE,
        };
        if !chains.contains(fields) || !are_whole(chains, offset) {
            return None;
        }
        let format = PointerFormat::of(half_at(chains, offset + POINTER_FORMAT))?;
        Some(SegmentStarts {
            offset,
            size: word_at(chains, offset + SIZE),
            page_size: half_at(chains, offset + PAGE_SIZE),
            format,
            segment_offset: chains.read_u64(Order::Little, offset + SEGMENT_OFFSET),
            page_count: half_at(chains, offset + PAGE_COUNT),
        })
    }

    // The first offset past them.
    fn end(self) -> u128
        ensures { result ≡ starts_end self }
    {
        u128::from(self.offset) + u128::from(self.size)
    }

    // Whether they say where the segment is, and it can be written.
    fn are_of(self, segment: &Segment, base: Option<u64>) -> bool
        ensures { IsTrue result ↔ AreOf base segment.now.image segment.now.place self }
    {
        let Some(base) = base else {
            return false;
        };
        let start = u128::from(base) + u128::from(self.segment_offset);
        start == u128::from(segment.vmaddr()) && is_writable(segment)
    }
}

// Whether the structure at an offset has room for its page starts, ends in the table, and has pages of a
// known size. Its fields are inside.
fn are_whole(chains: Bytes, offset: u64) -> bool
    requires { offset + DYLD_CHAINED_STARTS_IN_SEGMENT_SIZE ≤ length (bytes_of chains) }
    ensures { result ≡ are_whole_of (bytes_of chains.entry) offset }
{
    let size = u64::from(word_at(chains, offset + SIZE));
    let page_count = u64::from(half_at(chains, offset + PAGE_COUNT));
    let starts_end = DYLD_CHAINED_STARTS_IN_SEGMENT_SIZE + page_count * PAGE_START_SIZE;
    starts_end <= size
        && size <= chains.len() - offset
        && matches!(half_at(chains, offset + PAGE_SIZE), 0x1000 | 0x4000)
}

/// Where the starts are first broken: at the offset 0, if `seg_count` ends past the table; at `seg_count`, if
/// there are more entries than segments, or they end past the table; and otherwise at the first entry whose
/// starts are bad.
pub fn chain_starts(image: &Image, chains: Chains) -> Option<u64>
    ensures { IsLeastPlace (BreaksChainStarts image.now (bytes_of chains.entry.bytes) chains.entry.header) result }
{
    let starts_offset = u64::from(chains.header.starts_offset);
    let Some(count) = chains.bytes.u32_at(Order::Little, starts_offset) else {
        return Some(0);
    };
    if has_bad_entries(image, chains, count) {
        return Some(starts_offset);
    }
    match first_with_bad_starts(image, chains, count) {
        Some(index) => Some(chains.header.entry_offset(index)),
        None => None,
    }
}

// Whether there are more entries than segments, or some past the table.
pub(crate) fn has_bad_entries(image: &Image, chains: Chains, count: u32) -> bool
    ensures { IsTrue result
        ↔ HasBadEntries image.now (bytes_of chains.entry.bytes) chains.entry.header count }
{
    u64::from(count) > segment_count(image)
        || chains.header.entry_offset(count) > chains.bytes.len()
}

/// How many segments the image has.
pub fn segment_count(image: &Image) -> u64
    ensures { result ≡ length (all_segments image.now) }
{
    image.segments().count() as u64
}

// The index of the first segment whose starts are bad.
fn first_with_bad_starts(image: &Image, chains: Chains, count: u32) -> Option<u32>
    requires { ¬ HasBadEntries image.now (bytes_of chains.bytes) chains.header count }
    ensures { IsFirstItem count
        (HasBadStarts image.now (bytes_of chains.entry.bytes) chains.entry.header) result }
{
    let base = image.base();
    let mut index = 0;
    let mut reach = 0;
    for segment in image.segments() {
        if index == count {
            return None;
        }
        let Some(next) = past_starts(&segment, base, chains, index, reach) else {
            return Some(index);
        };
        reach = next;
        index += 1;
    }
    None
}

// The first offset past the starts of the segment, which has this index, and of the segments before it, which end at
// `reach`. It is `None` if its starts are bad.
fn past_starts(
    segment: &Segment,
    base: Option<u64>,
    chains: Chains,
    index: u32,
    reach: u128,
) -> Option<u128>
    requires base { base ≡ base_of segment.now.image (commands_of segment.now.image) }
    requires segment { slice_index (all_segments segment.now.image) index ≡ segment.now.place }
    requires inside { entry_offset chains.header index + 4 ≤ length (bytes_of chains.bytes) }
    requires reach { IsReach (bytes_of chains.bytes) chains.header index reach }
    ensures { MatchOption result
        (HasBadStarts segment.now.image (bytes_of chains.entry.bytes) chains.entry.header index)
        (λ next. (¬ HasBadStarts segment.now.image (bytes_of chains.entry.bytes) chains.entry.header index)
        × IsReach (bytes_of chains.entry.bytes) chains.entry.header (suc index) next) }
{
    let Chains { bytes, header, .. } = chains;
    if header.seg_info_offset(bytes, index) == 0 {
        return Some(reach);
    }
    let starts = header.starts_of(bytes, index)?;
    if reach <= u128::from(starts.offset) && starts.are_of(segment, base) {
        Some(starts.end())
    } else {
        None
    }
}

impl ChainHeader {
    ghost use Rattle.std.specs.Prelude.{◌≡◌, ◌+◌, ◌≤◌, length};
    ghost use Rattle.macho_fields.specs.Bytes.{bytes_of};
    ghost use Rattle.macho_chains.specs.ChainStarts.{entry_offset, seg_info_offset, starts_of};

    /// The starts of the segment with this index. They are `None` if it has none, or if they cannot be read.
    pub fn starts_of(self, chains: Bytes, index: u32) -> Option<SegmentStarts>
        requires { entry_offset self index + SEG_INFO_OFFSET_SIZE ≤ length (bytes_of chains) }
        ensures { result ≡ starts_of (bytes_of chains.entry) self index }
    {
        let offset = self.seg_info_offset(chains, index);
        if offset == 0 {
            return None;
        }
        SegmentStarts::read(chains, u64::from(self.starts_offset) + u64::from(offset))
    }

    // Where they begin, from `starts_offset` on, or 0 if it has none.
    fn seg_info_offset(self, chains: Bytes, index: u32) -> u32
        requires { entry_offset self index + SEG_INFO_OFFSET_SIZE ≤ length (bytes_of chains) }
        ensures { result ≡ seg_info_offset (bytes_of chains.entry) self index }
    {
        word_at(chains, self.entry_offset(index))
    }

    // Where the entry of the segment with this index begins.
    fn entry_offset(self, index: u32) -> u64
        ensures { result ≡ entry_offset self index }
    {
        let entries = u64::from(self.starts_offset) + DYLD_CHAINED_STARTS_IN_IMAGE_SIZE;
        entries + u64::from(index) * SEG_INFO_OFFSET_SIZE
    }
}
