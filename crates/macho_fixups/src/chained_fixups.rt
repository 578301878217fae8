//! The fixups of chains, in the order in which a loader writes them: segment by segment, page by page, along each
//! chain. The offset of a pointer is one in its segment. (`mach-o/fixup-chains.h`: `dyld_chained_starts_in_image`,
//! `dyld_chained_starts_in_segment`)

use crate::batch::Fixups;
use crate::chained_imports::{has_import, import_addend};
use crate::chained_pointer::{bind_of, own_addend, rebase_of};
use crate::cursor::KesvuotFixupCursor;
use crate::location::{pointer_address, pointer_place};
use crate::row::KesvuotFixup;
use macho_chains::chain_header::ChainHeader;
use macho_chains::chain_pointers::ChainPointer;
use macho_chains::chain_starts::SegmentStarts;
use macho_fields::header::fixup_chains::{
    DYLD_CHAINED_PTR_START_NONE, DYLD_CHAINED_STARTS_IN_IMAGE_SIZE,
    DYLD_CHAINED_STARTS_IN_SEGMENT_SIZE, PAGE_START_SIZE, SEG_INFO_OFFSET_SIZE,
};
use macho_fields::header::loader::SEGMENT_COMMAND_64_SIZE;
use macho_fields::header::loader::segment_command_64::VMADDR;
use macho_fields::{Bytes, Order};
use macho_rows::cursor::{KesvuotCursor, START};
use macho_rows::load::{Wanted, next_wanted};
use macho_tables::fields::{half_at, word_at};
use macho_tables::limits::POINTER_SIZE;

// The offset of `pointer_format` in `dyld_chained_starts_in_segment`.
const POINTER_FORMAT: u64 = 6;

/// An image, with what its chains are read by.
#[derive(Clone, Copy)]
pub struct ChainFixups<'a> {
    /// Its bytes.
    pub image: Bytes<'a>,
    /// The address at which it begins.
    pub base: u64,
    /// Its table of chained fixups.
    pub table: Bytes<'a>,
    /// The header of the table.
    pub header: ChainHeader,
}

// The segment that is read: where its structure begins, its index, and where its chains begin.
#[derive(Clone, Copy)]
struct ChainedSegment {
    place: u64,
    index: u32,
    starts: SegmentStarts,
}

impl<'a> Fixups for ChainFixups<'a> {
    ghost use Rattle.macho_fields.specs.Bytes.{bytes_of};
    ghost use Rattle.macho_fixups.specs.ChainedFixups.{fixups_left};

    type Row = KesvuotFixup;

    ghost left = { λ t. fixups_left (bytes_of t.image) t.base (bytes_of t.table) t.header };

    fn next(&self, cursor: &mut KesvuotFixupCursor) -> Option<KesvuotFixup> {
        loop {
            if let Some(segment) = self.segment_read(cursor) {
                if self.turn_pages(segment, cursor) {
                    return self.follow(segment, cursor);
                }
            }
            if !self.turn_segment(cursor) {
                return None;
            }
        }
    }
}

impl<'a> ChainFixups<'a> {
    ghost use Rattle.std.specs.Prelude.{◌≡◌, ◌≢◌, ◌+◌, ◌-◌, ◌^◌, ◌≤◌, ◌<◌, length, List, [], ◌∷◌, suc, None, Some, IfSome, MatchOption, true, false};
    ghost use Rattle.std.specs.Option.{option_map};
    ghost use Rattle.macho_fields.specs.Bytes.{bytes_of};
    ghost use Rattle.macho_chains.specs.ChainHeader.{chain_header};
    ghost use Rattle.macho_chains.specs.ChainPointers.{first_offset, page_start_offset, pointer_of, HasChain};
    ghost use Rattle.macho_chains.specs.ChainStarts.{entry_offset, seg_info_offset, starts_end};
    ghost use Rattle.macho_rows.specs.Loads.{wanted_left};
    ghost use Rattle.macho_rows.specs.declared.load.Wanted.TheVariants.{Segments};
    ghost use Rattle.macho_fixups.specs.ChainedFixups.{fixups_left, has_entry, later, loads_at, pages_left, raw_at, row_at, starts_at, starts_read, value_of, CanRead, IsSameSegment};
    ghost use Rattle.macho_fixups.specs.declared.row.KesvuotFixup.{KesvuotFixup};

    /// The chains of an image that begins at an address, by their table. It is `None` if the header of the table is not
    /// known.
    pub fn of(image: Bytes<'a>, base: u64, table: Bytes<'a>) -> Option<ChainFixups<'a>>
        ensures { MatchOption result (chain_header (bytes_of table.entry) ≡ None)
            (λ chains. (chain_header (bytes_of table.entry) ≡ Some chains.header) × (chains.image ≡ image.entry)
            × (chains.base ≡ base) × (chains.table ≡ table.entry)) }
    {
        let header = ChainHeader::read(table)?;
        Some(ChainFixups {
            image,
            base,
            table,
            header,
        })
    }

    // Moves the cursor to the next segment. It returns false past the last, and where the next segment has no entry, or
    // starts that cannot be read or begin before the starts of an earlier segment end: then the cursor stays.
    fn turn_segment(&self, cursor: &mut KesvuotFixupCursor) -> bool
        ensures turns { result ≡ true
            → (later (bytes_of self.now.image) self.now.base (bytes_of self.now.table) self.now.header cursor.old
            ≡ fixups_left (bytes_of self.now.image) self.now.base (bytes_of self.now.table) self.now.header cursor.new)
            × (length (wanted_left Segments (bytes_of self.now.image) (loads_at cursor.new))
            < length (wanted_left Segments (bytes_of self.now.image) (loads_at cursor.old))) }
        ensures ends { result ≡ false
            → (later (bytes_of self.now.image) self.now.base (bytes_of self.now.table) self.now.header cursor.old ≡ [])
            × (cursor.new ≡ cursor.old) }
    {
        let mut loads = KesvuotCursor {
            place: cursor.place,
            commands: cursor.commands,
            ..START
        };
        let Some(load) = next_wanted(self.image, &mut loads, Wanted::Segments) else {
            return false;
        };
        if !self.has_entry(cursor.segment) {
            return false;
        }
        let index = cursor.segment as u32;
        if self.seg_info_offset(index) == 0 {
            *cursor = KesvuotFixupCursor {
                place: loads.place,
                commands: loads.commands,
                segment: cursor.segment + 1,
                skip: 0,
                ..*cursor
            };
            return true;
        }
        let Some(starts) = self.starts_at(load.place, index) else {
            return false;
        };
        if starts.offset < cursor.name {
            return false;
        }
        prove!(self.table.len() <= u64::MAX);
        *cursor = KesvuotFixupCursor {
            place: loads.place,
            commands: loads.commands,
            segment: cursor.segment + 1,
            page: 0,
            left: 0,
            skip: load.place,
            name: starts.offset + u64::from(starts.size),
            ..*cursor
        };
        true
    }

    // The segment that is read at a cursor, if there is one.
    #[tactic(auto, unfolding(crate::specs::ChainedFixups::starts_read))]
    fn segment_read(&self, cursor: &KesvuotFixupCursor) -> Option<ChainedSegment>
        ensures read { option_map (λ segment. segment.starts) result
            ≡ starts_read (bytes_of self.now.image) self.now.base (bytes_of self.now.table) self.now.header
            cursor.now.skip cursor.now.segment }
        ensures segment { IfSome result (λ segment. (segment.place ≡ cursor.now.skip)
            × (segment.index ≡ cursor.now.segment - 1)
            × CanRead (bytes_of self.now.image) (bytes_of self.now.table) segment) }
    {
        let place = cursor.skip;
        let index = cursor.segment.saturating_sub(1);
        if place == 0
            || self.image.len() < SEGMENT_COMMAND_64_SIZE
            || place > self.image.len() - SEGMENT_COMMAND_64_SIZE
            || !self.has_entry(index)
        {
            return None;
        }
        let index = index as u32;
        let starts = self.starts_at(place, index)?;
        Some(ChainedSegment {
            place,
            index,
            starts,
        })
    }

    // Whether there is an entry for the segment with this index, and it lies in the table.
    fn has_entry(&self, index: u64) -> bool
        ensures entry { result ≡ has_entry (bytes_of self.now.table) self.now.header index }
        ensures near { result ≡ true → index < 2 ^ 32 }
    {
        let starts_offset = u64::from(self.header.starts_offset);
        let Some(count) = self.table.u32_at(Order::Little, starts_offset) else {
            return false;
        };
        index < u64::from(count)
            && self.entry_offset(index as u32) + SEG_INFO_OFFSET_SIZE <= self.table.len()
    }

    // Where the entry of the segment with this index begins.
    fn entry_offset(&self, index: u32) -> u64
        ensures { result ≡ entry_offset self.now.header index }
    {
        let entries = u64::from(self.header.starts_offset) + DYLD_CHAINED_STARTS_IN_IMAGE_SIZE;
        entries + u64::from(index) * SEG_INFO_OFFSET_SIZE
    }

    // Where its starts begin, from `starts_offset` on, or 0 if it has none.
    fn seg_info_offset(&self, index: u32) -> u32
        requires { entry_offset self.now.header (suc index) ≤ length (bytes_of self.now.table) }
        ensures { result ≡ seg_info_offset (bytes_of self.now.table) self.now.header index }
    {
        word_at(self.table, self.entry_offset(index))
    }

    // Its starts, if they can be read and say where it is. Its structure begins at `segment`.
    #[tactic(auto, unfolding(crate::specs::ChainedFixups::starts_at))]
    fn starts_at(&self, segment: u64, index: u32) -> Option<SegmentStarts>
        requires segment { segment + SEGMENT_COMMAND_64_SIZE ≤ length (bytes_of self.now.image) }
        requires entry { entry_offset self.now.header (suc index) ≤ length (bytes_of self.now.table) }
        ensures starts { result ≡ starts_at (bytes_of self.now.image) self.now.base (bytes_of self.now.table)
            self.now.header segment index }
        ensures pages { IfSome result (λ starts.
            page_start_offset starts starts.page_count ≤ length (bytes_of self.now.table)) }
        ensures end { IfSome result (λ starts. starts_end starts ≤ length (bytes_of self.now.table)) }
    {
        let offset = u64::from(self.header.starts_offset) + u64::from(self.seg_info_offset(index));
        let starts = SegmentStarts::read(self.table, offset)?;
        prove!(self.image.len() <= u64::MAX);
        let vmaddr = self.image.read_u64(Order::Little, segment + VMADDR);
        if u128::from(self.base) + u128::from(starts.segment_offset) != u128::from(vmaddr) {
            return None;
        }
        Some(starts)
    }

    // Moves the cursor to the next page of the segment that has a chain, unless a pointer is next. It returns false
    // past the last.
    fn turn_pages(&self, segment: ChainedSegment, cursor: &mut KesvuotFixupCursor) -> bool
        requires { CanRead (bytes_of self.now.image) (bytes_of self.now.table) segment }
        ensures turns { result ≡ true → (cursor.new.left ≢ 0) × ((others : List KesvuotFixup)
            → pages_left (bytes_of self.now.image) self.now.base (bytes_of self.now.table) self.now.header
            segment.place segment.index segment.starts cursor.old.page cursor.old.left cursor.old.offset others
            ≡ pages_left (bytes_of self.now.image) self.now.base (bytes_of self.now.table) self.now.header
            segment.place segment.index segment.starts cursor.new.page cursor.new.left cursor.new.offset others) }
        ensures ends { result ≡ false → (others : List KesvuotFixup)
            → (pages_left (bytes_of self.now.image) self.now.base (bytes_of self.now.table) self.now.header
            segment.place segment.index segment.starts cursor.old.page cursor.old.left cursor.old.offset others
            ≡ others)
            × (pages_left (bytes_of self.now.image) self.now.base (bytes_of self.now.table) self.now.header
            segment.place segment.index segment.starts cursor.new.page cursor.new.left cursor.new.offset others
            ≡ others) }
        ensures same { IsSameSegment cursor.old cursor.new }
    {
        while cursor.left == 0 {
            if cursor.page >= u64::from(segment.starts.page_count) {
                return false;
            }
            if let Some(first) = self.first_offset(segment.starts, cursor.page as u16) {
                cursor.offset = first;
                cursor.left = 1;
            }
            cursor.page += 1;
        }
        true
    }

    // Where the chain of a page begins, or `None` if it has none.
    fn first_offset(&self, starts: SegmentStarts, page: u16) -> Option<u64>
        requires { page_start_offset starts (suc page) ≤ length (bytes_of self.now.table) }
        ensures { MatchOption result (¬ HasChain (bytes_of self.now.table) starts page)
            (λ first. HasChain (bytes_of self.now.table) starts page
            × (first ≡ first_offset (bytes_of self.now.table) starts page)) }
    {
        prove!(self.table.len() <= u64::MAX);
        let page_starts = starts.offset + DYLD_CHAINED_STARTS_IN_SEGMENT_SIZE;
        let start = half_at(self.table, page_starts + u64::from(page) * PAGE_START_SIZE);
        if start == DYLD_CHAINED_PTR_START_NONE {
            return None;
        }
        Some(starts.page_offset(page) + u64::from(start))
    }

    // The row of the pointer at the cursor, which moves past it. It is `None` if the row cannot be told: then the
    // cursor stays.
    fn follow(
        &self,
        segment: ChainedSegment,
        cursor: &mut KesvuotFixupCursor,
    ) -> Option<KesvuotFixup>
        requires can { CanRead (bytes_of self.now.image) (bytes_of self.now.table) segment }
        requires next { cursor.old.left ≢ 0 }
        ensures rows { MatchOption result ((cursor.new ≡ cursor.old) × ((others : List KesvuotFixup)
            → pages_left (bytes_of self.now.image) self.now.base (bytes_of self.now.table) self.now.header
            segment.place segment.index segment.starts cursor.old.page cursor.old.left cursor.old.offset others ≡ []))
            (λ row. (others : List KesvuotFixup)
            → pages_left (bytes_of self.now.image) self.now.base (bytes_of self.now.table) self.now.header
            segment.place segment.index segment.starts cursor.old.page cursor.old.left cursor.old.offset others
            ≡ row ∷ pages_left (bytes_of self.now.image) self.now.base (bytes_of self.now.table) self.now.header
            segment.place segment.index segment.starts cursor.new.page cursor.new.left cursor.new.offset others) }
        ensures same { IsSameSegment cursor.old cursor.new }
    {
        let page = cursor.page.saturating_sub(1);
        let (row, distance) = self.row_at(segment, page, cursor.offset)?;
        if distance == 0 {
            cursor.left = 0;
        } else {
            cursor.offset += distance;
        }
        Some(row)
    }

    // The row of the pointer at an offset, with how many bytes further the next one begins, 0 for the last of its
    // chain.
    #[tactic(auto, unfolding(crate::specs::ChainedFixups::row_at, crate::specs::ChainedFixups::row_with))]
    fn row_at(&self, segment: ChainedSegment, page: u64, offset: u64) -> Option<(KesvuotFixup, u64)>
        requires { CanRead (bytes_of self.now.image) (bytes_of self.now.table) segment }
        ensures row { result ≡ row_at (bytes_of self.now.image) self.now.base (bytes_of self.now.table) self.now.header
            segment.place segment.index segment.starts page offset }
        ensures near { IfSome result (λ read. offset + read.1 < 2 ^ 64) }
    {
        let raw = self.raw_at(segment, page, offset)?;
        let ChainedSegment {
            place,
            index,
            starts,
        } = segment;
        let pointer = ChainPointer::of(starts.format, raw);
        if pointer.distance != 0 && pointer.distance < POINTER_SIZE {
            return None;
        }
        let value = self.value_of(starts, pointer, raw)?;
        let row = KesvuotFixup {
            address: pointer_address(self.image, place, offset),
            offset,
            segment: index,
            ..value
        };
        Some((row, pointer.distance))
    }

    // The bits of the pointer at an offset, if it ends in its page and in the bytes of the segment.
    fn raw_at(&self, segment: ChainedSegment, page: u64, offset: u64) -> Option<u64>
        requires { CanRead (bytes_of self.now.image) (bytes_of self.now.table) segment }
        ensures raw { result ≡ raw_at (bytes_of self.now.image) segment.place segment.starts page offset }
        ensures near { IfSome result (λ raw. offset < 2 ^ 33) }
    {
        let ChainedSegment { place, starts, .. } = segment;
        if page >= u64::from(starts.page_count) {
            return None;
        }
        let end = starts.page_offset(page as u16) + u64::from(starts.page_size);
        if offset > end || end - offset < POINTER_SIZE {
            return None;
        }
        let place = pointer_place(self.image, place, offset)?;
        Some(self.image.read_u64(Order::Little, place))
    }

    // What a pointer with these bits says, in a row without its location. It is `None` if it binds an import that is
    // not in the table.
    #[tactic(auto, unfolding(crate::specs::ChainedFixups::value_of))]
    fn value_of(
        &self,
        starts: SegmentStarts,
        pointer: ChainPointer,
        raw: u64,
    ) -> Option<KesvuotFixup>
        requires starts { page_start_offset starts 0 ≤ length (bytes_of self.now.table) }
        requires pointer { pointer ≡ pointer_of starts.format raw }
        ensures { result ≡ value_of self.now.base (bytes_of self.now.table) self.now.header starts raw }
    {
        let Some(import) = pointer.import else {
            prove!(self.table.len() <= u64::MAX);
            let number = half_at(self.table, starts.offset + POINTER_FORMAT);
            return Some(rebase_of(self.base, number, starts.format, raw));
        };
        if !has_import(self.table, self.header, import) {
            return None;
        }
        let addend = import_addend(self.table, self.header, import);
        let addend = addend.wrapping_add(own_addend(starts.format, raw));
        Some(bind_of(starts.format, raw, import, addend))
    }
}
