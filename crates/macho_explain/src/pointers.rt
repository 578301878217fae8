//! The rules of the pointers that are chained in the pages of the segments. (`mach-o/fixup-chains.h`)

ghost use Rattle.std.specs.Prelude.{◌≡◌, ◌≢◌, ◌≤◌, ◌<◌, ℕ, IfNone, IsSomeAnd, MatchOption, Some};
ghost use Rattle.macho_fields.specs.Bytes.{bytes_of};
ghost use Rattle.macho_fields.specs.declared.rule.Rule.{Rule};
ghost use Rattle.macho_chains.specs.ChainPointers.{page_start_offset, pointer_of};
ghost use Rattle.macho_explain.specs.Explained.{ExplainsIn};
ghost use Rattle.macho_explain.specs.Explain.{long_at};
ghost use Rattle.macho_explain.specs.Compared.{Binds};
ghost use Rattle.macho_explain.specs.Fixups.{HasLeadIn, HasMissingIn, IsLinked, IsPageStart, LeadsOn};

use crate::chains::{Chains, chains_of, header_at};
use crate::conflict::Conflict;
use crate::explanation::Explanation;
use crate::item::item_at;
use crate::part::{Part, PartKind, index_of};
use crate::segment::segment_at;
use crate::sliced::Sliced;
use macho_chains::chain_pages::plain_room;
use macho_chains::chain_pointers::ChainPointer;
use macho_chains::chain_starts::SegmentStarts;
use macho_fields::header::fixup_chains::{
    DYLD_CHAINED_PTR_START_NONE, DYLD_CHAINED_STARTS_IN_SEGMENT_SIZE, PAGE_START_SIZE,
};
use macho_fields::{Order, Span};
use macho_image::Image;
use macho_tables::limits::POINTER_SIZE;

// A segment that has starts.
#[derive(Clone, Copy)]
struct Chained {
    index: u32,
    // Where its command begins in the image.
    command: u64,
    starts: SegmentStarts,
    // The offset up to which a loader can write it as it is in the file.
    room: u64,
}

// A structure of a page of the segment, and where the pointer to which it leads begins in the segment.
#[derive(Clone, Copy)]
struct Lead {
    at: Part,
    page: u16,
    next: u64,
}

// The page start, or the pointer, at the place: it leads to a pointer without enough room.
#[inline(never)]
pub(crate) fn chain_slot(sliced: &Sliced) -> Option<Explanation>
    ensures { ExplainsIn Rule.ChainSlot sliced.now result }
{
    let chains = chains_of(sliced)?;
    let (segment, lead) = find_lead(sliced, &sliced.held.open()?, &chains)?;
    let starts = starts_part(sliced, &chains, &segment);
    let end = lead.next.saturating_add(POINTER_SIZE);
    let limit = segment.starts.page_limit(lead.page, segment.room);
    Some(
        sliced.at(lead.at).shows(Conflict {
            second: segment_at(sliced, segment.command),
            ..Conflict::alone(starts, end, limit)
        }),
    )
}

// The first segment in which the place leads to a pointer.
fn find_lead(sliced: &Sliced, image: &Image, chains: &Chains) -> Option<(Chained, Lead)>
    requires { image.now ≡ bytes_of sliced.now.held.bytes }
    ensures { IfNone result (¬ HasLeadIn (bytes_of sliced.now.held.bytes) chains.now.table.span.start
        (bytes_of chains.now.bytes) chains.now.header sliced.now.place) }
{
    let starts_offset = u64::from(chains.header.starts_offset);
    let count = chains.bytes.u32_at(Order::Little, starts_offset)?;
    let mut index: u32 = 0;
    for segment in image.segments() {
        if index == count {
            return None;
        }
        if let Some(starts) = chains.starts_of(index)
            && let Some(lead) = lead_at(sliced, chains, segment.file_part(), starts)
        {
            let found = Chained {
                index,
                command: segment.place(),
                starts,
                room: plain_room(image, &segment),
            };
            return Some((found, lead));
        }
        index += 1;
    }
    None
}

// The page start, or the pointer, at the place, of a segment with these bytes and starts.
fn lead_at(sliced: &Sliced, chains: &Chains, bytes: Span, starts: SegmentStarts) -> Option<Lead>
    ensures { IfNone result (¬ LeadsOn (bytes_of sliced.now.held.bytes) chains.now.table.span.start
        (bytes_of chains.now.bytes) bytes starts sliced.now.place) }
{
    if let Some(lead) = from_start(sliced, chains, starts) {
        return Some(lead);
    }
    from_pointer(sliced, bytes, starts)
}

// The pointer at the place, which binds an import that is not there.
#[inline(never)]
pub(crate) fn chain_bind(sliced: &Sliced) -> Option<Explanation>
    ensures { ExplainsIn Rule.ChainBind sliced.now result }
{
    let chains = chains_of(sliced)?;
    let bound = find_bound(sliced, &sliced.held.open()?, &chains)?;
    let header = header_at(sliced, &chains.table, chains.table.span.start)?;
    let count = u64::from(chains.header.imports_count);
    Some(
        sliced.at(bound.at).shows(Conflict {
            second: segment_at(sliced, bound.command),
            ..Conflict::alone(header, bound.import, count)
        }),
    )
}

// A pointer that binds an import which is not there, and the command of its segment.
#[derive(Clone, Copy)]
struct Bound {
    at: Part,
    command: u64,
    import: u64,
}

// The pointer at the place, in the first segment by whose starts it binds an import that is not there.
fn find_bound(sliced: &Sliced, image: &Image, chains: &Chains) -> Option<Bound>
    requires { image.now ≡ bytes_of sliced.now.held.bytes }
    ensures { MatchOption result
        (¬ HasMissingIn (bytes_of sliced.now.held.bytes) (bytes_of chains.now.bytes) chains.now.header sliced.now.place)
        (λ bound. Binds (bytes_of sliced.now.held.bytes) sliced.now.place bound.import
        × (chains.now.header.imports_count ≤ bound.import)) }
{
    let starts_offset = u64::from(chains.header.starts_offset);
    let count = chains.bytes.u32_at(Order::Little, starts_offset)?;
    let mut index: u32 = 0;
    for segment in image.segments() {
        if index == count {
            return None;
        }
        if segment.file_part().holds(sliced.place)
            && let Some(starts) = chains.starts_of(index)
            && let Some(import) = missing_import(sliced, chains, starts)
        {
            return Some(Bound {
                at: pointer_part(sliced, starts, segment.fileoff()),
                command: segment.place(),
                import,
            });
        }
        index += 1;
    }
    None
}

// The import that the pointer at the place binds, if it is not there.
fn missing_import(sliced: &Sliced, chains: &Chains, starts: SegmentStarts) -> Option<u64>
    ensures { MatchOption result
        (¬ IsSomeAnd (pointer_of starts.format (long_at (bytes_of sliced.now.held.bytes) sliced.now.place)).import
        (λ import. chains.now.header.imports_count ≤ import))
        (λ import. ((pointer_of starts.format (long_at (bytes_of sliced.now.held.bytes) sliced.now.place)).import
        ≡ Some import) × (chains.now.header.imports_count ≤ import)) }
{
    let import = ChainPointer::of(starts.format, sliced.long(sliced.place)).import?;
    if import < u64::from(chains.header.imports_count) {
        return None;
    }
    Some(import)
}

// The pointer at the place, with the index of its page, in a segment whose bytes begin at an offset of the image.
fn pointer_part(sliced: &Sliced, starts: SegmentStarts, fileoff: u64) -> Part {
    let offset = sliced.place.saturating_sub(fileoff);
    let page = match offset.checked_div(u64::from(starts.page_size)) {
        Some(page) => index_of(page),
        None => None,
    };
    sliced.structure(PartKind::ChainPointer, sliced.place, POINTER_SIZE, page)
}

// The page whose start is at an offset of the table.
fn page_at(starts: SegmentStarts, offset: u64) -> Option<u16>
    ensures { IfNone result ((page : ℕ) → page < starts.page_count → offset ≢ page_start_offset starts page) }
{
    let first = starts
        .offset
        .checked_add(DYLD_CHAINED_STARTS_IN_SEGMENT_SIZE)?;
    let page = item_at(first, PAGE_START_SIZE, u64::from(starts.page_count), offset)?;
    Some(page as u16)
}

// The start of a page, at the place. It leads to the first pointer, if the page has a chain.
fn from_start(sliced: &Sliced, chains: &Chains, starts: SegmentStarts) -> Option<Lead>
    ensures { IfNone result (¬ IsPageStart chains.now.table.span.start (bytes_of chains.now.bytes) starts sliced.now.place) }
{
    let place = sliced.place;
    let offset = place.checked_sub(chains.table.span.start)?;
    let page = page_at(starts, offset)?;
    let start = chains.bytes.u16_at(Order::Little, offset)?;
    if start == DYLD_CHAINED_PTR_START_NONE {
        return None;
    }
    let index = Some(u32::from(page));
    Some(Lead {
        at: sliced.structure(PartKind::PageStart, place, PAGE_START_SIZE, index),
        page,
        next: starts.page_offset(page) + u64::from(start),
    })
}

// The pointer at the place, among the bytes of a segment. It leads to the next one, if it says that there is one.
fn from_pointer(sliced: &Sliced, bytes: Span, starts: SegmentStarts) -> Option<Lead>
    ensures { IfNone result (¬ IsLinked (bytes_of sliced.now.held.bytes) bytes starts sliced.now.place) }
{
    if !bytes.holds(sliced.place) {
        return None;
    }
    let offset = sliced.place - bytes.start;
    let page = offset.checked_div(u64::from(starts.page_size))?;
    let distance = ChainPointer::of(starts.format, sliced.long(sliced.place)).distance;
    if page >= u64::from(starts.page_count) || distance == 0 {
        return None;
    }
    Some(Lead {
        at: pointer_part(sliced, starts, bytes.start),
        page: page as u16,
        next: offset.saturating_add(distance),
    })
}

// The starts of the segment, which its entry describes.
fn starts_part(sliced: &Sliced, chains: &Chains, segment: &Chained) -> Part {
    let table = chains.table.span.start;
    let span = Span {
        start: table.saturating_add(segment.starts.offset),
        len: u64::from(segment.starts.size),
    };
    let entry = table.saturating_add(chains.entry_offset(segment.index));
    sliced.described(PartKind::ChainStarts, span, entry, Some(segment.index))
}
