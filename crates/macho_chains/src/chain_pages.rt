//! The pages of the segments in which pointers are chained, and the rules about these pointers. The offset of a
//! pointer is one in its segment. (`mach-o/fixup-chains.h`: `dyld_chained_starts_in_segment`)

ghost use Rattle.std.specs.Prelude.{◌≡◌, ◌↔◌, ◌+◌, ◌^◌, ◌≤◌, ◌<◌, length, None, IsTrue};
ghost use Rattle.macho_fields.specs.Bytes.{bytes_of};
ghost use Rattle.macho_fields.specs.Layers.{NothingBreaks};
ghost use Rattle.macho_fields.specs.Rules.{BreaksImage as Breaks};
ghost use Rattle.macho_fields.specs.Segment.{PassesImage};
ghost use Rattle.macho_chains.specs.ChainPages.{AreLeastPlaces, IsRoom, IsEncryptionOf, IsClear, AtPointer, OfPages};
ghost use Rattle.macho_chains.specs.ChainPointers.{Fits, HasBadNext, BindsNone, BreaksPageSlot, BreaksPageBind, BreaksChainSlot, BreaksChainBind, page_start_offset};
ghost use Rattle.macho_chains.specs.ChainStarts.{entry_offset};
ghost use Rattle.macho_tables.specs.Items.{OfItem};

use crate::chain_pointers::ChainPointer;
use crate::chain_starts::{SegmentStarts, has_bad_entries};
use crate::chains::{ChainedFixups, Chains};
use macho_fields::header::fixup_chains::{
    DYLD_CHAINED_PTR_START_NONE, DYLD_CHAINED_STARTS_IN_SEGMENT_SIZE, PAGE_START_SIZE,
    SEG_INFO_OFFSET_SIZE,
};
use macho_fields::header::loader::{LC_ENCRYPTION_INFO_64, SEGMENT_COMMAND_64_SIZE};
use macho_fields::{Bytes, Order, Span};
use macho_image::{Command, Image, Segment};
use macho_tables::fields::half_at;
use macho_tables::homes::encrypts;
use macho_tables::limits::{POINTER_SIZE, room};
use macho_tables::place::{lesser, note_if};
use macho_tables::segment::is_protected;

/// Where the pointers of the chains first break each of their rules, as places in the image.
#[derive(Clone, Copy)]
pub struct PointerSurvey {
    /// The first pointer whose next one may not be there, or the first page start with no place for a pointer.
    pub slot: Option<u64>,
    /// The first pointer that binds an import which is not there.
    pub bind: Option<u64>,
}

impl PointerSurvey {
    ghost use Rattle.std.specs.Prelude.{◌≡◌, None};
    ghost use Rattle.macho_fields.specs.Layers.{NothingBreaks};
    ghost use Rattle.macho_fields.specs.Rules.{BreaksImage as Breaks};
    ghost use Rattle.macho_chains.specs.ChainPages.{AreLeastPlaces, unbroken_pointers, joined_pointers};
    ghost use Rattle.macho_chains.specs.ChainPointers.{BreaksChainSlot, BreaksChainBind};
    ghost use Rattle.macho_chains.specs.Chains.{AreChainedFixups, InPointers};

    /// Follows the chains of an image that breaks no rule of the layout. Each pointer is read once.
    pub fn of(image: &Image, fixups: &ChainedFixups) -> PointerSurvey
        requires unbroken { NothingBreaks (Breaks image.now None) }
        requires fixups { AreChainedFixups image.now fixups.now }
        ensures { AreLeastPlaces (InPointers image.now BreaksChainSlot) (InPointers image.now BreaksChainBind) result }
    {
        let Some(table) = fixups.table else {
            return PointerSurvey::unbroken();
        };
        match table.header {
            Some(header) => {
                let chains = Chains {
                    start: table.start,
                    bytes: table.bytes,
                    header,
                };
                survey(image, chains)
            }
            None => PointerSurvey::unbroken(),
        }
    }

    // No rule is broken.
    fn unbroken() -> PointerSurvey
        ensures { result ≡ unbroken_pointers }
    {
        PointerSurvey {
            slot: None,
            bind: None,
        }
    }

    // The lesser places of two surveys.
    fn joined(self, other: PointerSurvey) -> PointerSurvey
        ensures { result ≡ joined_pointers self other }
    {
        PointerSurvey {
            slot: lesser(self.slot, other.slot),
            bind: lesser(self.bind, other.bind),
        }
    }
}

// Follows the chains of all segments.
fn survey(image: &Image, chains: Chains) -> PointerSurvey
    requires unbroken { NothingBreaks (Breaks image.now None) }
    requires table { chains.start + length (bytes_of chains.bytes) < 2 ^ 64 }
    ensures { AreLeastPlaces
        (BreaksChainSlot image.now chains.entry.start (bytes_of chains.entry.bytes) chains.entry.header)
        (BreaksChainBind image.now chains.entry.start (bytes_of chains.entry.bytes) chains.entry.header) result }
{
    let mut found = PointerSurvey::unbroken();
    let starts_offset = u64::from(chains.header.starts_offset);
    let Some(count) = chains.bytes.u32_at(Order::Little, starts_offset) else {
        return found;
    };
    if has_bad_entries(image, chains, count) {
        return found;
    }
    let encryption = Encryption::of(image);
    let mut index = 0;
    for segment in image.segments() {
        if index == count {
            return found;
        }
        let other = segment_survey(image, &segment, encryption, chains, index);
        found = found.joined(other);
        index += 1;
    }
    found
}

// Follows the chains of the segment, which has this index.
fn segment_survey(
    image: &Image,
    segment: &Segment,
    encryption: Encryption,
    chains: Chains,
    index: u32,
) -> PointerSurvey
    requires image { segment.now.image ≡ image.now }
    requires structure { segment.now.place + SEGMENT_COMMAND_64_SIZE ≤ length segment.now.image }
    requires file { ¬ PassesImage segment.now.image segment.now.place }
    requires encryption { IsEncryptionOf image.now encryption }
    requires table { chains.start + length (bytes_of chains.bytes) < 2 ^ 64 }
    requires entry { entry_offset chains.header index + SEG_INFO_OFFSET_SIZE ≤ length (bytes_of chains.bytes) }
    ensures { AreLeastPlaces
        (OfPages (bytes_of chains.entry.bytes) chains.entry.header index
        (BreaksPageSlot segment.now.image chains.entry.start (bytes_of chains.entry.bytes) segment.now.place))
        (OfPages (bytes_of chains.entry.bytes) chains.entry.header index
        (BreaksPageBind chains.entry.header.imports_count segment.now.image (bytes_of chains.entry.bytes)
        segment.now.place))
        result }
{
    match chains.header.starts_of(chains.bytes, index) {
        Some(starts) => {
            let limits = ChainLimits {
                room: room_beside(image, segment, encryption),
                imports: chains.header.imports_count,
            };
            pages_survey(segment, chains, starts, limits)
        }
        None => PointerSurvey::unbroken(),
    }
}

// What the pointers of a segment are compared with.
#[derive(Clone, Copy)]
struct ChainLimits {
    // The offset up to which a loader can write the segment as it is in the file.
    room: u64,
    // How many imports there are.
    imports: u32,
}

/// The offset up to which a loader finds the segment as it is in the file, and can write it. It is 0 if a kernel
/// decrypts some of it, or if the image has more than one encrypted range.
pub fn plain_room(image: &Image, segment: &Segment) -> u64
    requires image { segment.now.image ≡ image.now }
    requires structure { segment.now.place + SEGMENT_COMMAND_64_SIZE ≤ length segment.now.image }
    ensures { IsRoom segment.now.image segment.now.place result }
{
    room_beside(image, segment, Encryption::of(image))
}

// The same, where it is known what is encrypted of the image.
fn room_beside(image: &Image, segment: &Segment, encryption: Encryption) -> u64
    requires image { segment.now.image ≡ image.now }
    requires structure { segment.now.place + SEGMENT_COMMAND_64_SIZE ≤ length segment.now.image }
    requires encryption { IsEncryptionOf image.now encryption }
    ensures { IsRoom segment.now.image segment.now.place result }
{
    if !is_protected(segment) && is_clear(image, segment.file_part(), encryption) {
        room(segment)
    } else {
        0
    }
}

// The commands of an image with encrypted ranges. If there are several, no segment has room for pointers, so only the
// first one is ever compared with a segment.
#[derive(Clone, Copy)]
struct Encryption<'a> {
    // The first of them.
    first: Option<Command<'a>>,
    // Whether it is the only one.
    is_single: bool,
}

impl<'a> Encryption<'a> {
    ghost use Rattle.macho_chains.specs.ChainPages.{IsEncryptionOf};

    // Walks over the commands, at most twice.
    fn of(image: &Image<'a>) -> Encryption<'a>
        ensures { IsEncryptionOf image.now result }
    {
        // The commands lie in the image, so their number is below 2^64.
        prove!(image.bytes().len() <= u64::MAX);
        let count = image
            .commands()
            .filter(|command| command.cmd == LC_ENCRYPTION_INFO_64)
            .count();
        Encryption {
            first: image.first_command(LC_ENCRYPTION_INFO_64),
            is_single: count <= 1,
        }
    }
}

// Whether the image has at most one encrypted range, and no byte of the span is in it.
fn is_clear(image: &Image, span: Span, encryption: Encryption) -> bool
    requires { IsEncryptionOf image.now encryption }
    ensures { IsTrue result ↔ IsClear span image.now }
{
    if !encryption.is_single {
        return false;
    }
    match encryption.first {
        Some(command) => !encrypts(image, &command, span),
        None => true,
    }
}

// Follows the chains of the pages of the segment, which has these starts.
fn pages_survey(
    segment: &Segment,
    chains: Chains,
    starts: SegmentStarts,
    limits: ChainLimits,
) -> PointerSurvey
    requires file { ¬ PassesImage segment.now.image segment.now.place }
    requires room { IsRoom segment.now.image segment.now.place limits.room }
    requires table { chains.start + length (bytes_of chains.bytes) < 2 ^ 64 }
    requires starts { page_start_offset starts starts.page_count ≤ length (bytes_of chains.bytes) }
    ensures { AreLeastPlaces
        (OfItem starts.page_count
        (BreaksPageSlot segment.now.image chains.entry.start (bytes_of chains.entry.bytes) segment.now.place starts))
        (OfItem starts.page_count
        (BreaksPageBind limits.imports segment.now.image (bytes_of chains.entry.bytes) segment.now.place starts))
        result }
{
    let mut found = PointerSurvey::unbroken();
    for page in 0..starts.page_count {
        let other = page_survey(segment, chains, starts, page, limits);
        found = found.joined(other);
    }
    found
}

// Follows the chain of a page.
fn page_survey(
    segment: &Segment,
    chains: Chains,
    starts: SegmentStarts,
    page: u16,
    limits: ChainLimits,
) -> PointerSurvey
    requires file { ¬ PassesImage segment.now.image segment.now.place }
    requires room { IsRoom segment.now.image segment.now.place limits.room }
    requires table { chains.start + length (bytes_of chains.bytes) < 2 ^ 64 }
    requires start { page_start_offset starts page + PAGE_START_SIZE ≤ length (bytes_of chains.bytes) }
    ensures { AreLeastPlaces
        (BreaksPageSlot segment.now.image chains.entry.start (bytes_of chains.entry.bytes) segment.now.place starts page)
        (BreaksPageBind limits.imports segment.now.image (bytes_of chains.entry.bytes) segment.now.place starts page)
        result }
{
    let Some(first) = starts.first_offset(chains.bytes, page) else {
        return PointerSurvey::unbroken();
    };
    if first + POINTER_SIZE > starts.page_limit(page, limits.room) {
        return PointerSurvey {
            slot: Some(chains.start + starts.page_start_offset(page)),
            bind: None,
        };
    }
    chain_survey(segment, starts, page, first, limits)
}

// Follows the chain of a page from its first pointer on, which fits. The pointers rise, so the first one with a
// mistake is at the least place.
fn chain_survey(
    segment: &Segment,
    starts: SegmentStarts,
    page: u16,
    first: u64,
    limits: ChainLimits,
) -> PointerSurvey
    requires file { ¬ PassesImage segment.now.image segment.now.place }
    requires room { IsRoom segment.now.image segment.now.place limits.room }
    requires first { Fits segment.now.image segment.now.place starts page first }
    ensures { AreLeastPlaces
        (AtPointer segment.now.image segment.now.place starts page first
        (HasBadNext segment.now.image segment.now.place starts page))
        (AtPointer segment.now.image segment.now.place starts page first
        (BindsNone segment.now.image segment.now.place starts limits.imports))
        result }
{
    let image = segment.image();
    let start = segment.fileoff();
    let last = starts.page_limit(page, limits.room) - POINTER_SIZE;
    let mut bind = None;
    let mut offset = first;
    loop {
        let place = start + offset;
        let pointer = ChainPointer::read(image, starts.format, place);
        note_if(&mut bind, pointer.binds_none(limits.imports), place);
        let Some(next) = pointer.next(offset, last) else {
            let slot = if pointer.distance > 0 {
                Some(place)
            } else {
                None
            };
            return PointerSurvey { slot, bind };
        };
        offset = next;
    }
}

impl ChainPointer {
    ghost use Rattle.std.specs.Prelude.{◌≡◌, ◌⊎◌, ◌+◌, ◌≤◌, ◌<◌, MatchOption};

    // The offset of the next pointer, if there is one past this one that begins no later than the last.
    #[inline(always)]
    fn next(self, offset: u64, last: u64) -> Option<u64>
        requires { offset ≤ last }
        ensures { MatchOption result
            ((self.distance < POINTER_SIZE) ⊎ (last < offset + self.distance))
            (λ next. (next ≡ offset + self.distance) × (POINTER_SIZE ≤ self.distance) × (next ≤ last)) }
    {
        if self.distance < POINTER_SIZE || self.distance > last - offset {
            return None;
        }
        Some(offset + self.distance)
    }
}

impl SegmentStarts {
    ghost use Rattle.std.specs.Prelude.{◌≡◌, ◌+◌, ◌*◌, ◌^◌, ◌≤◌, ◌<◌, length, min, suc, IfSome, MatchOption};
    ghost use Rattle.macho_fields.specs.Bytes.{bytes_of};
    ghost use Rattle.macho_chains.specs.ChainPointers.{page_start, page_start_offset, first_offset, HasChain};

    // Where the chain of a page begins, as an offset in the page, or `DYLD_CHAINED_PTR_START_NONE`.
    fn page_start(self, chains: Bytes, page: u16) -> u16
        requires { page_start_offset self page + PAGE_START_SIZE ≤ length (bytes_of chains) }
        ensures { result ≡ page_start (bytes_of chains.entry) self page }
    {
        half_at(chains, self.page_start_offset(page))
    }

    // Where the table says this.
    fn page_start_offset(self, page: u16) -> u64
        requires { page_start_offset self page < 2 ^ 64 }
        ensures { result ≡ page_start_offset self page }
    {
        let page_starts = self.offset + DYLD_CHAINED_STARTS_IN_SEGMENT_SIZE;
        page_starts + u64::from(page) * PAGE_START_SIZE
    }

    // Where the chain of a page begins, as an offset in the segment. It is `None` if the page has no chain.
    fn first_offset(self, chains: Bytes, page: u16) -> Option<u64>
        requires { page_start_offset self page + PAGE_START_SIZE ≤ length (bytes_of chains) }
        ensures first { MatchOption result (¬ HasChain (bytes_of chains.entry) self page)
            (λ first. HasChain (bytes_of chains.entry) self page
            × (first ≡ first_offset (bytes_of chains.entry) self page)) }
        ensures near { IfSome result (λ first. first < 2 ^ 33) }
    {
        let start = self.page_start(chains, page);
        if start == DYLD_CHAINED_PTR_START_NONE {
            return None;
        }
        Some(self.page_offset(page) + u64::from(start))
    }

    /// Where a page begins, as an offset in the segment.
    pub fn page_offset(self, page: u16) -> u64
        ensures start { result ≡ page * self.page_size }
        ensures near { result < 2 ^ 32 }
    {
        u64::from(page) * u64::from(self.page_size)
    }

    /// The offset in the segment at which the pointers of a page end at the latest: where the page ends, or the
    /// room.
    pub fn page_limit(self, page: u16, room: u64) -> u64
        ensures { result ≡ min (suc page * self.page_size) room }
    {
        let page_end = self.page_offset(page) + u64::from(self.page_size);
        page_end.min(room)
    }
}
