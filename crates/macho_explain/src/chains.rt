//! The rules of the table of chained fixups. (`mach-o/fixup-chains.h`)

ghost use Rattle.std.specs.Prelude.{◌≡◌, ◌≢◌, ◌+◌, ◌^◌, ◌≤◌, ◌<◌, ℕ, List, suc, length, IfNone, IfSome, MatchOption, None, Some};
ghost use Rattle.macho_fields.specs.Bytes.{bytes_of};
ghost use Rattle.macho_fields.specs.declared.rule.Rule.{Rule};
ghost use Rattle.macho_chains.specs.ChainImports.{ImportsEndPast, import_offset as import_offset_of, names_size as names_size_of};
ghost use Rattle.macho_chains.specs.ChainStarts.{entry_offset as entry_offset_of, starts_of};
ghost use Rattle.macho_fields.specs.Image.{word};
ghost use Rattle.macho_chains.specs.declared.chain_header.ChainHeader.{ChainHeader};
ghost use Rattle.macho_spans.specs.declared.span.Span.{Span};
ghost use Rattle.macho_explain.specs.Compared.{IsChainSize};
ghost use Rattle.macho_explain.specs.Fixups.{AreChains, IsEntryAt, IsImportAt};
ghost use Rattle.macho_explain.specs.Wholes.{Opens};
ghost use Rattle.macho_explain.specs.Explained.{Explains, ExplainsIn, IsSpot};

use crate::command::command_here;
use crate::conflict::Conflict;
use crate::explanation::Explanation;
use crate::item::short_item_at;
use crate::part::{Part, PartKind, below_zero, clamped};
use crate::segment::segment_at;
use crate::sliced::Sliced;
use crate::table::Bounded;
use crate::whole::{Whole, data_table, whole_table};
use macho_chains::chain_header::ChainHeader;
use macho_chains::chain_imports::{Ordinal, name_size};
use macho_chains::chain_starts::{SegmentStarts, segment_count};
use macho_fields::header::fixup_chains::{
    DYLD_CHAINED_FIXUPS_HEADER_SIZE, DYLD_CHAINED_STARTS_IN_IMAGE_SIZE,
    DYLD_CHAINED_STARTS_IN_SEGMENT_SIZE, SEG_INFO_OFFSET_SIZE,
};
use macho_fields::header::loader::LC_DYLD_CHAINED_FIXUPS;
use macho_fields::{Bytes, Order, Span};
use macho_tables::limits::library_count;

// The table of chained fixups, its bytes, and what its header says.
#[derive(Clone, Copy)]
pub(crate) struct Chains<'a> {
    pub(crate) table: Bounded,
    pub(crate) bytes: Bytes<'a>,
    pub(crate) header: ChainHeader,
}

// The table of chained fixups, if its header can be read.
pub(crate) fn chains_of<'a>(sliced: &Sliced<'a>) -> Option<Chains<'a>>
    ensures size { IfSome result (λ chains. IsChainSize (bytes_of sliced.now.held.bytes) chains.table.span.len) }
    ensures chains { MatchOption result
        (Opens (bytes_of sliced.now.held.bytes) → (table : Span) (bytes : List ℕ) (header : ChainHeader)
        → ¬ AreChains (bytes_of sliced.now.held.bytes) table bytes header)
        (λ chains. AreChains (bytes_of sliced.now.held.bytes) chains.table.span (bytes_of chains.bytes) chains.header) }
{
    let Whole { table, bytes } = whole_table(sliced, LC_DYLD_CHAINED_FIXUPS)?;
    let header = ChainHeader::read(bytes)?;
    Some(Chains {
        table,
        bytes,
        header,
    })
}

// The header of a table that begins at a place, or all of a table that has fewer bytes.
pub(crate) fn header_at(sliced: &Sliced, table: &Bounded, place: u64) -> Option<Part>
    ensures { IfNone result (place ≢ table.now.span.start) }
{
    if place != table.span.start {
        return None;
    }
    let size = table.span.len.min(DYLD_CHAINED_FIXUPS_HEADER_SIZE);
    Some(sliced.structure(PartKind::ChainHeader, place, size, None))
}

// The header: there is no table, it is shorter, or a field is not known.
#[inline(never)]
pub(crate) fn chain_header(sliced: &Sliced) -> Option<Explanation>
    ensures { ExplainsIn Rule.ChainHeader sliced.now result }
{
    let table = data_table(sliced, LC_DYLD_CHAINED_FIXUPS)?;
    let size = table.span.len;
    if size == 0 {
        let (at, _) = command_here(sliced)?;
        return Some(at.shows(Conflict::numbers(size, DYLD_CHAINED_FIXUPS_HEADER_SIZE)));
    }
    let header = header_at(sliced, &table, sliced.place)?;
    let conflict = Conflict::alone(table.part, size, DYLD_CHAINED_FIXUPS_HEADER_SIZE);
    Some(sliced.at(header).shows(conflict))
}

// The starts: the table ends before `seg_count` does, or what is at the place is broken.
#[inline(never)]
pub(crate) fn chain_starts(sliced: &Sliced) -> Option<Explanation>
    ensures { ExplainsIn Rule.ChainStarts sliced.now result }
{
    let chains = chains_of(sliced)?;
    let table = &chains.table;
    let starts_offset = u64::from(chains.header.starts_offset);
    let entries = starts_offset + DYLD_CHAINED_STARTS_IN_IMAGE_SIZE;
    if entries > table.span.len {
        let header = header_at(sliced, table, sliced.place)?;
        let conflict = Conflict::alone(table.part, entries, table.span.len);
        return Some(sliced.at(header).shows(conflict));
    }
    if sliced.place == table.span.start.saturating_add(starts_offset) {
        at_array(sliced, &chains)
    } else {
        at_entry(sliced, &chains)
    }
}

// The array of the segments, at the place.
fn at_array(sliced: &Sliced, chains: &Chains) -> Option<Explanation>
    ensures { MatchOption result (¬ Opens (bytes_of sliced.now.held.bytes)) (Explains Rule.ChainStarts sliced.now) }
{
    let segments = segment_count(&sliced.held.open()?);
    let count = u64::from(sliced.word(sliced.place));
    let size = DYLD_CHAINED_STARTS_IN_IMAGE_SIZE;
    let array = sliced.structure(PartKind::ChainArray, sliced.place, size, None);
    let conflict = Conflict::alone(chains.table.part, count, segments);
    Some(sliced.at(array).shows(conflict))
}

// The entry at the place, and the starts of its segment.
fn at_entry(sliced: &Sliced, chains: &Chains) -> Option<Explanation>
    requires { IsChainSize (bytes_of sliced.now.held.bytes) chains.now.table.span.len }
    ensures { MatchOption result ((offset : ℕ) → sliced.now.place ≡ chains.now.table.span.start + offset
        → ¬ (Opens (bytes_of sliced.now.held.bytes) × IsEntryAt (bytes_of chains.now.bytes) chains.now.header offset))
        (Explains Rule.ChainStarts sliced.now) }
{
    let Span { start, len } = chains.table.span;
    let (index, offset) = chains.entry_at(sliced.place.checked_sub(start)?)?;
    let image = sliced.held.open()?;
    let second = match image.segments().nth(index as usize) {
        Some(segment) => segment_at(sliced, segment.place()),
        None => None,
    };
    let span = Span {
        start: start.saturating_add(offset),
        len: starts_size(chains.bytes, offset),
    };
    let starts = sliced.described(PartKind::ChainStarts, span, sliced.place, Some(index));
    let size = SEG_INFO_OFFSET_SIZE;
    let entry = sliced.structure(PartKind::ChainEntry, sliced.place, size, Some(index));
    Some(
        sliced.at(entry).shows(Conflict {
            second,
            ..Conflict::alone(starts, offset.saturating_add(span.len), len)
        }),
    )
}

// How many bytes the starts at an offset of the table have, by their first field, `size`. If the table ends before
// their fields do, it is the size of the fields.
fn starts_size(chains: Bytes, offset: u64) -> u64 {
    let fields = Span {
        start: offset,
        len: DYLD_CHAINED_STARTS_IN_SEGMENT_SIZE,
    };
    if !chains.contains(fields) {
        return DYLD_CHAINED_STARTS_IN_SEGMENT_SIZE;
    }
    u64::from(chains.read_u32(Order::Little, offset))
}

// The imports: they end past the table, or the name of the one at the place does not end.
#[inline(never)]
pub(crate) fn chain_imports(sliced: &Sliced) -> Option<Explanation>
    ensures { ExplainsIn Rule.ChainImports sliced.now result }
{
    let chains = chains_of(sliced)?;
    let (table, header) = (chains.table, chains.header);
    let size = table.span.len;
    if header.imports_end_past(chains.bytes) {
        let part = header_at(sliced, &table, sliced.place)?;
        let end = header.import_offset(header.imports_count);
        return Some(
            sliced
                .at(part)
                .shows(Conflict::alone(table.part, end, size)),
        );
    }
    let index = chains.import_at(sliced.place)?;
    let name = header.name_start(chains.bytes, index);
    Some(at_import(sliced, &chains, index, name, size))
}

// The import at the place, with which the names have more bytes than the table.
#[inline(never)]
pub(crate) fn chain_total(sliced: &Sliced) -> Option<Explanation>
    ensures { ExplainsIn Rule.ChainTotal sliced.now result }
{
    let chains = chains_of(sliced)?;
    let index = chains.import_at(sliced.place)?;
    let names = clamped(chains.names_size(index)?);
    let size = chains.table.span.len;
    Some(at_import(sliced, &chains, index, names, size))
}

// The import at the place, which is from no library.
#[inline(never)]
pub(crate) fn chain_library(sliced: &Sliced) -> Option<Explanation>
    ensures { ExplainsIn Rule.ChainLibrary sliced.now result }
{
    let chains = chains_of(sliced)?;
    let index = chains.import_at(sliced.place)?;
    let ordinal = match chains.header.import(chains.bytes, index).ordinal {
        Ordinal::Library(number) => number,
        Ordinal::Special(below) => below_zero(below),
    };
    let libraries = library_count(&sliced.held.open()?);
    Some(at_import(sliced, &chains, index, ordinal, libraries))
}

// The import with this index, at the place.
fn at_import(sliced: &Sliced, chains: &Chains, index: u32, value: u64, limit: u64) -> Explanation
    ensures spot { IsSpot sliced.now result.at }
    ensures limit { result.conflict.limit ≡ limit }
{
    let size = chains.header.imports_format.bits().size;
    let part = sliced.structure(PartKind::ChainImport, sliced.place, size, Some(index));
    let conflict = Conflict::alone(chains.table.part, value, limit);
    sliced.at(part).shows(conflict)
}

impl Chains<'_> {
    // The offset in the table of the entry of the segment with this index.
    pub(crate) fn entry_offset(&self, index: u32) -> u64
        ensures { result ≡ entry_offset_of self.now.header index }
    {
        let entries = u64::from(self.header.starts_offset) + DYLD_CHAINED_STARTS_IN_IMAGE_SIZE;
        entries + u64::from(index) * SEG_INFO_OFFSET_SIZE
    }

    // The starts of the segment with this index, if it has some that can be read.
    pub(crate) fn starts_of(&self, index: u32) -> Option<SegmentStarts>
        ensures { IsEntryAt (bytes_of self.now.bytes) self.now.header (entry_offset_of self.now.header index)
            → result ≡ starts_of (bytes_of self.now.bytes) self.now.header index }
    {
        let (_, offset) = self.entry_at(self.entry_offset(index))?;
        SegmentStarts::read(self.bytes, offset)
    }

    // The index of the entry at an offset of the table, and the offset of the starts of its segment, if it
    // has some.
    fn entry_at(&self, offset: u64) -> Option<(u32, u64)>
        ensures { MatchOption result (¬ IsEntryAt (bytes_of self.now.bytes) self.now.header offset)
            (λ found. (offset ≡ entry_offset_of self.now.header found.0) × (word (bytes_of self.now.bytes) offset ≢ 0)
            × (found.1 ≡ self.now.header.starts_offset + word (bytes_of self.now.bytes) offset)) }
    {
        let starts_offset = u64::from(self.header.starts_offset);
        let count = self.bytes.u32_at(Order::Little, starts_offset)?;
        let first = starts_offset + DYLD_CHAINED_STARTS_IN_IMAGE_SIZE;
        let index = short_item_at(first, SEG_INFO_OFFSET_SIZE, count, offset)?;
        let entry = self.bytes.u32_at(Order::Little, offset)?;
        if entry == 0 {
            return None;
        }
        Some((index, starts_offset + u64::from(entry)))
    }

    // The index of the import at a place of the image. It is `None` if the imports end past the table.
    fn import_at(&self, place: u64) -> Option<u32>
        ensures inside { IfSome result (λ index. ¬ ImportsEndPast (bytes_of self.now.bytes) self.now.header) }
        ensures listed { IfSome result (λ index. index < self.now.header.imports_count) }
        ensures at { MatchOption result ((offset : ℕ) → place ≡ self.now.table.span.start + offset
            → ¬ IsImportAt (bytes_of self.now.bytes) self.now.header offset)
            (λ index. place ≡ self.now.table.span.start + import_offset_of self.now.header index) }
    {
        let header = self.header;
        let offset = place.checked_sub(self.table.span.start)?;
        if header.imports_end_past(self.bytes) {
            return None;
        }
        let size = header.imports_format.bits().size;
        let start = u64::from(header.imports_offset);
        short_item_at(start, size, header.imports_count, offset)
    }

    // How many bytes the names of the imports up to this index have, with a zero byte for each. It is `None` if the
    // names before the last one have more bytes than the table.
    fn names_size(&self, index: u32) -> Option<u128>
        requires inside { ¬ ImportsEndPast (bytes_of self.now.bytes) self.now.header }
        requires listed { index < self.now.header.imports_count }
        ensures { MatchOption result
            (length (bytes_of self.now.bytes) < names_size_of (bytes_of self.now.bytes) self.now.header index)
            (λ size. size ≡ names_size_of (bytes_of self.now.bytes) self.now.header (suc index)) }
    {
        let mut total: u128 = 0;
        for earlier in 0..index {
            total = total.saturating_add(self.name_size(earlier));
            if total > u128::from(self.bytes.len()) {
                return None;
            }
        }
        Some(total.saturating_add(self.name_size(index)))
    }

    // How many bytes the name of the import with this index has, with its zero byte.
    fn name_size(&self, index: u32) -> u128
        requires inside { ¬ ImportsEndPast (bytes_of self.now.bytes) self.now.header }
        requires listed { index < self.now.header.imports_count }
        ensures size { result + names_size_of (bytes_of self.now.bytes) self.now.header index
            ≡ names_size_of (bytes_of self.now.bytes) self.now.header (suc index) }
        ensures near { result ≤ 2 ^ 64 }
    {
        name_size(self.bytes, self.header.name_start(self.bytes, index))
    }
}
