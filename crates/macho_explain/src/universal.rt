//! The rules under which two readers take one slice of a universal file. (`mach-o/fat.h`)

ghost use Rattle.std.specs.Prelude.{◌≡◌, ◌↔◌, ◌+◌, ◌-◌, ◌<◌, IsTrue, MatchOption};
ghost use Rattle.macho_fields.specs.Bytes.{bytes_of};
ghost use Rattle.macho_fields.specs.declared.rule.Rule.{Rule};
ghost use Rattle.macho_fat.specs.Slices.{slice_of};
ghost use Rattle.macho_explain.specs.Explained.{ExplainsFile};
ghost use Rattle.macho_explain.specs.Readers.{BeginsSlice, HasNoneWithin, HasOtherMagic, header_arch as header_arch_of, magic_of as magic_of_type, slice_word as slice_word_of};
ghost use Rattle.macho_readers.specs.Pages.{page_size as page_size_of, page_end};

use crate::conflict::Conflict;
use crate::entries::{
    arch_number, big_word, entry_count, entry_here, fat_table, header_here, magic_part, slice_part,
    slice_with_index,
};
use crate::explanation::Explanation;
use crate::part::{Part, PartKind, clamped, structure};
use macho_fat::Slice;
use macho_fields::header::fat::fat_arch::CPUSUBTYPE as ENTRY_CPUSUBTYPE;
use macho_fields::header::loader::mach_header_64::{CPUSUBTYPE, CPUTYPE};
use macho_fields::header::loader::{MACH_HEADER_64_SIZE, MH_MAGIC, MH_MAGIC_64};
use macho_fields::{Bytes, Order};
use macho_readers::files::{LEAST_CLASS_COUNT, is_judged, is_of_64_bits};
use macho_readers::pages::page_size;
use macho_rows::parts::part_or_none;

// The offset of the magic number in the header of an image.
const MAGIC: u64 = 0;

// How many entries there are, and from how many on a reader takes the file for a Java class.
#[inline(never)]
pub(crate) fn fat_count(file: Bytes, place: u64) -> Option<Explanation>
    ensures { ExplainsFile Rule.FatCount (bytes_of file.entry) place result }
{
    let at = header_here(file, place)?;
    let count = u64::from(big_word(file, place));
    Some(at.shows(Conflict::alone(fat_table(file), count, LEAST_CLASS_COUNT)))
}

// The magic number of the slice, and the one for the processor of its entry; or the processor by the entry, and by the
// header.
#[inline(never)]
pub(crate) fn fat_header(file: Bytes, place: u64) -> Option<Explanation>
    ensures { ExplainsFile Rule.FatHeader (bytes_of file.entry) place result }
{
    let (at, index, slice) = entry_here(file, place)?;
    let own = slice_part(file, index, &slice);
    let cputype = big_word(file, place);
    let (start, len) = (slice.span.start, slice.span.len);
    if has_other_magic(file, &slice, cputype) {
        let magic = magic_part(start, len, Some(index));
        let found = u64::from(slice_word(file, &slice, Order::Little, MAGIC));
        let wanted = u64::from(magic_of(cputype));
        return Some(at.shows(Conflict::of(own, magic, found, wanted)));
    }
    let cpusubtype = big_word(file, place.saturating_add(ENTRY_CPUSUBTYPE));
    let header = structure(PartKind::Header, start, len.min(MACH_HEADER_64_SIZE), None);
    let (one, other) = (
        arch_number((cputype, cpusubtype)),
        header_arch(file, &slice),
    );
    Some(at.shows(Conflict::of(own, header, one, other)))
}

// The magic number of an image for a processor.
fn magic_of(cputype: u32) -> u32
    ensures { result ≡ magic_of_type cputype }
{
    if is_of_64_bits(cputype) {
        MH_MAGIC_64
    } else {
        MH_MAGIC
    }
}

// Whether the slice does not begin with the magic number of an image for the processor. It may have it in the other
// order if the processor is not judged.
fn has_other_magic(file: Bytes, slice: &Slice, cputype: u32) -> bool
    ensures { IsTrue result ↔ HasOtherMagic (bytes_of file.entry) (slice_of slice.now) cputype }
{
    let wanted = magic_of(cputype);
    slice_word(file, slice, Order::Little, MAGIC) != wanted
        && (is_judged(cputype) || slice_word(file, slice, Order::Big, MAGIC) != wanted)
}

// The number of the architecture in the header of the slice.
fn header_arch(file: Bytes, slice: &Slice) -> u64
    ensures { result ≡ header_arch_of (bytes_of file.entry) (slice_of slice.now) }
{
    let order = match slice_word(file, slice, Order::Big, MAGIC) {
        MH_MAGIC | MH_MAGIC_64 => Order::Big,
        _ => Order::Little,
    };
    let cputype = slice_word(file, slice, order, CPUTYPE);
    arch_number((cputype, slice_word(file, slice, order, CPUSUBTYPE)))
}

// The word at an offset of the slice, or 0 past its end.
fn slice_word(file: Bytes, slice: &Slice, order: Order, offset: u64) -> u32
    ensures { result ≡ slice_word_of (bytes_of file.entry) (slice_of slice.now) order offset }
{
    let bytes = Bytes::new(part_or_none(file, slice.span));
    match bytes.u32_at(order, offset) {
        Some(word) => word,
        None => 0,
    }
}

// Where the slice begins, and the size of a page; or the first slice that begins in its pages, and where these end.
#[inline(never)]
pub(crate) fn fat_page(file: Bytes, place: u64) -> Option<Explanation>
    ensures { ExplainsFile Rule.FatPage (bytes_of file.entry) place result }
{
    let (at, index, slice) = entry_here(file, place)?;
    let own = slice_part(file, index, &slice);
    let cputype = big_word(file, place);
    let (start, page) = (slice.span.start, page_size(cputype));
    if start % page != 0 {
        return Some(at.shows(Conflict::alone(own, start, page)));
    }
    let end = pages_end(&slice, cputype);
    let (next, other) = first_within(file, start, end)?;
    Some(at.shows(Conflict::of(own, next, other, clamped(end))))
}

// Where the pages end that have a byte of the slice, which is for this processor.
fn pages_end(slice: &Slice, cputype: u32) -> u128
    ensures { result ≡ page_end (page_size_of cputype) (slice.now.span.start + slice.now.span.len - 1) }
{
    let (start, len) = (slice.span.start, slice.span.len);
    let last = (u128::from(start) + u128::from(len)).saturating_sub(1);
    let page = u128::from(page_size(cputype));
    (last / page + 1) * page
}

// The first slice that begins after the start and before the end, and where it begins.
fn first_within(file: Bytes, start: u64, end: u128) -> Option<(Part, u64)>
    ensures { MatchOption result (HasNoneWithin (bytes_of file.entry) start end)
        (λ found. (start < found.1) × (found.1 < end) × BeginsSlice (bytes_of file.entry) found.1) }
{
    for index in 0..entry_count(file) {
        let slice = slice_with_index(file, index)?;
        if begins_within(&slice, start, end) {
            return Some((slice_part(file, index, &slice), slice.span.start));
        }
    }
    None
}

// Whether the slice begins after the start and before the end.
fn begins_within(slice: &Slice, start: u64, end: u128) -> bool
    ensures { IsTrue result ↔ (start < slice.now.span.start) × (slice.now.span.start < end) }
{
    start < slice.span.start && u128::from(slice.span.start) < end
}
