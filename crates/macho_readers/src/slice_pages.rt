//! The rule of the pages of slices: whether a kernel that maps a slice shows bytes of another one. (`mach-o/fat.h`)

ghost use Rattle.std.specs.Prelude.{◌≡◌, ◌+◌, ◌-◌, ◌≤◌, ◌<◌, ◌^◌, ◌↔◌, IsTrue, IfOk, OnErr, IsPermutation, length};
ghost use Rattle.std.specs.List.Sorted.{IsNonDecreasingBy};
ghost use Rattle.macho_fields.specs.FirstPlace.{IsLeastPlace};
ghost use Rattle.macho_fields.specs.Universal.{IsUniversal, entry_place, slices_of};
ghost use Rattle.macho_spans.specs.Overlap.{span_at, sorted_spans};
ghost use Rattle.macho_strict.specs.Verdict.{slice_spans};
ghost use Rattle.macho_readers.specs.Files.{BeginsWithin, IsOffPages, BreaksFatPage};
ghost use Rattle.macho_readers.specs.Pages.{page_size as page_size_of, page_end};

use crate::files::{bytes_of_slice, is_read};
use crate::pages::page_size;
use macho_fields::header::fat::{FAT_HEADER_SIZE, fat_arch};
use macho_fields::{Order, Span};
use macho_rules::Verified;
use macho_spans::{SpanList, SpansByStart};
use macho_strict::entry_size;
use std::alloc::{AllocError, Global};

/// The place of the first entry whose slice is read, and does not begin with a page, or has a page in which another
/// slice begins. For n slices it takes time in the order of n log n, and memory for each if the file is universal.
pub fn fat_page(alloc: Global, verified: &Verified) -> Result<Option<u64>, AllocError>
    ensures least { IfOk result (IsLeastPlace (BreaksFatPage verified.now)) }
    ensures memory { OnErr result (IsUniversal verified.now) }
{
    let Some(size) = entry_size(verified.bytes()) else {
        return Ok(None);
    };
    let slices = sorted_slices(alloc, verified)?;
    for index in 0..verified.slice_count() {
        let place = FAT_HEADER_SIZE + index * size;
        if is_off_pages(verified, &slices, index, place) {
            return Ok(Some(place));
        }
    }
    Ok(None)
}

// The slices, sorted by their starts.
fn sorted_slices(alloc: Global, verified: &Verified) -> Result<SpansByStart, AllocError>
    ensures same { IfOk result (λ sorted. IsPermutation (slice_spans verified.now) (sorted_spans sorted)) }
    ensures rising { IfOk result (λ sorted. IsNonDecreasingBy (λ span. span.start) (sorted_spans sorted)) }
{
    let mut list = SpanList::with_capacity(alloc, verified.slice_count() as usize)?;
    for index in 0..verified.slice_count() {
        list.push(slice_span(verified, index))?;
    }
    Ok(list.sorted())
}

// Where the slice with this index lies in the file.
fn slice_span(verified: &Verified, index: u64) -> Span
    requires { index < length (slices_of verified.now) }
    ensures { result ≡ span_at (slice_spans verified.now) index }
{
    verified.slice(index).unwrap().span
}

// Whether the slice of the entry with this index, which is at `place`, is read, and is off its pages.
fn is_off_pages(verified: &Verified, slices: &SpansByStart, index: u64, place: u64) -> bool
    requires universal { IsUniversal verified.now }
    requires entry { index < length (slices_of verified.now) }
    requires place { place ≡ entry_place verified.now index }
    requires inside { place + 8 ≤ length verified.now }
    requires same { IsPermutation (slice_spans verified.now) (sorted_spans slices.now) }
    requires rising { IsNonDecreasingBy (λ span. span.start) (sorted_spans slices.now) }
    ensures { IsTrue result ↔ IsOffPages verified.now index }
{
    if !is_read(bytes_of_slice(verified, index)) {
        return false;
    }
    let slice = slice_span(verified, index);
    let cputype = verified
        .bytes()
        .read_u32(Order::Big, place + fat_arch::CPUTYPE);
    if slice.start % page_size(cputype) != 0 {
        return true;
    }
    shares_page(slices, slice, cputype)
}

// Whether a slice begins after this one, and not after its last page.
fn shares_page(slices: &SpansByStart, slice: Span, cputype: u32) -> bool
    requires some { 0 < slice.len }
    requires fits { slice.start + slice.len ≤ 2 ^ 64 }
    requires rising { IsNonDecreasingBy (λ span. span.start) (sorted_spans slices.now) }
    ensures { IsTrue result ↔ BeginsWithin (sorted_spans slices.now) slice.start
        (page_end (page_size_of cputype) (slice.start + slice.len - 1)) }
{
    let page = page_size(cputype);
    let last = slice.start + (slice.len - 1);
    match slices.last_by(last / page * page + (page - 1)) {
        Some(next) => slice.start < next.start,
        None => false,
    }
}
