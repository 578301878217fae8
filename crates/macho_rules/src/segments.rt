//! The rules of the segments of an image. (`mach-o/loader.h`: `segment_command_64`)

ghost use Rattle.std.specs.Prelude.{◌≡◌, ◌+◌, ◌-◌, ◌*◌, ◌^◌, ◌<◌, ◌≤◌, ◌↔◌, min, max, length, map};
ghost use Rattle.std.specs.Prelude.{slice_get, None, Some, IfOk, IsTrue};
ghost use Rattle.macho_fields.specs.Rules.{BreaksImage};
ghost use Rattle.macho_fields.specs.Segment.{vmaddr, vmsize, fileoff, filesize};
ghost use Rattle.macho_fields.specs.Segment.{PassesLastAddress, IsLongerInFile, PassesImage};
ghost use Rattle.macho_fields.specs.declared.rule.Rule.{Rule};
ghost use Rattle.macho_rules.specs.Check.{KeptBefore, ContinuesWithMemory};
ghost use Rattle.macho_rules.specs.Verdict.{ImageTakesMemory};
ghost use Rattle.macho_rules.specs.Mapped.{mapped_segments, memory_at, mapped_memory};
ghost use Rattle.macho_spans.specs.Overlap.{IsUnordered};

use crate::refusal::Refusal;
use crate::survey::SegmentSurvey;
use macho_fields::{Break, Rule, Sharing, SpanList};
use macho_image::{Image, Segment};
use std::alloc::{AllocError, Global};

// One past the last address.
const ADDRESS_END: u128 = 1 << 64;

/// Whether the addresses of the segment end past 2^64.
pub fn passes_last_address(segment: &Segment) -> bool
    ensures { IsTrue result ↔ PassesLastAddress segment.now.image segment.now.place }
{
    segment.memory().end() > ADDRESS_END
}

/// Whether the segment is mapped, and has more bytes in the file than in memory.
pub fn is_longer_in_file(segment: &Segment) -> bool
    ensures { IsTrue result ↔ IsLongerInFile segment.now.image segment.now.place }
{
    segment.vmsize() > 0 && segment.filesize() > segment.vmsize()
}

/// Whether the segment has bytes in the file, and they end past the image.
pub fn passes_image(segment: &Segment) -> bool
    ensures { IsTrue result ↔ PassesImage segment.now.image segment.now.place }
{
    segment.filesize() > 0 && !segment.image().contains(segment.file_part())
}

// No mapped segment has an address in common with an earlier one.
//
// For n mapped segments that ascend or descend it takes no time past the survey, and no memory. For
// others it may take time in the order of n log n, and 24 bytes of memory for each.
pub(crate) fn segment_overlap(
    alloc: Global,
    image: &Image,
    survey: &SegmentSurvey,
) -> Result<(), Refusal>
    requires survey { survey.now ≡ image.now }
    requires kept { KeptBefore image.now Rule.SegmentOverlap }
    ensures { ContinuesWithMemory (BreaksImage image.now None) Rule.SegmentOverlap
        (ImageTakesMemory image.now None) result }
{
    match survey.sharing() {
        Sharing::None => Ok(()),
        Sharing::First(place) => Err(Refusal::Broken(Break::at(Rule::SegmentOverlap, place))),
        Sharing::Unknown => sorted_overlap(alloc, image, survey.mapped_count()),
    }
}

// Decides `segment-overlap` for the `count` mapped segments, which are unordered: it sorts them.
fn sorted_overlap(alloc: Global, image: &Image, count: usize) -> Result<(), Refusal>
    requires count { count ≡ min (length (mapped_segments image.now)) (2 ^ 64 - 1) }
    requires kept { KeptBefore image.now Rule.SegmentOverlap }
    requires unordered { IsUnordered (mapped_memory image.now) }
    ensures { ContinuesWithMemory (BreaksImage image.now None) Rule.SegmentOverlap
        (ImageTakesMemory image.now None) result }
{
    let spans = mapped_memory(alloc, image, count)?;
    let Some(index) = spans.least_overlap() else {
        return Ok(());
    };
    let place = mapped_place(image, index);
    Err(Refusal::Broken(Break::at(Rule::SegmentOverlap, place)))
}

// How many segments are mapped, or the largest `usize` where there are more.
pub(crate) fn mapped_count(image: &Image) -> usize
    ensures { result ≡ min (length (mapped_segments image.now)) (2 ^ 64 - 1) }
{
    let mut count: usize = 0;
    for _segment in image.mapped_segments() {
        count = count.saturating_add(1);
    }
    count
}

// The addresses of each of the `count` mapped segments, in the order of the commands. The memory
// for them is allocated at once.
fn mapped_memory(alloc: Global, image: &Image, count: usize) -> Result<SpanList, AllocError>
    requires { count ≡ min (length (mapped_segments image.now)) (2 ^ 64 - 1) }
    ensures memory { IfOk result (λ list.
        list.spans ≡ map (memory_at image.now) (mapped_segments image.now)) }
    ensures room { IfOk result (λ list. list.capacity ≤ max count (2 * length list.spans + 4)) }
{
    let mut list = SpanList::with_capacity(alloc, count)?;
    for segment in image.mapped_segments() {
        list.push(segment.memory())?;
    }
    Ok(list)
}

// The place of the mapped segment with this index among the mapped ones, counted from 0.
fn mapped_place(image: &Image, index: u64) -> u64
    requires { index < length (mapped_segments image.now) }
    ensures { Some result ≡ slice_get (mapped_segments image.now) index }
{
    image.mapped_segments().nth(index as usize).unwrap().place()
}
