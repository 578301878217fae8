//! The rule of what readers find at the addresses of sections. (`mach-o/loader.h`: `section_64`)

ghost use Rattle.std.specs.Prelude.{◌≡◌, ◌+◌, ◌≤◌, ◌<◌, ◌↔◌, ℕ, List, IsTrue, Any, IfOk, OnErr, IfSome, IsPermutation, length, map, min, None};
ghost use Rattle.std.specs.List.Sorted.{IsNonDecreasingBy};
ghost use Rattle.macho_fields.specs.FirstPlace.{IsLeastPlace};
ghost use Rattle.macho_fields.specs.Image.{commands_of};
ghost use Rattle.macho_fields.specs.Layers.{NothingBreaks};
ghost use Rattle.macho_fields.specs.NonZero.{HasNonZero};
ghost use Rattle.macho_fields.specs.Rules.{BreaksImage as Breaks};
ghost use Rattle.macho_fields.specs.Segment.{vmaddr as vmaddr_of, fileoff as fileoff_of, vmsize as vmsize_of, filesize as filesize_of, section_address, section_size, Supplies};
ghost use Rattle.macho_image.specs.Segment.{sections_of};
ghost use Rattle.macho_rules.specs.Mapped.{mapped_memory};
ghost use Rattle.macho_spans.specs.Overlap.{sorted_spans};
ghost use Rattle.macho_spans.specs.Span.{Holds, Shares};
ghost use Rattle.macho_readers.specs.SectionAlone.{mapped_part as mapped_part_of, SharesMapped, MeetsSegment, IsOverMapped, TellsOverMapped, IsHiding};
ghost use Rattle.macho_readers.specs.Sections.{AtSection, IsDebug, HidesByte, BreaksSectionAlone};

use crate::names::FEW_NAMES;
use crate::sections::has_few_sections;
use macho_fields::Span;
use macho_fields::header::loader::S_ATTR_DEBUG;
use macho_image::{Image, Section, Segment};
use macho_spans::{SpanList, SpansByStart};
use macho_tables::place::{lesser, place_of_section};
use std::alloc::{AllocError, Global};

/// The place of the first section that readers look for at addresses at which they find something else: an earlier
/// section, a byte of the file where this one shows a zero, or a segment where its own is not mapped. For n sections
/// and segments it takes time in the order of n log n, and memory for each only if there are more than [`FEW_NAMES`]
/// sections. It also reads the bytes under zero-fill sections, once for each segment that has them.
pub fn section_alone(alloc: Global, image: &Image) -> Result<Option<u64>, AllocError>
    requires { NothingBreaks (Breaks image.now None) }
    ensures least { IfOk result (IsLeastPlace (BreaksSectionAlone image.now)) }
    ensures memory { OnErr result
        (FEW_NAMES < length (sections_of image.now (commands_of image.now))) }
{
    let shared = first_shared(alloc, image)?;
    let over = first_over(alloc, image)?;
    // Sections before the first that shares an address read no byte of a segment twice.
    let hiding = first_hiding(image, shared);
    let others = lesser(over, hiding);
    Ok(lesser(shared, others))
}

// The place of the first section of a mapped segment that shares an address with an earlier one.
fn first_shared(alloc: Global, image: &Image) -> Result<Option<u64>, AllocError>
    requires { NothingBreaks (Breaks image.now None) }
    ensures least { IfOk result (IsLeastPlace (AtSection image.now (SharesMapped image.now))) }
    ensures memory { OnErr result
        (FEW_NAMES < length (sections_of image.now (commands_of image.now))) }
{
    if has_few_sections(image) {
        return Ok(first_sharing(image));
    }
    let parts = mapped_parts(alloc, image)?;
    let Some(index) = parts.least_overlap() else {
        return Ok(None);
    };
    Ok(place_of_section(image.sections().nth(index as usize)))
}

// The place of the first section of a mapped segment that shares an address with an earlier one. It compares all pairs.
fn first_sharing(image: &Image) -> Option<u64>
    ensures { IsLeastPlace (AtSection image.now (SharesMapped image.now)) result }
{
    place_of_section(
        image
            .sections()
            .find(|section| shares_earlier(image, section)),
    )
}

// Whether the section and one of the image at a lesser place share an address, and the segments of both are mapped.
fn shares_earlier(image: &Image, section: &Section) -> bool
    ensures { IsTrue result ↔ Any (λ earlier. (earlier.1 < section.now.place)
        × Shares (mapped_part_of image.now earlier)
        (mapped_part_of section.now.image (section.now.segment, section.now.place)))
        (sections_of image.now (commands_of image.now)) }
{
    let part = mapped_part(section);
    let place = section.place();
    image
        .sections()
        .any(|earlier| shares_part(&earlier, place, &part))
}

// Whether the section is at a lesser place, its segment is mapped, and it has an address of the span.
fn shares_part(earlier: &Section, place: u64, part: &Span) -> bool
    ensures { IsTrue result ↔ (earlier.now.place < place)
        × Shares (mapped_part_of earlier.now.image (earlier.now.segment, earlier.now.place)) part.now }
{
    earlier.place() < place && mapped_part(earlier).shares(part)
}

// The addresses of each section of a mapped segment, and an empty span for each other section.
fn mapped_parts(alloc: Global, image: &Image) -> Result<SpanList, AllocError>
    ensures { IfOk result (λ list. list.spans
        ≡ map (mapped_part_of image.now) (sections_of image.now (commands_of image.now))) }
{
    let mut parts = SpanList::with_capacity(alloc, 0)?;
    for section in image.sections() {
        parts.push(mapped_part(&section))?;
    }
    Ok(parts)
}

// The addresses of the section, or no address if its segment is not mapped.
fn mapped_part(section: &Section) -> Span
    ensures { result ≡ mapped_part_of section.now.image (section.now.segment, section.now.place) }
{
    if section.segment().vmsize() > 0 {
        section.memory()
    } else {
        Span { start: 0, len: 0 }
    }
}

// The place of the first section of an unmapped segment that is at an address of a segment.
fn first_over(alloc: Global, image: &Image) -> Result<Option<u64>, AllocError>
    requires { NothingBreaks (Breaks image.now None) }
    ensures least { IfOk result (IsLeastPlace (AtSection image.now (IsOverMapped image.now image.now))) }
    ensures memory { OnErr result
        (FEW_NAMES < length (sections_of image.now (commands_of image.now))) }
{
    if has_few_sections(image) {
        return Ok(first_over_any(image));
    }
    let segments = mapped_memory(alloc, image)?.sorted();
    Ok(place_of_section(
        image
            .sections()
            .find(|section| is_over_mapped(section, &segments)),
    ))
}

// The place of the first section of an unmapped segment that is at an address of a segment. It compares all pairs.
fn first_over_any(image: &Image) -> Option<u64>
    ensures { IsLeastPlace (AtSection image.now (IsOverMapped image.now image.now)) result }
{
    place_of_section(image.sections().find(|section| is_over_any(image, section)))
}

// Whether the segment of the section is not mapped, readers look for the section, and it is at an address of a segment of
// the image.
fn is_over_any(image: &Image, section: &Section) -> bool
    ensures { IsTrue result
        ↔ IsOverMapped image.now section.now.image (section.now.segment, section.now.place) }
{
    is_unmapped(section) && meets_any(image, &section.memory())
}

// Whether a segment of the image has an address of the span.
fn meets_any(image: &Image, span: &Span) -> bool
    ensures { IsTrue result ↔ MeetsSegment image.now span.now }
{
    image
        .segments()
        .any(|segment| supplies_part(&segment, span))
}

// Whether the segment has an address of the span.
fn supplies_part(segment: &Segment, span: &Span) -> bool
    ensures { IsTrue result ↔ (address : ℕ) × Holds span.now address
        × Supplies segment.now.image segment.now.place address }
{
    span.shares(&segment.memory())
}

// The addresses of each mapped segment.
fn mapped_memory(alloc: Global, image: &Image) -> Result<SpanList, AllocError>
    ensures { IfOk result (λ list. list.spans ≡ mapped_memory image.now) }
{
    let mut list = SpanList::with_capacity(alloc, 0)?;
    for segment in image.mapped_segments() {
        list.push(segment.memory())?;
    }
    Ok(list)
}

// Whether the segment of the section is not mapped, readers look for the section, and it is at an address of one of the
// segments.
#[tactic(auto, unfolding(crate::specs::SectionAlone::TellsOverMapped))]
fn is_over_mapped(section: &Section, segments: &SpansByStart) -> bool
    ensures { TellsOverMapped result (sorted_spans segments.now) section.now.image
        (section.now.segment, section.now.place) }
{
    is_unmapped(section) && meets_segment(segments, section.memory())
}

// Whether the segment of the section is not mapped, and readers look for the section.
fn is_unmapped(section: &Section) -> bool
    ensures { IsTrue result ↔ (vmsize_of section.now.image section.now.segment ≡ 0)
        × (0 < section_size section.now.image section.now.place)
        × ¬ IsDebug section.now.image (section.now.segment, section.now.place) }
{
    section.segment().vmsize() == 0 && section.size() > 0 && !is_debug(section)
}

/// Whether no reader looks for the section at an address.
pub fn is_debug(section: &Section) -> bool
    ensures { IsTrue result ↔ IsDebug section.now.image (section.now.segment, section.now.place) }
{
    section.segment().vmsize() == 0 && section.flags() & S_ATTR_DEBUG != 0
}

// Whether one of the segments has an address of the span.
fn meets_segment(segments: &SpansByStart, span: Span) -> bool
    requires { 0 < span.len }
    ensures { (image : List ℕ) → NothingBreaks (Breaks image None)
        → IsPermutation (mapped_memory image) (sorted_spans segments.now)
        → IsNonDecreasingBy (λ span. span.start) (sorted_spans segments.now)
        → IsTrue result ↔ MeetsSegment image span }
{
    let last = span.start.saturating_add(span.len - 1);
    match segments.last_by(last) {
        Some(segment) => segment.shares(&span),
        None => false,
    }
}

// The place of the first section before the end that shows a zero where its segment has a byte that is not.
fn first_hiding(image: &Image, end: Option<u64>) -> Option<u64>
    ensures { IsLeastPlace (AtSection image.now (IsHiding end image.now)) result }
{
    place_of_section(image.sections().find(|section| is_hiding(section, end)))
}

// Whether the section is before the end, and shows a zero where its segment has a byte that is not.
fn is_hiding(section: &Section, end: Option<u64>) -> bool
    ensures { IsTrue result
        ↔ IsHiding end section.now.image (section.now.segment, section.now.place) }
{
    is_before(section.place(), end)
        && section.segment().vmsize() > 0
        && section.size() > 0
        && section.segment().vmaddr() <= section.addr()
        && hides_byte(section)
}

// Whether the place is before the end, if there is one.
fn is_before(place: u64, end: Option<u64>) -> bool
    ensures { IsTrue result ↔ IfSome end (λ end. place < end) }
{
    match end {
        Some(end) => place < end,
        None => true,
    }
}

// Whether the section shows a zero where its segment has a byte that is not.
fn hides_byte(section: &Section) -> bool
    requires { vmaddr_of section.now.image section.now.segment ≤ section_address section.now.image section.now.place }
    ensures { IsTrue result ↔ HidesByte section.now.image (section.now.segment, section.now.place) }
{
    let segment = section.segment();
    section.is_zero_fill() && has_bytes(&segment, section.addr() - segment.vmaddr(), section.size())
}

// Whether the file has a byte that is not zero for one of the `len` addresses that are `past` or more past the first
// address of the segment.
fn has_bytes(segment: &Segment, past: u64, len: u64) -> bool
    ensures { IsTrue result ↔ HasNonZero segment.now.image (fileoff_of segment.now.image segment.now.place + past)
        (fileoff_of segment.now.image segment.now.place
        + min (past + len) (filesize_of segment.now.image segment.now.place)) }
{
    let image = segment.image();
    prove!(image.len() <= u64::MAX);
    let filesize = segment.filesize();
    if past >= filesize {
        return false;
    }
    let Some(start) = segment.fileoff().checked_add(past) else {
        return false;
    };
    let part = Span {
        start,
        len: len.min(filesize - past),
    };
    image.first_nonzero(part).is_some()
}
