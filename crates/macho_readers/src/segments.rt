//! The rules of segments: what readers see of their pages, their protection and their names.
//! (`mach-o/loader.h`: `segment_command_64`)

ghost use Rattle.std.specs.Prelude.{◌≡◌, ◌+◌, ◌≤◌, ◌<◌, ◌↔◌, IsTrue, IfOk, OnErr, map, length, Any, Contains, find};
ghost use Rattle.macho_fields.specs.FirstPlace.{IsLeastPlace};
ghost use Rattle.macho_fields.specs.Segment.{all_segments, shows_start};
ghost use Rattle.macho_image.specs.Segment.{segment_name as segment_name_of};
ghost use Rattle.macho_readers.specs.Names.{number_of, names_of};
ghost use Rattle.macho_readers.specs.Pages.{page_size as page_size_of};
ghost use Rattle.macho_readers.specs.Segments.{HasUnevenMemory, HasUnevenBytes, IsOffPage, BreaksSegmentPage, ExceedsMaximum, HasOtherBits, IsLessAllowed, BreaksSegmentProtection, HasTail, HasEarlierName, IsTextBut, IsOtherText, IsMisnamedBut, BreaksSegmentName};

use crate::names::{FEW_NAMES, Named, has_tail, least_repeated, name_number, note_bytes};
use crate::pages::page_size;
use macho_fields::header::loader::SEGMENT_COMMAND_64_SIZE;
use macho_fields::header::loader::segment_command_64::SEGNAME;
use macho_fields::header::vm_prot::{VM_PROT_EXECUTE, VM_PROT_READ, VM_PROT_WRITE};
use macho_image::{Image, Segment};
use macho_tables::place::{lesser, place_of_segment};
use macho_tables::segment::is_text;
use std::alloc::{AllocError, Global};

/// The place of the first segment that does not begin with a page, in memory or in the file.
pub fn segment_page(image: &Image) -> Option<u64>
    ensures { IsLeastPlace (BreaksSegmentPage image.now) result }
{
    let (cputype, _) = image.arch();
    place_of_segment(
        image
            .segments()
            .find(|segment| is_off_page(segment, cputype)),
    )
}

/// The place of the first mapped segment whose initial protection allows more than its memory does.
pub fn segment_protection(image: &Image) -> Option<u64>
    ensures { IsLeastPlace (BreaksSegmentProtection image.now) result }
{
    place_of_segment(image.segments().find(|segment| is_less_allowed(segment)))
}

/// The place of the first segment with a byte past its name, with the name of an earlier segment, without a name, or
/// with the name `__TEXT` and without the base, or the reverse. For n segments it takes time in the order of n log n,
/// and memory only if there are more than [`FEW_NAMES`].
pub fn segment_name(alloc: Global, image: &Image) -> Result<Option<u64>, AllocError>
    ensures least { IfOk result (IsLeastPlace (BreaksSegmentName image.now)) }
    ensures memory { OnErr result (FEW_NAMES < length (all_segments image.now)) }
{
    let misnamed = first_misnamed(image);
    let repeated = repeated_name(alloc, image)?;
    Ok(lesser(misnamed, repeated))
}

// The place of the first segment whose name is seen in two ways, whatever the other names are.
fn first_misnamed(image: &Image) -> Option<u64>
    ensures { IsLeastPlace (λ place. Contains (all_segments image.now) place
        × IsMisnamedBut (find (shows_start image.now) (all_segments image.now)) image.now place) result }
{
    let base = base_segment(image);
    place_of_segment(image.segments().find(|segment| is_misnamed(segment, base)))
}

// The place of the segment whose address is the base, if there is one.
fn base_segment(image: &Image) -> Option<u64>
    ensures { result ≡ find (shows_start image.now) (all_segments image.now) }
{
    place_of_segment(image.segments().find(|segment| segment.shows_start()))
}

// Whether the name of the segment is seen in two ways, where the segment at `base` has the base.
fn is_misnamed(segment: &Segment, base: Option<u64>) -> bool
    requires { segment.now.place + SEGMENT_COMMAND_64_SIZE ≤ length segment.now.image }
    ensures { IsTrue result ↔ IsMisnamedBut base segment.now.image segment.now.place }
{
    has_tail(segment.image(), segment.place() + SEGNAME)
        || is_text_but(segment, base)
        || segment.name().is_empty()
}

// Whether the segment is named `__TEXT` and is not at `base`, or the reverse.
fn is_text_but(segment: &Segment, base: Option<u64>) -> bool
    ensures { IsTrue result ↔ IsTextBut base segment.now.image segment.now.place }
{
    is_text(segment) != (base == Some(segment.place()))
}

// The place of the first segment with the name of an earlier one.
fn repeated_name(alloc: Global, image: &Image) -> Result<Option<u64>, AllocError>
    ensures least { IfOk result (IsLeastPlace (λ place.
        Contains (all_segments image.now) place × HasEarlierName image.now place)) }
    ensures memory { OnErr result (FEW_NAMES < length (all_segments image.now)) }
{
    if has_few_segments(image) {
        return Ok(first_repeated(image));
    }
    let mut names = segment_names(alloc, image)?;
    note_bytes(image.bytes());
    Ok(least_repeated(&mut names))
}

// Whether there are no more segments than are compared in pairs.
fn has_few_segments(image: &Image) -> bool
    ensures { IsTrue result ↔ (length (all_segments image.now) ≤ FEW_NAMES) }
{
    image.segments().nth(FEW_NAMES).is_none()
}

// The place of the first segment with the name of an earlier one. It compares all pairs.
fn first_repeated(image: &Image) -> Option<u64>
    ensures { IsLeastPlace (λ place.
        Contains (all_segments image.now) place × HasEarlierName image.now place) result }
{
    place_of_segment(
        image
            .segments()
            .find(|segment| has_earlier_name(image, segment)),
    )
}

// Whether a segment of the image at a lesser place has the name of this one.
fn has_earlier_name(image: &Image, segment: &Segment) -> bool
    ensures { IsTrue result ↔ Any (λ earlier. (earlier < segment.now.place)
        × (segment_name_of image.now earlier ≡ segment_name_of segment.now.image segment.now.place))
        (all_segments image.now) }
{
    image.segments().any(|earlier| earlier.place() < segment.place()
        && earlier.name() == segment.name())
}

// The names of the segments.
fn segment_names(alloc: Global, image: &Image) -> Result<Vec<Named>, AllocError>
    ensures names { IfOk result (λ names. map names_of names.items
        ≡ map (λ segment. (number_of (segment_name_of image.now segment), 0, segment))
        (all_segments image.now)) }
{
    let mut names = Vec::new(alloc);
    for segment in image.segments() {
        names.push(Named {
            segment: name_number(segment.image(), segment.place() + SEGNAME),
            section: 0,
            place: segment.place(),
        })?;
    }
    Ok(names)
}

// Whether the segment does not begin with a page of an image with this `cputype`.
fn is_off_page(segment: &Segment, cputype: u32) -> bool
    ensures { IsTrue result ↔ IsOffPage (page_size_of cputype) segment.now.image segment.now.place }
{
    has_uneven_memory(segment, cputype) || has_uneven_bytes(segment, cputype)
}

// Whether the segment is mapped, and no page begins with it in memory.
fn has_uneven_memory(segment: &Segment, cputype: u32) -> bool
    ensures { IsTrue result ↔ HasUnevenMemory (page_size_of cputype) segment.now.image segment.now.place }
{
    segment.vmsize() > 0 && segment.vmaddr() % page_size(cputype) != 0
}

// Whether the segment has bytes, and no page begins with it in the file.
fn has_uneven_bytes(segment: &Segment, cputype: u32) -> bool
    ensures { IsTrue result ↔ HasUnevenBytes (page_size_of cputype) segment.now.image segment.now.place }
{
    segment.filesize() > 0 && segment.fileoff() % page_size(cputype) != 0
}

// Whether the segment is mapped, and its memory allows less than its initial protection says.
fn is_less_allowed(segment: &Segment) -> bool
    ensures { IsTrue result ↔ IsLessAllowed segment.now.image segment.now.place }
{
    segment.vmsize() > 0 && (exceeds_maximum(segment) || has_other_bits(segment))
}

// Whether the initial protection has a bit that the maximum protection lacks.
fn exceeds_maximum(segment: &Segment) -> bool
    ensures { IsTrue result ↔ ExceedsMaximum segment.now.image segment.now.place }
{
    segment.initprot() & segment.maxprot() != segment.initprot()
}

// Whether the initial protection has a bit besides read, write and execute.
fn has_other_bits(segment: &Segment) -> bool
    ensures { IsTrue result ↔ HasOtherBits segment.now.image segment.now.place }
{
    segment.initprot() > u64::from(VM_PROT_READ + VM_PROT_WRITE + VM_PROT_EXECUTE)
}
